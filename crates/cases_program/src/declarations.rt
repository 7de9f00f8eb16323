//! Structures, devices, objects and functions.

use crate::builder::{Builder, Parts, Terms, put, taken};
use crate::types::{plain, signature};
use crate::words::{int_type, name, split};
use cc_program::num::{List, Name};
use cc_syntax::{Address, Device, Entry, Func, Leaf, Object, Part, Root, Shape, Sig, Structure};
use std::alloc::Global;

fn structure(terms: &mut Terms, text: &str) -> Option<Structure> {
    let tag = name(terms.alloc, text)?;
    let members = taken(terms.alloc, &mut terms.names);
    Some(Structure { tag, members })
}

fn optional_name(alloc: Global, text: &str) -> Option<Option<Name>> {
    if text.is_empty() {
        Some(None)
    } else {
        Some(Some(name(alloc, text)?))
    }
}

fn device(alloc: Global, rest: &str) -> Option<Device> {
    let (place, kind) = split(rest);
    let (text, number) = place.split_once('@').unwrap_or((place, "0"));
    let (int, constant) = split(kind);
    let number = number.parse().ok()?;
    let int = int_type(int)?;
    Some(Device {
        name: optional_name(alloc, text)?,
        number,
        int,
        constant: constant == "const",
    })
}

fn object(terms: &mut Terms, leaves: &mut Vec<Leaf>, text: &str) -> Option<Object> {
    let name = name(terms.alloc, text)?;
    let ctype = terms.types.pop()?;
    let init = taken(terms.alloc, leaves);
    Some(Object { name, ctype, init })
}

fn part(word: &str) -> Option<Part> {
    match word.strip_prefix('m') {
        Some(m) => Some(Part::Member(m.parse().ok()?)),
        None => Some(Part::Index(word.strip_prefix('i')?.parse().ok()?)),
    }
}

fn path(alloc: Global, text: &str) -> Option<List<Part>> {
    let mut path = Vec::new(alloc);
    for word in text.split(',') {
        if !word.is_empty() {
            path.push(part(word)?).ok()?;
        }
    }
    Some(List::of(path))
}

/// `OBJECT:INDEX:COUNT:PATH`.
fn place(alloc: Global, text: &str) -> Option<Address> {
    let (object, text) = split(text);
    let (index, text) = split(text);
    let (count, text) = split(text);
    let object = object.parse().ok()?;
    let index = index.parse().ok()?;
    let count = count.parse().ok()?;
    Some(Address::At {
        object: Root::Static(object),
        path: path(alloc, text)?,
        index,
        count,
    })
}

fn leaf(alloc: Global, rest: &str) -> Option<Leaf> {
    let (word, text) = split(rest);
    match word {
        "null" => Some(Leaf::Place(Address::Null)),
        "func" => Some(Leaf::Place(Address::Func(text.parse().ok()?))),
        "at" => Some(Leaf::Place(place(alloc, text)?)),
        _ => Some(Leaf::Int(word.parse().ok()?)),
    }
}

/// A function with the names and the statements that wait to be taken.
fn function(b: &mut Builder, text: &str, sig: Sig, params: u32) -> Option<Func> {
    let alloc = b.terms.alloc;
    Some(Func {
        name: name(alloc, text)?,
        sig,
        entry: b.parts.entry.take(),
        params,
        locals: taken(alloc, &mut b.terms.names),
        body: taken(alloc, &mut b.bodies.list),
    })
}

/// `NAME:TAKEN`, or `NAME:TAKEN:COUNT`.
fn declared(b: &mut Builder, rest: &str) -> Option<Func> {
    let (text, counts) = split(rest);
    let (taken, counted) = split(counts);
    let count = if counted.is_empty() { taken } else { counted };
    let count = count.parse().ok()?;
    let sig = signature(&mut b.terms.types, taken.parse().ok()?)?;
    function(b, text, sig, count)
}

fn main_function(b: &mut Builder) -> Option<Func> {
    let sig = Sig {
        result: plain(Shape::Void),
        params: List::of(Vec::new(b.terms.alloc)),
    };
    function(b, "main", sig, 0)
}

/// Reads a word that says something of the whole program, or of the next function.
fn choose(b: &mut Builder, head: &str, rest: &str) -> Option<()> {
    match head {
        "signal" => b.parts.entry = Some(Entry::Signal),
        "interrupt" => b.parts.entry = Some(Entry::Interrupt),
        "listed" => b.parts.entry = Some(Entry::Listed),
        "ticks" => b.choices.ticks = true,
        "levels" => b.choices.levels = true,
        "small" => b.choices.is_small = true,
        "start" => b.choices.main = Some(rest.parse().ok()?),
        _ => return None,
    }
    Some(())
}

fn put_part(terms: &mut Terms, parts: &mut Parts, head: &str, rest: &str) -> Option<()> {
    match head {
        "structure" => put(&mut parts.structures, structure(terms, rest)),
        "dev" => put(&mut parts.devices, device(terms.alloc, rest)),
        "leaf" => put(&mut parts.leaves, leaf(terms.alloc, rest)),
        _ => {
            let object = object(terms, &mut parts.leaves, rest);
            put(&mut parts.objects, object)
        }
    }
}

/// Reads a word of declarations.
pub fn read(b: &mut Builder, head: &str, rest: &str) -> Option<()> {
    match head {
        "structure" | "dev" | "leaf" | "object" => put_part(&mut b.terms, &mut b.parts, head, rest),
        "fun" => {
            let f = declared(b, rest);
            put(&mut b.parts.funcs, f)
        }
        "main" => {
            let f = main_function(b);
            put(&mut b.parts.funcs, f)
        }
        _ => choose(b, head, rest),
    }
}
