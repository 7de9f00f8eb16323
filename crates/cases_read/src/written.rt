//! How a program and a refusal are written.
//!
//! A program is its structures with their members, its devices, its objects with their first values, and its functions with
//! their locals and what their bodies speak of, where it has some:
//! `S: s{a b} | D: in @48/uchar/const | O: x=1 y:0 | F: f(a b:0){x in}!signal main`. A number behind a colon is that of the
//! structure that stands in a type. A first value is a number, `null`, or `&` and the name of an object or a function, whichever
//! part of the object is meant. A refusal is the number of the text, if it is not 0, and the cause, with the name, the rule or
//! the offset that it has.

use crate::spoken::write_stmts;
use cases_script::Page;
use cc_causes::LinkFault;
use cc_program::num::{IntType, Name, at};
use cc_program::{
    Address, CType, Device, Entry, Func, Leaf, Object, Program, Root, Shape, Structure,
};
use cc_read::{ReadRefusal, Refusal};
use cc_tree::GramFault;
use cc_type::TypeFault;
use cc_type::lex::LexFault;
use std::alloc::Global;

/// Puts a title in front of the first of some parts, and a blank in front of each.
fn put_front(page: &mut Page, title: &str, place: usize, later: bool) {
    if place == 0 {
        if later {
            page.put(" | ");
        }
        page.put(title);
    }
    page.put(" ");
}

/// The number of the structure that stands in a type.
fn structure_in(ctype: &CType) -> Option<u32> {
    match &ctype.shape {
        Shape::Struct(number) => Some(*number),
        Shape::Pointer(inner) => structure_in(inner.get()),
        Shape::Array(inner, _) => structure_in(inner.get()),
        Shape::Void | Shape::Int(_) | Shape::Func(_) => None,
    }
}

fn write_named(page: &mut Page, name: &[u8], ctype: &CType) {
    page.bytes(name);
    if let Some(number) = structure_in(ctype) {
        page.show(format_args!(":{number}"));
    }
}

fn write_structure(page: &mut Page, s: &Structure) {
    page.bytes(s.tag.all());
    if s.members.all().is_empty() {
        return;
    }
    page.put("{");
    for (place, (name, _)) in s.members.all().iter().enumerate() {
        if place > 0 {
            page.put(" ");
        }
        page.bytes(name.all());
    }
    page.put("}");
}

fn int_name(int: IntType) -> &'static str {
    match int {
        IntType::Bool => "bool",
        IntType::Char => "char",
        IntType::SChar => "schar",
        IntType::UChar => "uchar",
        IntType::Short => "short",
        IntType::UShort => "ushort",
        IntType::Int => "int",
        IntType::UInt => "uint",
        IntType::Long => "long",
        IntType::ULong => "ulong",
        IntType::LongLong => "longlong",
        IntType::ULongLong => "ulonglong",
    }
}

/// Writes the name of an object.
pub fn write_object_name(page: &mut Page, p: &Program, object: u32) {
    match at(p.objects.all(), object as usize) {
        Some(o) => page.bytes(o.name.all()),
        None => page.put("?"),
    }
}

/// Writes the name of a function.
pub fn write_function_name(page: &mut Page, p: &Program, function: u32) {
    match at(p.funcs.all(), function as usize) {
        Some(f) => page.bytes(f.name.all()),
        None => page.put("?"),
    }
}

/// Writes the name of a device, or its address and type.
fn write_register(page: &mut Page, d: &Device) {
    match &d.name {
        Some(name) => page.bytes(name.all()),
        None => {
            page.show(format_args!("@{}", d.number));
            page.put("/");
            page.put(int_name(d.int));
            if d.constant {
                page.put("/const");
            }
        }
    }
}

/// Writes a device.
pub fn write_device(page: &mut Page, p: &Program, device: u32) {
    match at(p.devices.all(), device as usize) {
        Some(d) => write_register(page, d),
        None => page.put("?"),
    }
}

fn write_leaf(page: &mut Page, p: &Program, leaf: &Leaf) {
    match leaf {
        Leaf::Int(n) => page.show(*n),
        Leaf::Place(Address::Null) => page.put("null"),
        Leaf::Place(Address::Func(function)) => {
            page.put("&");
            write_function_name(page, p, *function);
        }
        Leaf::Place(Address::At { object, .. }) => match object {
            Root::Static(object) => {
                page.put("&");
                write_object_name(page, p, *object);
            }
            Root::Auto { .. } => page.put("?"),
        },
    }
}

fn write_locals(page: &mut Page, locals: &[(Name, CType)]) {
    if locals.is_empty() {
        return;
    }
    page.put("(");
    for (place, (name, ctype)) in locals.iter().enumerate() {
        if place > 0 {
            page.put(" ");
        }
        write_named(page, name.all(), ctype);
    }
    page.put(")");
}

/// Writes what a body speaks of, in braces, where it speaks of something.
fn write_spoken(alloc: Global, page: &mut Page, p: &Program, f: &Func) -> Option<()> {
    let mut spoken = Page::new(alloc);
    write_stmts(&mut spoken, p, &f.body);
    let text = spoken.finish().ok()?;
    if let Some(names) = text.strip_prefix(" ") {
        page.put("{");
        page.put(names);
        page.put("}");
    }
    Some(())
}

fn write_func(alloc: Global, page: &mut Page, p: &Program, f: &Func) -> Option<()> {
    page.bytes(f.name.all());
    write_locals(page, f.locals.all());
    write_spoken(alloc, page, p, f)?;
    match f.entry {
        None => {}
        Some(Entry::Signal) => page.put("!signal"),
        Some(Entry::Interrupt) => page.put("!interrupt"),
        Some(Entry::Listed) => page.put("!listed"),
    }
    Some(())
}

fn write_object(page: &mut Page, p: &Program, o: &Object) {
    write_named(page, o.name.all(), &o.ctype);
    for (place, leaf) in o.init.all().iter().enumerate() {
        page.put(if place == 0 { "=" } else { "," });
        write_leaf(page, p, leaf);
    }
}

fn write_objects(page: &mut Page, p: &Program, later: bool) {
    for (place, o) in p.objects.all().iter().enumerate() {
        put_front(page, "O:", place, later);
        write_object(page, p, o);
    }
}

fn write_devices(page: &mut Page, p: &Program, later: bool) {
    for (place, d) in p.devices.all().iter().enumerate() {
        put_front(page, "D:", place, later);
        write_register(page, d);
    }
}

/// Writes a program.
pub fn write_program(alloc: Global, page: &mut Page, p: &Program) -> Option<()> {
    let structures = p.structures.all();
    for (place, s) in structures.iter().enumerate() {
        put_front(page, "S:", place, false);
        write_structure(page, s);
    }
    write_devices(page, p, !structures.is_empty());
    let later = !structures.is_empty() || !p.devices.all().is_empty();
    write_objects(page, p, later);
    for (place, f) in p.funcs.all().iter().enumerate() {
        put_front(page, "F:", place, later || !p.objects.all().is_empty());
        write_func(alloc, page, p, f)?;
    }
    Some(())
}

fn write_lex(page: &mut Page, fault: LexFault) {
    match fault {
        LexFault::BadByte(at) => page.show(format_args!("badbyte {at}")),
        LexFault::OpenComment(at) => page.show(format_args!("opencomment {at}")),
        LexFault::OpenText(at) => page.show(format_args!("opentext {at}")),
        LexFault::BadNumber(at) => page.show(format_args!("badnumber {at}")),
        LexFault::Directive(at) => page.show(format_args!("directive {at}")),
        LexFault::NoMemory => page.put("lex nomemory"),
    }
}

fn write_gram(page: &mut Page, fault: &GramFault) {
    match fault {
        GramFault::Outside(word, at) => {
            page.put("outside ");
            page.bytes(word.all());
            page.show(format_args!(" {at}"));
        }
        GramFault::TooDeep(_) => page.put("toodeep"),
        GramFault::Syntax(at) => page.show(format_args!("syntax {at}")),
        GramFault::NoMemory => page.put("gram nomemory"),
    }
}

fn write_types(page: &mut Page, fault: TypeFault) {
    match fault {
        TypeFault::Broken { rule, at } => page.show(format_args!("broken {rule} {at}")),
        TypeFault::NoMemory => page.put("types nomemory"),
    }
}

fn write_name(page: &mut Page, cause: &str, name: &[u8]) {
    page.put(cause);
    page.put(" ");
    page.bytes(name);
}

fn write_link(page: &mut Page, fault: &LinkFault) {
    match fault {
        LinkFault::TypesDiffer(name) => write_name(page, "typesdiffer", name.all()),
        LinkFault::Twice(name) => write_name(page, "twice", name.all()),
        LinkFault::Undefined(name) => write_name(page, "undefined", name.all()),
        LinkFault::NoMain => page.put("nomain"),
        LinkFault::BadHandler(name) => write_name(page, "badhandler", name.all()),
    }
}

/// Writes a refusal.
pub fn write_refusal(page: &mut Page, refusal: &Refusal) {
    if refusal.file > 0 {
        page.show(refusal.file);
        page.put(" ");
    }
    match &refusal.why {
        ReadRefusal::Lex(fault) => write_lex(page, *fault),
        ReadRefusal::Gram(fault) => write_gram(page, fault),
        ReadRefusal::Types(fault) => write_types(page, *fault),
        ReadRefusal::Link(fault) => write_link(page, fault),
        ReadRefusal::NoMemory => page.put("nomemory"),
    }
}
