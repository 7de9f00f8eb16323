//! What is written of addresses, sets and values: addresses as cases write them, sets between braces in their order, and a
//! `*` before one that is not exact.

use crate::written::{write_ends, write_members};
use cases_script::Page;
use cc_lattice::IntDomain;
use cc_places::{Abs, Addrs};
use cc_program::{Address, Part, Root, Value};

fn write_root(page: &mut Page, object: Root) {
    match object {
        Root::Static(o) => page.put_with("o", o),
        Root::Auto {
            activation,
            func,
            local,
        } => {
            page.put_with("a", activation);
            page.put_with(".", func);
            page.put_with(".", local);
        }
    }
}

fn write_part(page: &mut Page, part: Part) {
    match part {
        Part::Member(m) => page.put_with("-m", m),
        Part::Index(i) => page.put_with("-i", i),
    }
}

/// Writes an address.
pub fn write_address(page: &mut Page, a: &Address) {
    match a {
        Address::Null => page.put("0"),
        Address::Func(f) => page.put_with("f", *f),
        Address::At {
            object,
            path,
            index,
            count,
        } => {
            write_root(page, *object);
            for part in path.all() {
                write_part(page, *part);
            }
            page.put_with("@", *index);
            page.put_with("/", *count);
        }
    }
}

/// Writes addresses between braces.
pub fn write_addresses(page: &mut Page, members: &[Address]) {
    page.put("{");
    for (place, member) in members.iter().enumerate() {
        if place > 0 {
            page.put(",");
        }
        write_address(page, member);
    }
    page.put("}");
}

/// Writes some members of a set, or that it has none of the kind.
pub fn write_some(page: &mut Page, members: Option<&[Address]>) {
    match members {
        Some(members) => write_addresses(page, members),
        None => page.put("none"),
    }
}

/// Writes a set of addresses.
pub fn write_set(page: &mut Page, set: &Addrs) {
    if let Some(members) = set.exact() {
        write_addresses(page, members);
    }
    if let Some(members) = set.starred() {
        page.put("*");
        write_addresses(page, members);
    }
}

/// Writes a set of numbers: its members between braces where it is explicit, and else its ends.
pub fn write_numbers<D: IntDomain>(page: &mut Page, set: &D) {
    match set.members() {
        Some(members) => write_members(page, members),
        None => write_ends(page, set.bounds(), "{}"),
    }
}

/// Writes integers behind an `i`, or addresses behind a `p`.
pub fn write_abs<D: IntDomain>(page: &mut Page, value: &Abs<D>) {
    match value {
        Abs::Ints(numbers) => {
            page.put("i");
            write_numbers(page, numbers);
        }
        Abs::Addrs(set) => {
            page.put("p");
            write_set(page, set);
        }
    }
}

/// Writes an integer or an address.
pub fn write_value(page: &mut Page, value: &Value) {
    match value {
        Value::Int(n) => page.show(*n),
        Value::Place(a) => write_address(page, a),
    }
}
