//! Structures, and what has a place in memory.

use crate::statements::write_stmts;
use crate::types::{int_word, put_number, write_named, write_type};
use cases_script::Page;
use cc_program::num::Name;
use cc_program::{Address, Device, Entry, Func, Leaf, Part, Root};
use cc_unit::{Linkage, TypedUnit, UnitKind, UnitName, UnitStructure};

fn write_name(page: &mut Page, front: &str, name: &Option<Name>) {
    page.put(front);
    match name {
        None => page.put("-"),
        Some(name) => page.bytes(name.all()),
    }
}

fn write_structure(page: &mut Page, structure: &UnitStructure) {
    write_name(page, " ", &structure.tag);
    if structure.alias.is_some() {
        write_name(page, " = ", &structure.alias);
    }
    if let Some(members) = &structure.members {
        page.put(" {");
        write_named(page, members);
        page.put("}");
    }
}

fn linkage_word(linkage: Linkage) -> &'static str {
    match linkage {
        Linkage::External => " external ",
        Linkage::Internal => " internal ",
        Linkage::Local => " local ",
    }
}

fn entry_word(entry: Option<Entry>) -> &'static str {
    match entry {
        None => "",
        Some(Entry::Signal) => " signal",
        Some(Entry::Interrupt) => " interrupt",
        Some(Entry::Listed) => " listed",
    }
}

fn write_root(page: &mut Page, root: Root) {
    match root {
        Root::Static(object) => put_number(page, "&g", object),
        Root::Auto { local, .. } => put_number(page, "&l", local),
    }
}

fn write_part(page: &mut Page, part: Part) {
    match part {
        Part::Member(member) => put_number(page, ".", member),
        Part::Index(index) => {
            put_number(page, "[", index);
            page.put("]");
        }
    }
}

fn write_address(page: &mut Page, address: &Address) {
    match address {
        Address::Null => page.put("null"),
        Address::Func(f) => put_number(page, "g", *f),
        Address::At {
            object,
            path,
            index,
            count,
        } => {
            write_root(page, *object);
            for part in path.all() {
                write_part(page, *part);
            }
            put_number(page, "@", *index);
            put_number(page, "/", *count);
        }
    }
}

fn write_leaves(page: &mut Page, leaves: &[Leaf]) {
    let mut front = " [";
    for leaf in leaves {
        page.put(front);
        match leaf {
            Leaf::Int(n) => page.show(*n),
            Leaf::Place(address) => write_address(page, address),
        }
        front = " ";
    }
    page.put(if leaves.is_empty() { "" } else { "]" });
}

fn write_device(page: &mut Page, device: &Device) {
    page.put(" device ");
    page.show(device.number);
    page.put(" ");
    page.put(int_word(device.int));
    page.put(if device.constant { " const" } else { "" });
}

fn write_func(page: &mut Page, f: &Func) {
    put_number(page, " params ", f.params);
    page.put(" locals (");
    write_named(page, &f.locals);
    page.put(") ");
    write_stmts(page, "[", &f.body);
}

fn write_kind(page: &mut Page, kind: &UnitKind) {
    match kind {
        UnitKind::Object(leaves) => write_leaves(page, leaves.all()),
        UnitKind::Device(device) => write_device(page, device),
        UnitKind::Func(entry, body) => {
            page.put(entry_word(*entry));
            if let Some(f) = body {
                write_func(page, f.get());
            }
        }
    }
}

fn write_first(page: &mut Page, first: Option<u32>) {
    page.put(" first ");
    match first {
        None => page.put("-"),
        Some(at) => page.show(at),
    }
}

fn write_known(page: &mut Page, name: &UnitName) {
    write_name(page, " ", &name.name);
    page.put(linkage_word(name.linkage));
    write_type(page, &name.ctype);
    write_first(page, name.first);
    put_number(page, " count ", name.count);
    write_kind(page, &name.kind);
}

/// Writes a typed unit.
pub fn write_unit(page: &mut Page, unit: &TypedUnit) {
    if unit.structures.all().is_empty() && unit.names.all().is_empty() {
        return page.put("nothing");
    }
    let mut front = "s";
    for (i, structure) in unit.structures.all().iter().enumerate() {
        page.put(front);
        page.show(i);
        write_structure(page, structure);
        front = "; s";
    }
    let mut front = if unit.structures.all().is_empty() {
        "g"
    } else {
        "; g"
    };
    for (i, name) in unit.names.all().iter().enumerate() {
        page.put(front);
        page.show(i);
        write_known(page, name);
        front = "; g";
    }
}
