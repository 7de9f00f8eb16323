//! How a state of a run is written: `main:0.2(5 bad)*`.
//!
//! That is the function of the running activation, its path, the operands of the present full expression where it has some,
//! and `*` at a boundary. An operand is written as the first values of a program are, an address in a local with its activation
//! in front, as `at:3.0:0:1`. A run that has ended is written by its end.

use cases_script::Page;
use cc_meaning::{Activation, End, Machine};
use cc_program::num::at;
use cc_program::{Address, Part, Program, Root, Value};
use std::alloc::Global;

fn write_root(page: &mut Page, root: Root) {
    match root {
        Root::Static(object) => page.show(object),
        Root::Auto {
            activation,
            local,
            ..
        } => {
            page.show(activation);
            page.put_with(".", local);
        }
    }
}

fn write_parts(page: &mut Page, path: &[Part]) {
    let mut mark = ":";
    for part in path {
        page.put(mark);
        match part {
            Part::Member(m) => page.put_with("m", *m),
            Part::Index(i) => page.put_with("i", *i),
        }
        mark = ",";
    }
}

fn write_address(page: &mut Page, address: &Address) {
    match address {
        Address::Null => page.put("null"),
        Address::Func(func) => page.put_with("func:", *func),
        Address::At {
            object,
            path,
            index,
            count,
        } => {
            page.put("at:");
            write_root(page, *object);
            page.put_with(":", *index);
            page.put_with(":", *count);
            write_parts(page, path.all());
        }
    }
}

fn write_operand(page: &mut Page, operand: &Option<Value>) {
    match operand {
        None => page.put("bad"),
        Some(Value::Int(n)) => page.show(*n),
        Some(Value::Place(address)) => write_address(page, address),
    }
}

fn write_operands(page: &mut Page, operands: &[Option<Value>]) {
    let mut mark = "(";
    for operand in operands {
        page.put(mark);
        write_operand(page, operand);
        mark = " ";
    }
    if !operands.is_empty() {
        page.put(")");
    }
}

fn write_path(page: &mut Page, path: &[u32]) {
    let mut mark = ":";
    for position in path {
        page.put_with(mark, *position);
        mark = ".";
    }
}

/// Writes where an activation stands.
fn write_activation(alloc: Global, page: &mut Page, p: &Program, a: &Activation) -> Option<()> {
    page.bytes(at(p.funcs.all(), a.func as usize)?.name.all());
    write_path(page, &a.path(alloc).ok()?);
    write_operands(page, &a.operands(alloc).ok()?);
    Some(())
}

fn write_end(page: &mut Page, end: End) {
    match end {
        End::Going => page.put("end,going,"),
        End::Exit(v) => page.put_with("end,exit,", v),
        End::Trap => page.put("end,trap,"),
        End::Starved => page.put("end,starved,"),
    }
}

/// Writes the state of a run.
pub fn write_state(alloc: Global, page: &mut Page, m: &Machine) -> Option<()> {
    if m.end() == End::Going {
        write_activation(alloc, page, m.program, m.stack.last()?)?;
    } else {
        write_end(page, m.end());
    }
    if m.at_boundary() {
        page.put("*");
    }
    Some(())
}
