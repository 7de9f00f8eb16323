//! The names of registers and of tracked cells.

ghost use Rattle.std.specs.Prelude.{◌≡◌, ◌++◌, OnOk};
ghost use Rattle.cc_rules_texts.specs.Names.{AreNames};
ghost use Rattle.cc_rules_texts.specs.Texts.{pair_text, register_in, register_text, tracked_text};
ghost use Rattle.cc_rules_asked.specs.CcStateKeys.Tracked.{registers as registers_of};
ghost use Rattle.cc_state_texts.specs.Texts.{name_of, object_at};

use cc_program::num::{NoMemory, at};
use cc_program::{Func, Program};
use cc_rules_asked::flow::Flow;
use cc_rules_asked::state_keys::registers;
use cc_state_texts::put;
use std::alloc::Global;

/// By what registers and tracked cells are named: the program, its points, and its tracked cells.
#[derive(Clone, Copy)]
pub struct Names<'p> {
    pub program: &'p Program,
    pub flow: &'p Flow,
    pub tracked: &'p [u32],
}

/// The name of a register of a function, by its position among these.
fn register_name<'p>(f: &'p Func, registers: &[u32], register: u32) -> &'p [u8]
    requires { registers.now ≡ registers_of f.now }
    ensures { result.now ≡ name_of (register_in register f.now) }
{
    match at(registers, register as usize) {
        None => &[],
        Some(local) => match at(f.locals.all(), *local as usize) {
            None => &[],
            Some(named) => named.0.all(),
        },
    }
}

/// Appends the name of a register of a point's function.
fn put_register(
    alloc: Global,
    text: &mut Vec<u8>,
    names: &Names<'_>,
    point: u32,
    register: u32,
) -> Result<(), NoMemory>
    requires { AreNames names.now }
    ensures { OnOk result (text.new.items ≡ text.old.items ++ register_text names.now.program.now point register) }
{
    let Some(at_point) = at(names.flow.points.all(), point as usize) else {
        return Ok(());
    };
    let Some(f) = at(names.program.funcs.all(), at_point.func as usize) else {
        return Ok(());
    };
    let registers = registers(alloc, f)?;
    put(text, register_name(f, &registers, register))
}

fn object_name(p: &Program, object: u32) -> &[u8]
    ensures { result.now ≡ name_of (object_at p.now object) }
{
    match at(p.objects.all(), object as usize) {
        Some(o) => o.name.all(),
        None => &[],
    }
}

/// Appends the name of a tracked cell.
fn put_tracked(text: &mut Vec<u8>, names: &Names<'_>, cell: u32) -> Result<(), NoMemory>
    requires { AreNames names.now }
    ensures { OnOk result (text.new.items ≡ text.old.items ++ tracked_text names.now.program.now cell) }
{
    match at(names.tracked, cell as usize) {
        None => Ok(()),
        Some(object) => put(text, object_name(names.program, *object)),
    }
}

/// Appends the names of a register of a point's function and of a tracked cell.
pub(crate) fn put_pair(
    alloc: Global,
    text: &mut Vec<u8>,
    names: &Names<'_>,
    point: u32,
    register: u32,
    cell: u32,
) -> Result<(), NoMemory>
    requires { AreNames names.now }
    ensures { OnOk result (text.new.items ≡ text.old.items ++ pair_text names.now.program.now point register cell) }
{
    put_register(alloc, text, names, point, register)?;
    put(text, b" ")?;
    put_tracked(text, names, cell)
}
