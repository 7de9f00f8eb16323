//! What the shape of a program's facts is judged by, worked out once.

ghost use Rattle.std.specs.Prelude.{◌≡◌, ◌<◌, ◌^◌, length, map, All, IfOk, IfSome};
ghost use Rattle.cc_state_reads.specs.CcFlow.Points.{flow_of};
ghost use Rattle.cc_state_reads.specs.CcStateKeys.Tracked.{registers as registers_in};
ghost use Rattle.cc_state_shaped.specs.Layout.{IsLayoutOf};
ghost use Rattle.cc_state_shaped.specs.Names.{may_name as may_name_of};
ghost use Rattle.cc_state_reads.specs.CcSyntax.Sound.{IsTypedProgram};

use crate::keys::{may_name, named_keys};
use cc_program::num::{List, NoMemory, at};
use cc_program::{Func, Program};
use cc_state_reads::flow::Flow;
use cc_state_reads::state_facts::Key;
use cc_state_reads::state_keys::{key_number, keys, registers, taken_keys, tracked};
use std::alloc::Global;

/// A program with what the shape of its facts is judged by.
#[derive(Drop)]
pub(crate) struct Layout<'p> {
    pub program: &'p Program,
    /// Its points.
    pub flow: &'p Flow,
    /// Its keys.
    pub keys: List<Key>,
    /// Those whose addresses the text takes.
    pub taken: List<Key>,
    /// Of each key, whether an address in a set may name a cell of it.
    pub names: List<bool>,
    /// Its tracked cells.
    pub tracked: List<u32>,
    /// Of each function the registers.
    pub registers: List<List<u32>>,
}

/// The registers of each function.
fn all_registers(alloc: Global, funcs: &[Func]) -> Result<Vec<List<u32>>, NoMemory>
    requires { All (λ f. length f.locals < 2 ^ 32) funcs.now }
    ensures { IfOk result (λ lists. lists.items ≡ map registers_in funcs.now) }
{
    let mut lists = Vec::new(alloc);
    for func in funcs {
        lists.push(List::of(registers(alloc, func)?))?;
    }
    Ok(lists)
}

/// The layout of a program, of which these are the points. The only error is want of memory.
pub(crate) fn layout_of<'p>(
    alloc: Global,
    p: &'p Program,
    flow: &'p Flow,
) -> Result<Layout<'p>, NoMemory>
    requires typed { IsTypedProgram p.now }
    requires flow { flow.now ≡ flow_of p.now }
    ensures { IfOk result (λ layout. IsLayoutOf p.now layout) }
{
    let registers = all_registers(alloc, p.funcs.all())?;
    let tracked = tracked(alloc, p)?;
    let taken = taken_keys(alloc, p)?;
    let keys = keys(alloc, p)?;
    let names = named_keys(alloc, p, &keys, &taken)?;
    Ok(Layout {
        program: p,
        flow,
        keys: List::of(keys),
        taken: List::of(taken),
        names: List::of(names),
        tracked: List::of(tracked),
        registers: List::of(registers),
    })
}

impl Layout<'_> {
    /// Whether an address may name a cell of a key of the program.
    fn may_name_listed(&self, key: Key) -> Option<&bool>
        requires { IsLayoutOf self.now.program.now self.now }
        ensures { IfSome result (λ may. may.now ≡ may_name_of self.now.program.now key) }
    {
        let number = key_number(self.keys.all(), key)?;
        at(self.names.all(), number)
    }

    /// Whether an address may name a cell of a key.
    pub(crate) fn may_name(&self, key: Key) -> bool
        requires { IsLayoutOf self.now.program.now self.now }
        ensures { result ≡ may_name_of self.now.program.now key }
    {
        match self.may_name_listed(key) {
            None => may_name(self.program, self.taken.all(), key),
            Some(may) => *may,
        }
    }
}
