//! What is told once of a program: of each point what its statement does, and points by what they do.

ghost use Rattle.std.specs.Prelude.{◌≡◌, ◌≤◌, length, IfOk};
ghost use Rattle.cc_rules_asked.specs.CcFlow.Points.{count_of};
ghost use Rattle.cc_rules_made.specs.Rules.{AreOf};
ghost use Rattle.cc_rules_readers.specs.Index.{IsIndexed, IsIndexOf};

use crate::deeds::{Deed, deeds_of};
use crate::groups::{By, Groups, grouped};
use crate::naming::Named;
use crate::picked::{Test, picked};
use cc_program::num::{List, NoMemory};
use cc_rules_made::Rules;
use std::alloc::Global;

/// Of each point what its statement does, and lists of points, all ascending.
#[derive(Drop)]
pub struct Index {
    pub(crate) deeds: List<Deed>,
    /// Those of each function.
    pub(crate) functions: Groups,
    /// Those that call a function by its address, and those that call one through a pointer.
    pub(crate) callers: Groups,
    pub(crate) pointer_calls: List<u32>,
    /// Those that read a static object, a local of a function, a member at a position.
    pub(crate) objects: Groups,
    pub(crate) locals: Groups,
    pub(crate) members: Groups,
    /// All that read without a pointer, and through one.
    pub(crate) named_reads: List<u32>,
    pub(crate) pointer_reads: List<u32>,
}

/// The lists of some points.
fn indexed(alloc: Global, deeds: List<Deed>) -> Result<Index, NoMemory>
    requires { length deeds ≤ 65536 }
    ensures { IfOk result (λ index. (index.deeds ≡ deeds) × IsIndexed index) }
{
    let does = deeds.all();
    let functions = grouped(alloc, does, By::Function)?;
    let callers = grouped(alloc, does, By::Callee)?;
    let objects = grouped(alloc, does, By::Object)?;
    let locals = grouped(alloc, does, By::Local)?;
    let members = grouped(alloc, does, By::Member)?;
    let pointer_calls = picked(alloc, does, Test::CallsThroughPointer)?;
    let named_reads = picked(alloc, does, Test::Reads(Named::EachKey))?;
    let pointer_reads = picked(alloc, does, Test::ReadsThroughPointer)?;
    Ok(Index {
        deeds,
        functions,
        callers,
        pointer_calls: List::of(pointer_calls),
        objects,
        locals,
        members,
        named_reads: List::of(named_reads),
        pointer_reads: List::of(pointer_reads),
    })
}

/// Made once of a program.
pub fn index_of(alloc: Global, rules: &Rules<'_>) -> Result<Index, NoMemory>
    requires rules { AreOf rules.now.program.now rules.now }
    requires few { count_of rules.now.program.now ≤ 65536 }
    ensures { IfOk result (λ index. IsIndexOf rules.now.program.now index) }
{
    let deeds = deeds_of(alloc, rules)?;
    indexed(alloc, List::of(deeds))
}
