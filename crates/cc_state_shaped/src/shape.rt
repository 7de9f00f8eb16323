//! Whether facts have the shape of a program's.

ghost use Rattle.std.specs.Prelude.{◌≡◌, ◌↔◌, IsTrue, IfOk, length};
ghost use Rattle.cc_state_reads.specs.CcFlow.Points.{flow_of};
ghost use Rattle.cc_state.specs.Shape.{HaveShape};
ghost use Rattle.cc_state_reads.specs.CcStateKeys.Keys.{keys_of};
ghost use Rattle.cc_state_reads.specs.CcStateOperators.Domains.{domain};
ghost use Rattle.cc_state_shaped.specs.Layout.{IsLayoutOf};
ghost use Rattle.cc_state_shaped.specs.Parts.{HaveKeySets, HaveResultSets, HavePoints, AreByFunction, AreByKey, HaveMarks};
ghost use Rattle.cc_state_reads.specs.CcSyntax.Normal.{IsNormal};

use crate::keys::are_same;
use crate::layout::{Layout, layout_of};
use crate::lists::{are_key_sets, are_result_sets};
use crate::marks::{are_by_function, are_by_key, have_marks};
use crate::points::are_known;
use cc_program::Program;
use cc_program::num::NoMemory;
use cc_state_reads::flow::Flow;
use cc_state_reads::lattice::IntDomain;
use cc_state_reads::state_facts::Facts;
use std::alloc::Global;

/// Whether there is a set for each key, of what its cells hold.
fn have_key_sets<I: IntDomain>(layout: &Layout<'_>, facts: &Facts<I>) -> bool
    requires { IsLayoutOf layout.now.program.now layout.now }
    ensures { IsTrue result ↔ HaveKeySets (domain I.Has I.IsBelow I.OpGives I.OpOneGives I.ToGives I.KeepGives I.members_of) layout.now.program.now facts.now }
{
    let sets = facts.whole.all();
    sets.len() == layout.keys.all().len() && are_key_sets(layout, sets)
}

/// Whether there is a set for each function, of what it gives.
fn have_result_sets<I: IntDomain>(layout: &Layout<'_>, facts: &Facts<I>) -> bool
    requires { IsLayoutOf layout.now.program.now layout.now }
    ensures { IsTrue result ↔ HaveResultSets (domain I.Has I.IsBelow I.OpGives I.OpOneGives I.ToGives I.KeepGives I.members_of) layout.now.program.now facts.now }
{
    let sets = facts.results.all();
    sets.len() == layout.program.funcs.all().len() && are_result_sets(layout, sets)
}

/// Whether there is a place for each point, and what is known there is of the shape of its function.
fn have_points<I: IntDomain>(layout: &Layout<'_>, facts: &Facts<I>) -> bool
    requires { IsLayoutOf layout.now.program.now layout.now }
    ensures { IsTrue result ↔ HavePoints (domain I.Has I.IsBelow I.OpGives I.OpOneGives I.ToGives I.KeepGives I.members_of) layout.now.program.now facts.now }
{
    let known = facts.at.all();
    known.len() == layout.flow.points.all().len() && are_known(layout, known)
}

/// Whether facts have as many marks and sets of levels as there are functions and keys, and levels only where marks are set.
fn have_levels<I>(layout: &Layout<'_>, facts: &Facts<I>) -> bool
    ensures { IsTrue result ↔ (AreByFunction facts.now (length layout.now.program.now.funcs) × AreByKey facts.now (length layout.now.keys) × HaveMarks facts.now) }
{
    are_by_function(facts, layout.program.funcs.all().len())
        && are_by_key(facts, layout.keys.all().len())
        && have_marks(facts)
}

/// Whether facts have the keys, as many marks and sets of levels as there have to be, and levels only where marks are set.
fn have_keys<I>(layout: &Layout<'_>, facts: &Facts<I>) -> bool
    ensures { IsTrue result ↔ ((facts.now.keys ≡ layout.now.keys) × (AreByFunction facts.now (length layout.now.program.now.funcs) × AreByKey facts.now (length layout.now.keys) × HaveMarks facts.now)) }
{
    are_same(facts.keys.all(), layout.keys.all()) && have_levels(layout, facts)
}

/// Whether there is a set for each key and for each function.
fn have_sets<I: IntDomain>(layout: &Layout<'_>, facts: &Facts<I>) -> bool
    requires { IsLayoutOf layout.now.program.now layout.now }
    ensures { IsTrue result ↔ (HaveKeySets (domain I.Has I.IsBelow I.OpGives I.OpOneGives I.ToGives I.KeepGives I.members_of) layout.now.program.now facts.now × HaveResultSets (domain I.Has I.IsBelow I.OpGives I.OpOneGives I.ToGives I.KeepGives I.members_of) layout.now.program.now facts.now) }
{
    have_key_sets(layout, facts) && have_result_sets(layout, facts)
}

/// Whether the sets of facts, and what is known at points, are of the shape.
fn have_values<I: IntDomain>(layout: &Layout<'_>, facts: &Facts<I>) -> bool
    requires { IsLayoutOf layout.now.program.now layout.now }
    ensures { IsTrue result ↔ ((HaveKeySets (domain I.Has I.IsBelow I.OpGives I.OpOneGives I.ToGives I.KeepGives I.members_of) layout.now.program.now facts.now × HaveResultSets (domain I.Has I.IsBelow I.OpGives I.OpOneGives I.ToGives I.KeepGives I.members_of) layout.now.program.now facts.now) ×
        HavePoints (domain I.Has I.IsBelow I.OpGives I.OpOneGives I.ToGives I.KeepGives I.members_of) layout.now.program.now facts.now) }
{
    have_sets(layout, facts) && have_points(layout, facts)
}

/// Whether facts have each part of the shape.
fn have_parts<I: IntDomain>(layout: &Layout<'_>, facts: &Facts<I>) -> bool
    requires { IsLayoutOf layout.now.program.now layout.now }
    ensures { IsTrue result ↔ (((facts.now.keys ≡ layout.now.keys) × (AreByFunction facts.now (length layout.now.program.now.funcs) × AreByKey facts.now (length layout.now.keys) × HaveMarks facts.now)) ×
        ((HaveKeySets (domain I.Has I.IsBelow I.OpGives I.OpOneGives I.ToGives I.KeepGives I.members_of) layout.now.program.now facts.now × HaveResultSets (domain I.Has I.IsBelow I.OpGives I.OpOneGives I.ToGives I.KeepGives I.members_of) layout.now.program.now facts.now) × HavePoints (domain I.Has I.IsBelow I.OpGives I.OpOneGives I.ToGives I.KeepGives I.members_of) layout.now.program.now facts.now)) }
{
    have_keys(layout, facts) && have_values(layout, facts)
}

/// Whether facts have the shape that a layout tells.
fn have_shape<I: IntDomain>(layout: &Layout<'_>, facts: &Facts<I>) -> bool
    requires { IsLayoutOf layout.now.program.now layout.now }
    ensures { IsTrue result ↔ HaveShape (domain I.Has I.IsBelow I.OpGives I.OpOneGives I.ToGives I.KeepGives I.members_of) layout.now.program.now facts.now }
{
    have_parts(layout, facts)
}

/// Whether facts have the shape of a program's, of which these are the points: its keys, and of each key, function, register, tracked
/// cell and point what belongs to it. The only error is want of memory.
pub fn has_shape<I: IntDomain>(
    alloc: Global,
    p: &Program,
    flow: &Flow,
    facts: &Facts<I>,
) -> Result<bool, NoMemory>
    requires normal { IsNormal p.now }
    requires flow { flow.now ≡ flow_of p.now }
    ensures { IfOk result (λ yes. IsTrue yes ↔ HaveShape (domain I.Has I.IsBelow I.OpGives I.OpOneGives I.ToGives I.KeepGives I.members_of) p.now facts.now) }
{
    let layout = layout_of(alloc, p, flow)?;
    Ok(have_shape(&layout, facts))
}
