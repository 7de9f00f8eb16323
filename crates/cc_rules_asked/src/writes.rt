//! What a write asks: that the sets of the keys that its place names have, in the whole run, what is written.

ghost use Rattle.std.specs.Prelude.{◌≡◌, ◌<◌, ◌^◌, map, length, option_map, IfOk, Some};
ghost use Rattle.cc_rules.specs.Constraints.{Write as WriteRule};
ghost use Rattle.cc_rules_asked.specs.Asks.{AsksHere, ArePureHere, written as written_of};
ghost use Rattle.cc_rules.specs.CcRulesFlows.Here.{IsHere};
ghost use Rattle.cc_rules.specs.CcRulesFlows.View.{act_view};
ghost use Rattle.cc_rules.specs.CcRulesFlows.Acts.{Writes};
ghost use Rattle.cc_rules.specs.CcStateOperators.Domains.{domain};
ghost use Rattle.cc_rules.specs.CcStateValues.Contexts.{IsPureIn, IsPurePlaceIn};

use crate::asked::Asked;
use crate::keys::keys_here;
use crate::sets::copied_set;
use cc_program::num::NoMemory;
use cc_program::{Expr, Place};
use cc_rules::lattice::IntDomain;
use cc_rules::places::Abs;
use cc_rules::rules_flows::{Act, Here};
use cc_rules::rules_needs::{Part, Slot};
use cc_rules::state_values::value_of;
use std::alloc::Global;

/// A write.
#[derive(Clone, Copy)]
struct Write<'p> {
    place: &'p Place,
    value: &'p Expr,
}

/// What is written, and where.
fn written(act: Act<'_>) -> Option<Write<'_>>
    ensures { option_map (λ w. (w.place.now, w.value.now)) result ≡ written_of (act_view act.entry) }
{
    match act {
        Act::Writes(place, value) => Some(Write { place, value }),
        _ => None,
    }
}

/// Asks for values in the whole-run set of each of some keys.
fn asked_of_keys<I: IntDomain>(
    alloc: Global,
    keys: &[u32],
    set: &Abs<I>,
) -> Result<Vec<Asked<I>>, NoMemory>
    ensures { IfOk result (λ asked. asked.items ≡ map (λ k. Asked.Part (Slot.Whole k) (Part.Values (Some set.now))) keys.now) }
{
    let mut asked = Vec::new(alloc);
    for key in keys {
        let set = copied_set(alloc, set)?;
        asked.push(Asked::Part(Slot::Whole(*key), Part::Values(Some(set))))?;
    }
    Ok(asked)
}

/// What a write asks.
fn asked_of_write<I: IntDomain>(
    alloc: Global,
    here: &Here<'_, I>,
    write: Write<'_>,
) -> Result<Vec<Asked<I>>, NoMemory>
    requires here { IsHere (domain I.Has I.IsBelow I.OpGives I.OpOneGives I.ToGives I.KeepGives I.members_of) here.now }
    requires place { IsPurePlaceIn (domain I.Has I.IsBelow I.OpGives I.OpOneGives I.ToGives I.KeepGives I.members_of) here.now.context write.place.now }
    requires value { IsPureIn (domain I.Has I.IsBelow I.OpGives I.OpOneGives I.ToGives I.KeepGives I.members_of) here.now.context write.value.now }
    requires few { length here.now.facts.now.keys < 2 ^ 32 }
    ensures { IfOk result (λ asked. AsksHere (domain I.Has I.IsBelow I.OpGives I.OpOneGives I.ToGives I.KeepGives I.members_of) here.now WriteRule (Writes write.entry.place.now write.entry.value.now) asked.items) }
{
    let set = value_of(alloc, &here.context, write.value)?;
    let keys = keys_here(alloc, here, write.place)?;
    asked_of_keys(alloc, &keys, &set)
}

/// What is asked by the rule of writes.
pub fn asked_by_write<I: IntDomain>(
    alloc: Global,
    here: &Here<'_, I>,
    act: Act<'_>,
) -> Result<Vec<Asked<I>>, NoMemory>
    requires here { IsHere (domain I.Has I.IsBelow I.OpGives I.OpOneGives I.ToGives I.KeepGives I.members_of) here.now }
    requires pure { ArePureHere (domain I.Has I.IsBelow I.OpGives I.OpOneGives I.ToGives I.KeepGives I.members_of) here.now (act_view act) }
    requires few { length here.now.facts.now.keys < 2 ^ 32 }
    ensures { IfOk result (λ asked. AsksHere (domain I.Has I.IsBelow I.OpGives I.OpOneGives I.ToGives I.KeepGives I.members_of) here.now WriteRule (act_view act.entry) asked.items) }
{
    match written(act) {
        None => Ok(Vec::new(alloc)),
        Some(write) => asked_of_write(alloc, here, write),
    }
}
