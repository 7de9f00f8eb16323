//! What an access asks of a function that a handler reaches: that the keys which its place names are marked, with the levels of the
//! handlers from which the function is reached.

ghost use Rattle.std.specs.Prelude.{◌≡◌, ◌<◌, ◌^◌, ◌++◌, map, length, option_map, IfOk, OnOk, Some, true, if◌then◌else◌, []};
ghost use Rattle.cc_rules.specs.Constraints.{Touch};
ghost use Rattle.cc_rules_asked.specs.Asks.{AsksHere, ArePureHere, touched as touched_of, mark_slot as mark_slot_of, level_slot as level_slot_of, list_touched};
ghost use Rattle.cc_rules.specs.CcRulesFlows.Here.{IsHere};
ghost use Rattle.cc_rules.specs.CcRulesFlows.View.{act_view};
ghost use Rattle.cc_rules.specs.CcRulesFlows.Acts.{Act as ActOf};
ghost use Rattle.cc_rules.specs.CcStateOperators.Domains.{domain};
ghost use Rattle.cc_rules.specs.CcStateValues.Contexts.{IsPurePlaceIn};

use crate::asked::Asked;
use crate::keys::keys_here;
use crate::marks::{levels, mark};
use cc_program::Place;
use cc_program::num::NoMemory;
use cc_rules::lattice::IntDomain;
use cc_rules::rules_flows::{Act, Here};
use cc_rules::rules_needs::{Part, Slot};
use std::alloc::Global;

/// A read or a write.
#[derive(Clone, Copy)]
struct Access<'p> {
    writes: bool,
    place: &'p Place,
}

/// The access that a statement is.
fn touched(act: Act<'_>) -> Option<Access<'_>>
    ensures { option_map (λ t. (t.writes, t.place.now)) result ≡ touched_of (act_view act.entry) }
{
    match act {
        Act::Reads(_, place) => Some(Access {
            writes: false,
            place,
        }),
        Act::Writes(place, _) => Some(Access {
            writes: true,
            place,
        }),
        _ => None,
    }
}

/// Where it is marked that the code of a handler may read a key, or write it.
fn mark_slot(writes: bool, key: u32) -> Slot
    ensures { result ≡ mark_slot_of writes key }
{
    if writes {
        Slot::HandlerWrites(key)
    } else {
        Slot::HandlerReads(key)
    }
}

/// Where the levels of such handlers stand.
fn level_slot(writes: bool, key: u32) -> Slot
    ensures { result ≡ level_slot_of writes key }
{
    if writes {
        Slot::WriteLevels(key)
    } else {
        Slot::ReadLevels(key)
    }
}

fn put_marks<I: IntDomain>(
    asked: &mut Vec<Asked<I>>,
    writes: bool,
    keys: &[u32],
) -> Result<(), NoMemory>
    ensures { OnOk result (asked.new.items ≡ asked.old.items ++ map (λ k. Asked.Part (mark_slot_of writes k) (Part.Mark true)) keys.now) }
{
    for key in keys {
        asked.push(Asked::Part(mark_slot(writes, *key), Part::Mark(true)))?;
    }
    Ok(())
}

fn put_levels<I: IntDomain>(
    asked: &mut Vec<Asked<I>>,
    writes: bool,
    keys: &[u32],
    levels: u8,
) -> Result<(), NoMemory>
    ensures { OnOk result (asked.new.items ≡ asked.old.items ++ map (λ k. Asked.Part (level_slot_of writes k) (Part.LevelSet levels)) keys.now) }
{
    for key in keys {
        asked.push(Asked::Part(level_slot(writes, *key), Part::LevelSet(levels)))?;
    }
    Ok(())
}

/// The marks of some keys, and their levels.
fn asked_of_keys<I: IntDomain>(
    alloc: Global,
    writes: bool,
    keys: &[u32],
    levels: u8,
) -> Result<Vec<Asked<I>>, NoMemory>
    ensures { IfOk result (λ asked. asked.items ≡ list_touched writes keys.now levels) }
{
    let mut asked = Vec::new(alloc);
    put_marks(&mut asked, writes, keys)?;
    put_levels(&mut asked, writes, keys, levels)?;
    Ok(asked)
}

/// The same where the function is marked.
fn asked_if<I: IntDomain>(
    alloc: Global,
    is_marked: bool,
    writes: bool,
    keys: &[u32],
    levels: u8,
) -> Result<Vec<Asked<I>>, NoMemory>
    ensures { IfOk result (λ asked. asked.items ≡ (if is_marked then list_touched writes keys.now levels else [])) }
{
    if is_marked {
        asked_of_keys(alloc, writes, keys, levels)
    } else {
        Ok(Vec::new(alloc))
    }
}

/// What an access asks.
fn asked_of_access<I: IntDomain>(
    alloc: Global,
    here: &Here<'_, I>,
    access: Access<'_>,
) -> Result<Vec<Asked<I>>, NoMemory>
    requires here { IsHere (domain I.Has I.IsBelow I.OpGives I.OpOneGives I.ToGives I.KeepGives I.members_of) here.now }
    requires pure { IsPurePlaceIn (domain I.Has I.IsBelow I.OpGives I.OpOneGives I.ToGives I.KeepGives I.members_of) here.now.context access.place.now }
    requires few { length here.now.facts.now.keys < 2 ^ 32 }
    ensures { IfOk result (λ asked. (act : ActOf) → touched_of act ≡ Some (access.entry.writes, access.entry.place.now) → AsksHere (domain I.Has I.IsBelow I.OpGives I.OpOneGives I.ToGives I.KeepGives I.members_of) here.now Touch act asked.items) }
{
    let keys = keys_here(alloc, here, access.place)?;
    let marks = here.facts.by_handler.all();
    let sets = here.facts.from.all();
    let is_marked = mark(marks, here.context.id as usize);
    let from = levels(sets, here.context.id as usize);
    asked_if(alloc, is_marked, access.writes, &keys, from)
}

/// What is asked by the rule of accesses.
pub fn asked_by_touch<I: IntDomain>(
    alloc: Global,
    here: &Here<'_, I>,
    act: Act<'_>,
) -> Result<Vec<Asked<I>>, NoMemory>
    requires here { IsHere (domain I.Has I.IsBelow I.OpGives I.OpOneGives I.ToGives I.KeepGives I.members_of) here.now }
    requires pure { ArePureHere (domain I.Has I.IsBelow I.OpGives I.OpOneGives I.ToGives I.KeepGives I.members_of) here.now (act_view act) }
    requires few { length here.now.facts.now.keys < 2 ^ 32 }
    ensures { IfOk result (λ asked. AsksHere (domain I.Has I.IsBelow I.OpGives I.OpOneGives I.ToGives I.KeepGives I.members_of) here.now Touch (act_view act.entry) asked.items) }
{
    match touched(act) {
        None => Ok(Vec::new(alloc)),
        Some(access) => asked_of_access(alloc, here, access),
    }
}
