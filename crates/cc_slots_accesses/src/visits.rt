//! An access, put behind those of the keys that it names, with what is known of it.

ghost use Rattle.std.specs.Prelude.{◌≡◌, true, length, is_some, OnOk};
ghost use Rattle.std.specs.Option.{option_copied};
ghost use Rattle.cc_slots_accesses.specs.Visits.{IsVisit};
ghost use Rattle.cc_state_keys.specs.Keys.{keys_of};
ghost use Rattle.cc_rules_flows.specs.CcStateOperators.Domains.{domain};
ghost use Rattle.cc_rules_flows.specs.CcStateValues.Contexts.{HaveSetsIn, IsPurePlaceIn};
ghost use Rattle.cc_rules_flows.specs.CcSyntax.Sizes.{AreSized};

use crate::access::Access;
use crate::known::{access_to, is_reached};
use crate::named::keys_at;
use crate::puts::put_all;
use cc_program::Place;
use cc_program::num::{List, NoMemory};
use cc_rules_flows::lattice::IntDomain;
use cc_rules_flows::state_facts::{Facts, PointFact};
use cc_rules_flows::state_values::Context;
use std::alloc::Global;

/// Puts an access to a place behind those of each key that the place names there; a list for each key of the program. Asked for: sets
/// of the registers of the point's function, where a run may come to the point.
pub fn visit<I: IntDomain>(
    alloc: Global,
    c: &Context<'_, I>,
    facts: &Facts<I>,
    fact: Option<&PointFact<I>>,
    point: u32,
    writes: bool,
    a: &Place,
    lists: &mut [List<Access>],
) -> Result<(), NoMemory>
    requires sized { AreSized c.now.program.now.structures c.now.program.now.target }
    requires sets { is_some (option_copied fact) ≡ true → HaveSetsIn (domain I.Has I.IsBelow I.OpGives I.OpOneGives I.ToGives I.KeepGives I.members_of) c.now }
    requires pure { IsPurePlaceIn (domain I.Has I.IsBelow I.OpGives I.OpOneGives I.ToGives I.KeepGives I.members_of) c.now a.now }
    requires keys { facts.now.keys ≡ keys_of c.now.program.now }
    requires lists { length lists.old ≡ length facts.now.keys }
    ensures { OnOk result (IsVisit (domain I.Has I.IsBelow I.OpGives I.OpOneGives I.ToGives I.KeepGives I.members_of) c.now facts.now (option_copied fact.entry) point writes a.now lists.old lists.new) }
{
    let access = access_to(alloc, c, facts, fact, point, writes, a)?;
    let named = keys_at(alloc, c, facts.keys.all(), is_reached(fact), a)?;
    put_all(alloc, c.program, facts.keys.all(), lists, &named, access)?;
    Ok(())
}
