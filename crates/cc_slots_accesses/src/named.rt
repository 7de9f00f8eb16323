//! The keys that the place of an access names.

ghost use Rattle.std.specs.Prelude.{◌≡◌, true, IfOk};
ghost use Rattle.cc_slots_accesses.specs.Named.{AreKeysIn};
ghost use Rattle.cc_state_keys.specs.Keys.{keys_of};
ghost use Rattle.cc_rules_flows.specs.CcStateOperators.Domains.{domain};
ghost use Rattle.cc_rules_flows.specs.CcStateValues.Contexts.{HaveSetsIn, IsPurePlaceIn};
ghost use Rattle.cc_rules_flows.specs.CcSyntax.Sizes.{AreSized};

use crate::places::own_key;
use cc_program::Place;
use cc_program::num::NoMemory;
use cc_rules_flows::lattice::IntDomain;
use cc_rules_flows::state_facts::Key;
use cc_rules_flows::state_reads::keys_named;
use cc_rules_flows::state_values::Context;
use std::alloc::Global;

/// The keys that the place of an access names: that of its form, or, where a run may come there, those of the cells to which a
/// pointer may lead.
pub(crate) fn keys_at<I: IntDomain>(
    alloc: Global,
    c: &Context<'_, I>,
    keys: &[Key],
    is_reached: bool,
    a: &Place,
) -> Result<Vec<Key>, NoMemory>
    requires sized { AreSized c.now.program.now.structures c.now.program.now.target }
    requires sets { is_reached ≡ true → HaveSetsIn (domain I.Has I.IsBelow I.OpGives I.OpOneGives I.ToGives I.KeepGives I.members_of) c.now }
    requires pure { IsPurePlaceIn (domain I.Has I.IsBelow I.OpGives I.OpOneGives I.ToGives I.KeepGives I.members_of) c.now a.now }
    requires keys { keys.now ≡ keys_of c.now.program.now }
    ensures { IfOk result (λ found. AreKeysIn (domain I.Has I.IsBelow I.OpGives I.OpOneGives I.ToGives I.KeepGives I.members_of) c.now is_reached a.now found.items) }
{
    let mut found = Vec::new(alloc);
    match own_key(c, a) {
        Some(key) => {
            found.push(key)?;
            Ok(found)
        }
        None => {
            if is_reached {
                Ok(keys_named(alloc, c, keys, a)?.into_vec())
            } else {
                Ok(found)
            }
        }
    }
}
