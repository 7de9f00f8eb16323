//! The numbers of the keys that a place may name.

ghost use Rattle.std.specs.Prelude.{◌≡◌, ◌<◌, ◌^◌, All, length, IfOk, is_some, true};
ghost use Rattle.cc_rules_asked.specs.Asks.{AreNumbered, AreKeysHere};
ghost use Rattle.cc_rules.specs.CcRulesFlows.Here.{IsHere};
ghost use Rattle.cc_rules.specs.CcStateKeys.Keys.{keys_of, key_number as key_number_of};
ghost use Rattle.cc_rules.specs.CcStateOperators.Domains.{domain};
ghost use Rattle.cc_rules.specs.CcStateValues.Contexts.{IsPurePlaceIn};

use cc_program::num::NoMemory;
use cc_program::{Place, Program};
use cc_rules::lattice::IntDomain;
use cc_rules::rules_flows::Here;
use cc_rules::state_facts::Key;
use cc_rules::state_keys::key_number;
use cc_rules::state_reads::keys_named;
use std::alloc::Global;

/// The number of a key of a program.
fn number_of(p: &Program, keys: &[Key], key: Key) -> u32
    requires keys { keys.now ≡ keys_of p.now }
    requires few { length keys.now < 2 ^ 32 }
    requires there { is_some (key_number_of p.now key) ≡ true }
    ensures { key_number_of p.now key ≡ Some result }
{
    match key_number(keys, key) {
        None => unreachable!(),
        Some(number) => number as u32,
    }
}

/// The numbers of some keys of a program.
fn numbers_of(alloc: Global, p: &Program, keys: &[Key], named: &[Key]) -> Result<Vec<u32>, NoMemory>
    requires keys { keys.now ≡ keys_of p.now }
    requires few { length keys.now < 2 ^ 32 }
    requires there { All (λ k. is_some (key_number_of p.now k) ≡ true) named.now }
    ensures { IfOk result (λ numbers. AreNumbered p.now named.now numbers.items) }
{
    let mut numbers = Vec::new(alloc);
    for key in named {
        numbers.push(number_of(p, keys, *key))?;
    }
    Ok(numbers)
}

/// The numbers of the keys that a place names at a point.
pub(crate) fn keys_here<I: IntDomain>(
    alloc: Global,
    here: &Here<'_, I>,
    a: &Place,
) -> Result<Vec<u32>, NoMemory>
    requires here { IsHere (domain I.Has I.IsBelow I.OpGives I.OpOneGives I.ToGives I.KeepGives I.members_of) here.now }
    requires pure { IsPurePlaceIn (domain I.Has I.IsBelow I.OpGives I.OpOneGives I.ToGives I.KeepGives I.members_of) here.now.context a.now }
    requires few { length here.now.facts.now.keys < 2 ^ 32 }
    ensures { IfOk result (λ numbers. AreKeysHere (domain I.Has I.IsBelow I.OpGives I.OpOneGives I.ToGives I.KeepGives I.members_of) here.now a.now numbers.items) }
{
    let keys = here.facts.keys.all();
    let named = keys_named(alloc, &here.context, keys, a)?;
    numbers_of(alloc, here.context.program, keys, named.all())
}
