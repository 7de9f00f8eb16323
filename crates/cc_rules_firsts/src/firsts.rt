//! What keys are asked to have in the whole run: the first values of their cells.

ghost use Rattle.std.specs.Prelude.{◌≡◌, ◌<◌, ◌≤◌, ◌^◌, length, slice_get, Some, IfOk, OnOk};
ghost use Rattle.std.specs.Option.{option_copied};
ghost use Rattle.cc_rules_asked.specs.CcPlaces.declared.abs.Abs.{Abs as AbsOf};
ghost use Rattle.cc_rules_asked.specs.CcRules.Rules.{AreFirstSets};
ghost use Rattle.cc_rules_asked.specs.Asked.{all_needs};
ghost use Rattle.cc_rules_firsts.specs.Firsts.{FitsIn, IsPutAt, AreNoneOf, MayGetAll, AreWith, AreLeastOf, asked_of_sets as asked_of_sets_of, IsOwn, IsAmong, IsFirstIn};
ghost use Rattle.cc_rules_layout.specs.Raisable.{AreRaisable};
ghost use Rattle.cc_rules_grow.specs.CcState.Shape.{HaveShape};
ghost use Rattle.cc_rules_asked.specs.CcStateFacts.declared.facts.Facts.{Facts as FactsOf};
ghost use Rattle.cc_rules_asked.specs.CcStateKeys.Keys.{keys_of};
ghost use Rattle.cc_rules_asked.specs.CcStateOperators.Domains.{domain};
ghost use Rattle.cc_rules_asked.specs.CcSyntax.Sound.{IsTypedProgram};

use crate::initial::all_first_values;
use crate::sets::{none_of, with_value};
use cc_program::num::{List, NoMemory, at};
use cc_program::{Program, Value};
use cc_rules_asked::Asked;
use cc_rules_asked::lattice::IntDomain;
use cc_rules_asked::places::Abs;
use cc_rules_asked::rules_needs::{Part, Slot};
use cc_rules_asked::state_facts::{Facts, Key};
use cc_rules_asked::state_keys::key_number;
use cc_state_scalars::static_keys;
use std::alloc::Global;

/// Puts a value into one of some sets.
fn put_at<I: IntDomain>(
    alloc: Global,
    sets: &mut [Abs<I>],
    number: usize,
    value: &Value,
) -> Result<(), NoMemory>
    requires there { number < length sets.old }
    requires fits { (x : AbsOf I) → slice_get sets.old number ≡ Some x → FitsIn x value.now }
    ensures { OnOk result (IsPutAt I.Has I.IsBelow number value.now sets.old sets.new) }
{
    let both = with_value(alloc, &sets[number], value)?;
    sets[number] = both;
    Ok(())
}

/// Puts a value into the set of a key, where the program has that; a set for each key of the program.
fn put_value<I: IntDomain>(
    alloc: Global,
    p: &Program,
    all: &[Key],
    sets: &mut [Abs<I>],
    own: Key,
    value: &Value,
) -> Result<(), NoMemory>
    requires keys { all.now ≡ keys_of p.now }
    requires sets { length sets.old ≡ length all.now }
    requires fits { MayGetAll all.now (IsOwn own (Some value.now)) sets.old }
    ensures { OnOk result (AreWith all.now I.Has I.IsBelow (IsOwn own (Some value.now)) sets.old sets.new) }
{
    match key_number(all, own) {
        None => Ok(()),
        Some(number) => put_at(alloc, sets, number, value),
    }
}

/// Puts the value of a scalar, where it has one.
fn put_scalar<I: IntDomain>(
    alloc: Global,
    p: &Program,
    all: &[Key],
    sets: &mut [Abs<I>],
    own: Key,
    value: Option<&Value>,
) -> Result<(), NoMemory>
    requires keys { all.now ≡ keys_of p.now }
    requires sets { length sets.old ≡ length all.now }
    requires fits { MayGetAll all.now (IsOwn own (option_copied value)) sets.old }
    ensures { OnOk result (AreWith all.now I.Has I.IsBelow (IsOwn own (option_copied value.entry)) sets.old sets.new) }
{
    match value {
        None => Ok(()),
        Some(value) => put_value(alloc, p, all, sets, own, value),
    }
}

/// Puts the values of an object's scalars into the sets of their keys.
fn put_object<I: IntDomain>(
    alloc: Global,
    p: &Program,
    all: &[Key],
    sets: &mut [Abs<I>],
    keys: &[Key],
    values: &[Value],
) -> Result<(), NoMemory>
    requires keys { all.now ≡ keys_of p.now }
    requires sets { length sets.old ≡ length all.now }
    requires fits { MayGetAll all.now (IsAmong keys.now values.now) sets.old }
    ensures { OnOk result (AreWith all.now I.Has I.IsBelow (IsAmong keys.now values.now) sets.old sets.new) }
{
    for (n, own) in keys.iter().enumerate() {
        put_scalar(alloc, p, all, sets, *own, at(values, n))?;
    }
    Ok(())
}

/// Puts the values of the scalars of all objects into the sets of their keys.
fn put_objects<I: IntDomain>(
    alloc: Global,
    p: &Program,
    all: &[Key],
    sets: &mut [Abs<I>],
    keys: &[List<Key>],
    values: &[List<Value>],
) -> Result<(), NoMemory>
    requires keys { all.now ≡ keys_of p.now }
    requires sets { length sets.old ≡ length all.now }
    requires count { length keys.now ≡ length values.now }
    requires fits { MayGetAll all.now (IsFirstIn keys.now values.now) sets.old }
    ensures { OnOk result (AreWith all.now I.Has I.IsBelow (IsFirstIn keys.now values.now) sets.old sets.new) }
{
    for (i, own) in keys.iter().enumerate() {
        put_object(alloc, p, all, sets, own.all(), values[i].all())?;
    }
    Ok(())
}

/// The empty sets of the kinds of others.
fn none_sets<I: IntDomain>(alloc: Global, kinds: &[Abs<I>]) -> Result<Vec<Abs<I>>, NoMemory>
    ensures { IfOk result (λ sets. AreNoneOf I.IsBelow kinds.now (length kinds.now) sets.items) }
{
    let mut sets = Vec::new(alloc);
    for kind in kinds {
        sets.push(none_of(alloc, kind))?;
    }
    Ok(sets)
}

/// The least sets, of the kinds of others, that have the first values of the scalars of each key.
fn first_sets<I: IntDomain>(
    alloc: Global,
    p: &Program,
    all: &[Key],
    keys: &[List<Key>],
    values: &[List<Value>],
    kinds: &[Abs<I>],
) -> Result<Vec<Abs<I>>, NoMemory>
    requires keys { all.now ≡ keys_of p.now }
    requires kinds { length kinds.now ≡ length all.now }
    requires count { length keys.now ≡ length values.now }
    requires fits { MayGetAll all.now (IsFirstIn keys.now values.now) kinds.now }
    ensures { IfOk result (λ sets. AreLeastOf all.now I.Has I.IsBelow kinds.now (IsFirstIn keys.now values.now) sets.items) }
{
    let mut sets = none_sets(alloc, kinds)?;
    put_objects(alloc, p, all, &mut sets, keys, values)?;
    Ok(sets)
}

/// That the whole-run sets of all keys have these.
fn asked_of_sets<I: IntDomain>(alloc: Global, sets: Vec<Abs<I>>) -> Result<Vec<Asked<I>>, NoMemory>
    requires { length sets.items < 2 ^ 32 }
    ensures { IfOk result (λ asked. asked.items ≡ asked_of_sets_of 0 sets.items) }
{
    let mut asked = Vec::new(alloc);
    for set in sets {
        let slot = Slot::Whole(asked.len() as u32);
        asked.push(Asked::Part(slot, Part::Values(Some(set))))?;
    }
    Ok(asked)
}

/// What is asked of the whole-run sets of all keys: that each has the first values of its cells. The only error is want of memory.
pub fn asked_by_firsts<I: IntDomain>(
    alloc: Global,
    p: &Program,
    facts: &Facts<I>,
) -> Result<Vec<Asked<I>>, NoMemory>
    requires typed { IsTypedProgram p.now }
    requires shape { HaveShape (domain I.Has I.IsBelow I.OpGives I.OpOneGives I.ToGives I.KeepGives I.members_of) p.now facts.now }
    requires few { length facts.now.keys < 2 ^ 32 }
    ensures asked { IfOk result (λ asked. AreFirstSets (domain I.Has I.IsBelow I.OpGives I.OpOneGives I.ToGives I.KeepGives I.members_of) p.now facts.now 0 (keys_of p.now) (all_needs p.now asked.items)) }
    ensures raisable { IfOk result (λ asked. (others : FactsOf I) → AreRaisable (domain I.Has I.IsBelow I.OpGives I.OpOneGives I.ToGives I.KeepGives I.members_of) p.now others asked.items) }
{
    let keys = static_keys(alloc, p)?;
    let values = all_first_values(alloc, p)?;
    let all = facts.keys.all();
    let kinds = facts.whole.all();
    let sets = first_sets(alloc, p, all, keys.all(), &values, kinds)?;
    asked_of_sets(alloc, sets)
}
