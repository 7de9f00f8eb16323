//! The whole-run sets of keys, and their union.

ghost use Rattle.std.specs.Prelude.{◌≡◌, Some, IfOk};
ghost use Rattle.std.specs.List.{Contains};
ghost use Rattle.std.specs.Option.{option_copied};
ghost use Rattle.cc_state_values.specs.CcLattice.Orders.{IsLeastUpperBound};
ghost use Rattle.cc_state_values.specs.CcPlaces.Abstract.{AreOfOneKind, IsBelowAbs};
ghost use Rattle.cc_state_values.specs.CcPlaces.declared.abs.Abs.{Abs as AbsOf};
ghost use Rattle.cc_program.specs.declared.program.Program.{Program as ProgramOf};
ghost use Rattle.cc_state_keys.specs.CcStateFacts.declared.facts.Key.{Key as KeyOf};
ghost use Rattle.cc_state_keys.specs.Keys.{keys_of};
ghost use Rattle.cc_state_values.specs.CcStateOperators.Domains.{domain, IsUnion};
ghost use Rattle.cc_state_reads.specs.Reads.{IsOfKind, IsOfKeys, whole_of as whole_of_of};
ghost use Rattle.cc_state_keys.specs.CcTyped.View.{value_view};

use cc_program::Program;
use cc_program::num::{NoMemory, at};
use cc_state_keys::key_number;
use cc_state_keys::state_facts::{Facts, Key};
use cc_state_keys::typed_crate::ValueType;
use cc_state_values::lattice::{IntDomain, Lattice};
use cc_state_values::places::{Abs, Addrs};
use std::alloc::Global;

/// The whole-run set of a key.
fn whole_of<I>(facts: &Facts<I>, key: Key) -> Option<&Abs<I>>
    ensures { (p : ProgramOf) → facts.now.keys ≡ keys_of p → option_copied result ≡ whole_of_of p facts.now key }
{
    let number = key_number(facts.keys.all(), key)?;
    at(facts.whole.all(), number)
}

/// No values, of the kind of a type.
pub(crate) fn none_of<I: IntDomain>(alloc: Global, t: ValueType) -> Abs<I>
    ensures kind { IsOfKind (value_view t.entry) result }
    ensures least { IsUnion (domain I.Has I.IsBelow I.OpGives I.OpOneGives I.ToGives I.KeepGives I.members_of) result (λ z. ⊥) result }
{
    match t {
        ValueType::NoValue | ValueType::Integer(_) => Abs::Ints(I::none(alloc)),
        ValueType::ToObject(_, _, _) | ValueType::ToFunction(_) => Abs::Addrs(Addrs::none(alloc)),
    }
}

/// Values joined with the whole-run set of a key.
fn with_whole<I: IntDomain>(
    alloc: Global,
    values: &Abs<I>,
    p: &Program,
    facts: &Facts<I>,
    key: Key,
) -> Result<Abs<I>, NoMemory>
    requires keys { facts.now.keys ≡ keys_of p.now }
    requires set { (z : AbsOf I) × (whole_of_of p.now facts.now key ≡ Some z) × AreOfOneKind values.now z }
    ensures { IfOk result (λ y. (z : AbsOf I) × (whole_of_of p.now facts.now key ≡ Some z) × IsLeastUpperBound AreOfOneKind (IsBelowAbs I.IsBelow) values.now z y) }
{
    match whole_of(facts, key) {
        None => unreachable!(),
        Some(set) => values.join(alloc, set),
    }
}

/// The union of the whole-run sets of some keys, of the kind of no values.
pub(crate) fn union_of<I: IntDomain>(
    alloc: Global,
    none: Abs<I>,
    p: &Program,
    facts: &Facts<I>,
    named: &[Key],
) -> Result<Abs<I>, NoMemory>
    requires least { IsUnion (domain I.Has I.IsBelow I.OpGives I.OpOneGives I.ToGives I.KeepGives I.members_of) none (λ z. ⊥) none }
    requires keys { facts.now.keys ≡ keys_of p.now }
    requires sets { (k : KeyOf) → Contains named.now k → (z : AbsOf I) × (whole_of_of p.now facts.now k ≡ Some z) × AreOfOneKind none z }
    ensures { IfOk result (λ y. IsUnion (domain I.Has I.IsBelow I.OpGives I.OpOneGives I.ToGives I.KeepGives I.members_of) none (IsOfKeys p.now facts.now named.now) y) }
{
    let mut union = none;
    for key in named {
        union = with_whole(alloc, &union, p, facts, *key)?;
    }
    Ok(union)
}
