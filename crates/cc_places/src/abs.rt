//! Abstract values: what something may hold, integers or addresses.

ghost use Rattle.std.specs.Prelude.{◌↔◌, IsTrue};
ghost use Rattle.cc_program.specs.declared.value.Value.{Value};
ghost use Rattle.cc_places.specs.declared.abs.Abs.{Abs};
ghost use Rattle.cc_places.specs.Abstract.{AreOfOneKind, IsBelowAbs, HasValue};
ghost use Rattle.cc_places.specs.laws.AbstractLaws.{kind_itself, kind_back, abs_itself, abs_through, abs_same};

use crate::addrs::Addrs;
use cc_lattice::{IntDomain, Lattice};
use cc_program::Value;
use cc_program::num::NoMemory;
use std::alloc::Global;

/// The values that a scalar may have: integers, told by a domain, or addresses. Two of them are of one kind
/// where both are of integers or both are of addresses.
#[derive(Debug, Drop)]
pub enum Abs<I> {
    Ints(I),
    Addrs(Addrs),
}

impl<I: IntDomain> Abs<I> {
    /// Whether the value is among them.
    pub fn has(&self, value: &Value) -> bool
        ensures { IsTrue result ↔ HasValue I.Has self.now value.now }
    {
        match self {
            Abs::Ints(numbers) => match value {
                Value::Int(v) => numbers.has(*v),
                Value::Place(_) => false,
            },
            Abs::Addrs(places) => match value {
                Value::Int(_) => false,
                Value::Place(a) => places.has(a),
            },
        }
    }
}

impl<I: IntDomain> Abs<I> {
    /// What the order keeps, over each domain: a value has all that one below it has. The call does nothing.
    pub fn laws()
        ensures { (x y : Abs I) → IsBelowAbs I.IsBelow x y → (v : Value) → HasValue I.Has x v → HasValue I.Has y v }
    {}
}

impl<I: IntDomain> Lattice for Abs<I> {
    ghost AreAlike = { AreOfOneKind };

    ghost IsBelow = { IsBelowAbs I.IsBelow };

    fn below(&self, other: &Abs<I>) -> bool {
        match self {
            Abs::Ints(numbers) => match other {
                Abs::Ints(others) => numbers.below(others),
                Abs::Addrs(_) => false,
            },
            Abs::Addrs(places) => match other {
                Abs::Ints(_) => false,
                Abs::Addrs(others) => places.below(others),
            },
        }
    }

    fn join(&self, alloc: Global, other: &Abs<I>) -> Result<Abs<I>, NoMemory> {
        match self {
            Abs::Ints(numbers) => match other {
                Abs::Ints(others) => Ok(Abs::Ints(numbers.join(alloc, others)?)),
                Abs::Addrs(_) => unreachable!(),
            },
            Abs::Addrs(places) => match other {
                Abs::Ints(_) => unreachable!(),
                Abs::Addrs(others) => Ok(Abs::Addrs(places.join(alloc, others)?)),
            },
        }
    }

    ghost alike_itself = { kind_itself };

    ghost alike_back = { kind_back };

    ghost below_itself = { λ x _. abs_itself I.AreAlike I.IsBelow I.below_itself I.all_alike x };

    ghost below_through = { λ x y z _ _ _ a b. abs_through I.AreAlike I.IsBelow I.below_through I.all_alike x y z a b };

    ghost below_both_ways = { λ x y _ a b. abs_same I.AreAlike I.IsBelow I.below_both_ways I.all_alike x y a b };
}
