//! Sets of one value, of none, and with one more value.

ghost use Rattle.std.specs.Prelude.{◌≡◌, IfOk};
ghost use Rattle.cc_rules_asked.specs.CcLattice.Domains.{IsIntValue};
ghost use Rattle.cc_program.specs.declared.value.Value.TheVariants as value;
ghost use Rattle.cc_rules_firsts.specs.Firsts.{MayStand, FitsIn, IsLeastWith, IsNoneOf, IsWith};

use cc_program::num::NoMemory;
use cc_program::{Address, Value};
use cc_rules_asked::lattice::{IntDomain, Lattice};
use cc_rules_asked::places::{Abs, Addrs};
use cc_rules_asked::state_operators::only;
use std::alloc::Global;

fn one_number<I: IntDomain>(alloc: Global, n: &i128) -> Abs<I>
    requires { IsIntValue n.now }
    ensures { IsLeastWith I.Has I.IsBelow (value.Int n.now) result }
{
    Abs::Ints(I::one(alloc, *n))
}

fn one_address<I: IntDomain>(alloc: Global, a: &Address) -> Result<Abs<I>, NoMemory>
    ensures { IfOk result (λ set. IsLeastWith I.Has I.IsBelow (value.Place a.now) set) }
{
    let set = only(alloc, a)?;
    Ok(Abs::Addrs(set))
}

/// The set of one value.
pub(crate) fn one_value<I: IntDomain>(alloc: Global, value: &Value) -> Result<Abs<I>, NoMemory>
    requires { MayStand value.now }
    ensures { IfOk result (λ set. IsLeastWith I.Has I.IsBelow value.now set) }
{
    match value {
        Value::Int(n) => Ok(one_number(alloc, n)),
        Value::Place(a) => one_address(alloc, a),
    }
}

/// The empty set of the kind of another one.
pub(crate) fn none_of<I: IntDomain>(alloc: Global, kind: &Abs<I>) -> Abs<I>
    ensures { IsNoneOf I.IsBelow kind.now result }
{
    match kind {
        Abs::Ints(_) => Abs::Ints(I::none(alloc)),
        Abs::Addrs(_) => Abs::Addrs(Addrs::none(alloc)),
    }
}

/// A set with one value more.
pub(crate) fn with_value<I: IntDomain>(
    alloc: Global,
    set: &Abs<I>,
    value: &Value,
) -> Result<Abs<I>, NoMemory>
    requires { FitsIn set.now value.now }
    ensures { IfOk result (λ both. IsWith I.Has I.IsBelow set.now (λ v. v ≡ value.now) both) }
{
    let one = one_value(alloc, value)?;
    set.join(alloc, &one)
}
