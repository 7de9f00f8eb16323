//! How many values a slot has, whether they can be told apart, and where they stand.

ghost use Rattle.std.specs.Prelude.{◌≡◌, Some, true, slice_get};
ghost use Rattle.std.specs.List.{list_all, Contains};
ghost use Rattle.cc_code.specs.Members.{count_of as count_of_values, has_coding as has_coding_of, is_static as is_static_address, are_listed, members_of, Has};

use cc_places::{Abs, Addrs};
use cc_program::{Address, Root, Value};
use cc_sets::Vals;

/// How many values there are.
pub fn count_of(values: &Abs<Vals>) -> u128
    ensures { result ≡ count_of_values values.now }
{
    match values {
        Abs::Ints(Vals::Few(numbers)) => numbers.members().len() as u128,
        Abs::Ints(Vals::Many(range)) => 1u128 << range.bits,
        Abs::Addrs(places) => places.members.all().len() as u128,
    }
}

fn is_static(a: &Address) -> bool
    ensures { result ≡ is_static_address a.now }
{
    match a {
        Address::Null | Address::Func(_) => true,
        Address::At { object, .. } => matches!(object, Root::Static(_)),
    }
}

fn are_static(places: &Addrs) -> bool
    ensures { result ≡ list_all is_static_address places.now.members }
{
    places.members.all().iter().all(|a| is_static(a))
}

/// Whether each value can be told from the others.
pub fn has_coding(values: &Abs<Vals>) -> bool
    ensures { result ≡ has_coding_of values.now }
{
    match values {
        Abs::Ints(_) => true,
        Abs::Addrs(places) => places.is_exact && are_static(places),
    }
}

/// Where a number stands among others.
fn place_of_number(members: &[i128], n: i128) -> usize
    requires { Contains members.now n }
    ensures { slice_get members.now result ≡ Some n }
{
    for (place, member) in members.iter().enumerate() {
        if *member == n {
            return place;
        }
    }
    unreachable!()
}

/// Where an address stands among others.
fn place_of_address(members: &[Address], a: &Address) -> usize
    requires { Contains members.now a.now }
    ensures { slice_get members.now result ≡ Some a.now }
{
    for (place, member) in members.iter().enumerate() {
        if member.same(a) {
            return place;
        }
    }
    unreachable!()
}

/// Where a value stands among members that are listed.
pub fn place_of(values: &Abs<Vals>, v: &Value) -> u32
    requires told { has_coding_of values.now ≡ true }
    requires listed { are_listed values.now ≡ true }
    requires member { Has values.now v.now }
    ensures { slice_get (members_of values.now) result ≡ Some v.now }
{
    match values {
        Abs::Ints(Vals::Few(numbers)) => match v {
            Value::Int(n) => place_of_number(numbers.members(), *n) as u32,
            Value::Place(_) => unreachable!(),
        },
        Abs::Ints(Vals::Many(_)) => unreachable!(),
        Abs::Addrs(places) => match v {
            Value::Int(_) => unreachable!(),
            Value::Place(a) => place_of_address(places.members.all(), a) as u32,
        },
    }
}
