//! The code of a value, and the value of a code.

ghost use Rattle.std.specs.Prelude.{◌≡◌, ◌+ℤ◌, pos, Some as SomeOf, IsSome, slice_get};
ghost use Rattle.cc_code.specs.Codes.{decoded, value_of, IsAbove, IsCode, IsShortCodingOf, IsSomeCode};
ghost use Rattle.cc_code.specs.Members.{Has};

use crate::kinds::Coding;
use crate::members::place_of;
use cc_places::Abs;
use cc_program::num::at;
use cc_program::{Address, Value};
use cc_sets::Vals;

/// The value of a code; an address is lent from the list of values.
#[derive(Clone, Copy)]
pub enum Decoded<'v> {
    Int(i128),
    Place(&'v Address),
}

/// How far an integer is above another one.
fn distance(low: i128, v: &Value) -> u32
    requires { IsAbove low v.now }
    ensures { v.now ≡ Value.Int (low +ℤ pos result) }
{
    match v {
        Value::Int(n) => (*n - low) as u32,
        Value::Place(_) => unreachable!(),
    }
}

/// The code of a member of a set, by the set's coding.
pub fn encode(values: &Abs<Vals>, coding: &Coding, v: &Value) -> u32
    requires coded { IsShortCodingOf values.now coding.now }
    requires member { Has values.now v.now }
    ensures { IsCode values.now coding.now v.now result }
{
    match coding {
        Coding::Const => 0,
        Coding::Direct => distance(0, v),
        Coding::Biased(low) => distance(*low, v),
        Coding::Table => place_of(values, v),
    }
}

/// A value whose address is lent.
fn lent(value: &Value) -> Decoded<'_>
    ensures { value_of result ≡ value.now }
{
    match value {
        Value::Int(n) => Decoded::Int(*n),
        Value::Place(a) => Decoded::Place(a),
    }
}

/// The value at a place.
fn value_at(values: &[Value], place: usize) -> Decoded<'_>
    requires { IsSome (slice_get values.now place) }
    ensures { slice_get values.now place ≡ SomeOf (value_of result) }
{
    match at(values, place) {
        Some(value) => lent(value),
        None => unreachable!(),
    }
}

/// The value of a code. The code is that of a member of a set that has this coding; where the coding is a constant or a table,
/// the values are the set's members, in their order.
pub fn decode<'v>(values: &'v [Value], coding: &Coding, code: u32) -> Decoded<'v>
    requires { IsSomeCode values.now coding.now code }
    ensures { decoded values.now coding.now code ≡ SomeOf (value_of result) }
{
    match coding {
        Coding::Const => value_at(values, 0),
        Coding::Direct => Decoded::Int(i128::from(code)),
        Coding::Biased(low) => Decoded::Int(*low + i128::from(code)),
        Coding::Table => value_at(values, code as usize),
    }
}
