//! Codes of values: what the calls of `cc_code` give.
//!
//!     i{5,7} 0            the coding of integers, with at least so many bits: its kind, its bits, and for each member that is
//!                         told by itself its code and the value of the code, as `5>0>5`
//!     p{0,o1@0/1} 0       that of addresses, likewise; `none` where they have none
//!     iUChar 0 v200       the same of one value
//!
//! `places/values.rt` says how values are written.

ghost use Rattle.std.specs.Prelude.{◌≡◌, ◌≤◌, map, IfOk};
ghost use Rattle.cc_program.specs.declared.value.Value.TheVariants as value;
ghost use Rattle.cc_code.specs.Codes.{IsShortCodingOf};
ghost use Rattle.cc_code.specs.Members.{members_of, Has};

use crate::places::{abs_of, value_of, write_address, write_value};
use cases_script::{Page, split};
use cc_code::kinds::Coding;
use cc_code::{Decoded, coding, count_of, decode, encode};
use cc_places::Abs;
use cc_program::num::NoMemory;
use cc_program::{Address, Value};
use cc_sets::Vals;
use std::alloc::Global;

/// Numbers as values.
fn numbers(alloc: Global, members: &[i128]) -> Result<Vec<Value>, NoMemory>
    ensures { IfOk result (λ list. list.items ≡ map value.Int members.now) }
{
    let mut list = Vec::new(alloc);
    for n in members {
        list.push(Value::Int(*n))?;
    }
    Ok(list)
}

/// Addresses as values.
fn addresses(alloc: Global, members: &[Address]) -> Result<Vec<Value>, NoMemory>
    ensures { IfOk result (λ list. list.items ≡ map value.Place members.now) }
{
    let mut list = Vec::new(alloc);
    for a in members {
        list.push(Value::Place(a.copy(alloc)?))?;
    }
    Ok(list)
}

/// The members that are told one by one.
fn listed(alloc: Global, values: &Abs<Vals>) -> Result<Vec<Value>, NoMemory>
    ensures { IfOk result (λ list. list.items ≡ members_of values.now) }
{
    match values {
        Abs::Ints(Vals::Few(few)) => numbers(alloc, few.members()),
        Abs::Ints(Vals::Many(_)) => Ok(Vec::new(alloc)),
        Abs::Addrs(places) => addresses(alloc, places.members.all()),
    }
}

/// Writes a member, its code, and the value of the code.
fn write_code(page: &mut Page, values: &Abs<Vals>, list: &[Value], coding: &Coding, v: &Value)
    requires coded { IsShortCodingOf values.now coding.now }
    requires listed { list.now ≡ members_of values.now }
    requires member { Has values.now v.now }
{
    let code = encode(values, coding, v);
    page.put(" ");
    write_value(page, v);
    page.put_with(">", code);
    page.put(">");
    match decode(list, coding, code) {
        Decoded::Int(n) => page.show(n),
        Decoded::Place(a) => write_address(page, a),
    }
}

/// Writes the code of a value, where it is a member.
fn write_code_of(page: &mut Page, values: &Abs<Vals>, list: &[Value], coding: &Coding, v: &Value)
    requires coded { IsShortCodingOf values.now coding.now }
    requires listed { list.now ≡ members_of values.now }
{
    if values.has(v) {
        write_code(page, values, list, coding, v);
    } else {
        page.put(" no member");
    }
}

/// Writes the code of one value, or those of all members that are told one by one.
fn write_codes(
    alloc: Global,
    page: &mut Page,
    values: &Abs<Vals>,
    coding: &Coding,
    one: Option<&Value>,
) -> Result<(), NoMemory>
    requires { IsShortCodingOf values.now coding.now }
{
    let list = listed(alloc, values)?;
    match one {
        Some(v) => write_code_of(page, values, &list, coding, v),
        None => {
            for v in &list {
                write_code_of(page, values, &list, coding, v);
            }
        }
    }
    Ok(())
}

/// Writes the coding of some values, and codes.
fn write_coding(
    alloc: Global,
    page: &mut Page,
    values: &Abs<Vals>,
    least: u32,
    one: Option<&Value>,
) -> Option<()> {
    if count_of(values) == 0 {
        return None;
    }
    match coding(values, least) {
        None => page.put("none"),
        Some(told) => {
            page.debug(told.0);
            page.put_with(" ", told.1);
            if told.1 <= 16 {
                write_codes(alloc, page, values, &told.0, one).ok()?;
            }
        }
    }
    Some(())
}

fn write_call(alloc: Global, page: &mut Page, case: &str) -> Option<()> {
    let (set, rest) = split(case);
    let (least, one) = split(rest);
    let values: Abs<Vals> = abs_of(alloc, set)?;
    let least = least.parse::<u32>().ok()?;
    if one.is_empty() {
        write_coding(alloc, page, &values, least, None)
    } else {
        write_coding(alloc, page, &values, least, Some(&value_of(alloc, one)?))
    }
}

/// Writes what a case gives.
pub fn write_outcome(alloc: Global, page: &mut Page, case: &str) {
    if write_call(alloc, page, case).is_none() {
        page.put("unclear");
    }
}
