//! Whole programs.

ghost use Rattle.std.specs.Prelude.{◌≡◌, IfOk, map};
ghost use Rattle.cc_lower_numbers.specs.Numbered.{device_order as device_order_of, numbered_func, numbered};
ghost use Rattle.cc_lower_numbers.specs.Order.{place_in};
ghost use Rattle.cc_lower_numbers.specs.Renamed.{number_at};
ghost use Rattle.cc_lower_numbers.specs.Temporaries.{kept_count as kept_count_of, temporaries as temporaries_of};

use crate::devices::{arranged_devices, device_order};
use crate::locals::numbered_locals;
use crate::names::temporary_names;
use crate::order::places;
use crate::stmt::rename_stmts;
use crate::temporaries::{kept_count, temporaries};
use cc_program::num::{List, Name, NoMemory};
use cc_program::{Func, Program};
use std::alloc::Global;

/// The places of a function's locals whose temporaries stand in this order.
#[tactic(auto, using(crate::proofs::Tables::of_tables))]
fn places_of(alloc: Global, order: &[usize], f: &Func) -> Result<Vec<u32>, NoMemory>
    ensures { IfOk result (λ r. order.now ≡ temporaries_of f.now → number_at r.items ≡ place_in (kept_count_of f.now) (temporaries_of f.now)) }
{
    let places = places(alloc, kept_count(f), order, f.locals.all().len())?;
    Ok(places)
}

/// A function with new numbers of temporaries and of devices.
fn number_func(alloc: Global, names: &[Name], devices: &[u32], f: Func) -> Result<Func, NoMemory>
    ensures { IfOk result (λ r. r ≡ numbered_func names.now (number_at devices.now) f) }
{
    let order = temporaries(alloc, &f)?;
    let places = places_of(alloc, order.as_slice(), &f)?;
    let locals = numbered_locals(alloc, names, order.as_slice(), &f)?;
    let Func {
        name,
        sig,
        entry,
        params,
        locals: before,
        body,
    } = f;
    drop(before);
    let body = rename_stmts(alloc, places.as_slice(), devices, body)?;
    Ok(Func {
        name,
        sig,
        entry,
        params,
        locals: List::of(locals),
        body,
    })
}

fn number_funcs(
    alloc: Global,
    names: &[Name],
    devices: &[u32],
    funcs: List<Func>,
) -> Result<List<Func>, NoMemory>
    ensures { IfOk result (λ r. r ≡ map (numbered_func names.now (number_at devices.now)) funcs) }
{
    let mut out = Vec::new(alloc);
    for f in funcs.into_vec() {
        out.push(number_func(alloc, names, devices, f)?)?;
    }
    Ok(List::of(out))
}

/// The places of a program's devices, which stand in this order.
#[tactic(auto, using(crate::proofs::Tables::of_tables))]
fn device_places(alloc: Global, order: &[usize], p: &Program) -> Result<Vec<u32>, NoMemory>
    ensures { IfOk result (λ r. order.now ≡ device_order_of p.now → number_at r.items ≡ place_in 0 (device_order_of p.now)) }
{
    let places = places(alloc, 0, order, p.devices.all().len())?;
    Ok(places)
}

/// The program whose temporaries have names and stand in the order of their first writing, and whose devices stand in the order of
/// the text. Want of memory is the only error.
pub fn number_program(alloc: Global, p: Program) -> Result<Program, NoMemory>
    ensures exact { IfOk result (λ q. q ≡ numbered p) }
{
    let order = device_order(alloc, &p)?;
    let places = device_places(alloc, order.as_slice(), &p)?;
    let names = temporary_names(alloc, &p)?;
    let devices = arranged_devices(alloc, p.devices.all(), order.as_slice())?;
    let Program {
        target,
        roles,
        structures,
        devices: _,
        objects,
        funcs,
        main,
    } = p;
    let funcs = number_funcs(alloc, names.as_slice(), places.as_slice(), funcs)?;
    Ok(Program {
        target,
        roles,
        structures,
        devices,
        objects,
        funcs,
        main,
    })
}
