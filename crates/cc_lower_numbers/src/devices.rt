//! The new order of devices.

ghost use Rattle.std.specs.Prelude.{◌≡◌, ◌++◌, [], ◌∷◌, if◌then◌else◌, IfOk, OnOk};
ghost use Rattle.std.specs.List.{flat_map};
ghost use Rattle.std.specs.Option.{option_to_list};
ghost use Rattle.std.specs.Prelude.{slice_get};
ghost use Rattle.cc_program.specs.declared.expr.Place.{out-Place};
ghost use Rattle.cc_program.specs.declared.stmt.Case.{out-Case};
ghost use Rattle.cc_syntax.specs.Forms.{form_of};
ghost use Rattle.cc_syntax.specs.Normal.{device_in, device_read, devices_accessed, devices_of, devices_in, devices_in_text, has_name};
ghost use Rattle.cc_lower_numbers.specs.Numbered.{named_from, device_order as device_order_of};
ghost use Rattle.cc_lower_numbers.specs.Order.{arranged};

use crate::order::ordered;
use cc_program::num::{List, NoMemory, at};
use cc_program::{Case, Device, Expr, Place, Program, Stmt};
use std::alloc::Global;

fn put_place(a: &Place, numbers: &mut Vec<usize>) -> Result<(), NoMemory>
    ensures { OnOk result (numbers.new.items ≡ numbers.old.items ++ device_in (out-Place a.now)) }
{
    match a {
        Place::Device(device) => {
            numbers.push(*device as usize)?;
            Ok(())
        }
        _ => Ok(()),
    }
}

fn put_read(e: &Expr, numbers: &mut Vec<usize>) -> Result<(), NoMemory>
    ensures { OnOk result (numbers.new.items ≡ numbers.old.items ++ device_read (form_of e.now)) }
{
    match e {
        Expr::Load(a) => put_place(a.get(), numbers),
        _ => Ok(()),
    }
}

#[tactic(auto, using(crate::proofs::Texts::of_devices))]
fn put_effect(e: &Expr, numbers: &mut Vec<usize>) -> Result<(), NoMemory>
    ensures { OnOk result (numbers.new.items ≡ numbers.old.items ++ devices_accessed (form_of e.now)) }
{
    match e {
        Expr::Assign(a, value) => {
            put_place(a.get(), numbers)?;
            put_read(value.get(), numbers)
        }
        _ => Ok(()),
    }
}

#[cycle(devices)]
#[tactic(auto, using(crate::proofs::Texts::of_devices))]
fn put_stmt(s: &Stmt, numbers: &mut Vec<usize>) -> Result<(), NoMemory>
    ensures { OnOk result (numbers.new.items ≡ numbers.old.items ++ devices_of s.now) }
{
    match s {
        Stmt::Do(e) => put_effect(e.get(), numbers),
        Stmt::If(_, a, b) => {
            put_list(a, numbers)?;
            put_list(b, numbers)
        }
        Stmt::While(_, a) => put_list(a, numbers),
        Stmt::DoWhile(a, _) => put_list(a, numbers),
        Stmt::For(_, _, _, a) => put_list(a, numbers),
        Stmt::Switch(_, cases) => put_cases(cases, numbers),
        Stmt::Block(a) => put_list(a, numbers),
        Stmt::Break | Stmt::Continue | Stmt::Return(_) | Stmt::Empty => Ok(()),
    }
}

#[cycle(devices)]
#[tactic(auto, using(crate::proofs::Texts::of_devices))]
fn put_list(list: &List<Stmt>, numbers: &mut Vec<usize>) -> Result<(), NoMemory>
    ensures { OnOk result (numbers.new.items ≡ numbers.old.items ++ devices_in list.now) }
{
    for s in list.all() {
        put_stmt(s, numbers)?;
    }
    Ok(())
}

#[cycle(devices)]
#[tactic(auto, using(crate::proofs::Texts::of_devices))]
fn put_cases(cases: &List<Case>, numbers: &mut Vec<usize>) -> Result<(), NoMemory>
    ensures { OnOk result (numbers.new.items ≡ numbers.old.items ++ flat_map (λ c. devices_in (out-Case c).body) cases.now) }
{
    for case in cases.all() {
        put_list(&case.body, numbers)?;
    }
    Ok(())
}

/// Adds the devices that all functions access, from the beginning of the text to the end.
#[tactic(auto, using(crate::proofs::Texts::of_devices))]
fn put_text(p: &Program, numbers: &mut Vec<usize>) -> Result<(), NoMemory>
    ensures { OnOk result (numbers.new.items ≡ numbers.old.items ++ devices_in_text p.now) }
{
    for f in p.funcs.all() {
        put_list(&f.body, numbers)?;
    }
    Ok(())
}

/// The position of a device behind others, where it has a name.
fn put_named(device: &Device, position: usize, out: &mut Vec<usize>) -> Result<(), NoMemory>
    ensures { OnOk result (out.new.items ≡ out.old.items ++ (if has_name device.now then position ∷ [] else [])) }
{
    if device.name.is_some() {
        out.push(position)?;
    }
    Ok(())
}

/// The devices that have names, in their order.
#[tactic(auto, using(crate::proofs::Counts::of_named))]
fn named(alloc: Global, devices: &[Device]) -> Result<Vec<usize>, NoMemory>
    ensures { IfOk result (λ r. r.items ≡ named_from 0 devices.now) }
{
    let mut named = Vec::new(alloc);
    let mut position: usize = 0;
    for device in devices {
        put_named(device, position, &mut named)?;
        position += 1;
    }
    Ok(named)
}

/// The devices in their new order.
pub fn device_order(alloc: Global, p: &Program) -> Result<Vec<usize>, NoMemory>
    ensures { IfOk result (λ r. r.items ≡ device_order_of p.now) }
{
    let mut text = named(alloc, p.devices.all())?;
    put_text(p, &mut text)?;
    ordered(alloc, 0, p.devices.all().len(), text)
}

/// Puts a device behind others, where it is there.
fn put_device(
    alloc: Global,
    devices: &[Device],
    number: usize,
    out: &mut Vec<Device>,
) -> Result<(), NoMemory>
    ensures { OnOk result (out.new.items ≡ out.old.items ++ option_to_list (slice_get devices.now number)) }
{
    let Some(device) = at(devices, number) else {
        return Ok(());
    };
    out.push(device.copy(alloc)?)?;
    Ok(())
}

/// The devices in an order.
#[tactic(auto, using(crate::proofs::Texts::of_arranged))]
pub fn arranged_devices(
    alloc: Global,
    devices: &[Device],
    order: &[usize],
) -> Result<List<Device>, NoMemory>
    ensures { IfOk result (λ r. r ≡ arranged devices.now order.now) }
{
    let mut out = Vec::new(alloc);
    for number in order {
        put_device(alloc, devices, *number, &mut out)?;
    }
    Ok(List::of(out))
}
