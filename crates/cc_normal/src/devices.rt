//! The order of devices.

ghost use Rattle.std.specs.Prelude.{◌≡◌, not, [], ◌∷◌, ◌+◌, ◌<◌, ◌^◌, ◌≤◌, map, length, option_and_then, option_map, IfSome};
ghost use Rattle.std.specs.List.{list_all, list_any, flat_map, filter};
ghost use Rattle.cc_program.specs.declared.expr.Place.{out-Place};
ghost use Rattle.cc_program.specs.declared.stmt.Case.{out-Case};
ghost use Rattle.cc_syntax.specs.Forms.{form_of};
ghost use Rattle.cc_syntax.specs.Lists.{come_first};
ghost use Rattle.cc_syntax.specs.Normal.{has_name as has_name_of, count_named as count_named_of, device_in as device_in_of, device_read as device_read_of, devices_accessed as devices_accessed_of, devices_of, devices_in, devices_in_text, next_of, devices_in_order as devices_in_order_of};

use cc_program::num::List;
use cc_sound::is_numbered;
use cc_syntax::{Case, Device, Expr, Place, Program, Stmt};

/// What is next behind a device that was there before, or is the next one.
fn behind(next: u64, device: u32) -> Option<u64>
    ensures { result ≡ next_of next (device ∷ []) }
{
    let device = u64::from(device);
    if device < next {
        Some(next)
    } else if device == next {
        Some(device + 1)
    } else {
        None
    }
}

fn behind_place(next: u64, a: &Place) -> Option<u64>
    ensures { result ≡ next_of next (device_in_of (out-Place a.now)) }
{
    match a {
        Place::Device(d) => behind(next, *d),
        _ => Some(next),
    }
}

fn behind_read(next: u64, e: &Expr) -> Option<u64>
    ensures { result ≡ next_of next (device_read_of (form_of e.now)) }
{
    match e {
        Expr::Load(a) => behind_place(next, a.get()),
        _ => Some(next),
    }
}

#[tactic(auto, using(crate::proofs::DeviceLemmas::of_next))]
fn behind_effect(next: u64, e: &Expr) -> Option<u64>
    ensures { result ≡ next_of next (devices_accessed_of (form_of e.now)) }
{
    match e {
        Expr::Assign(a, value) => {
            let next = behind_place(next, a.get())?;
            behind_read(next, value.get())
        }
        _ => Some(next),
    }
}

#[cycle(devices)]
#[tactic(auto, using(crate::proofs::DeviceLemmas::of_next))]
fn behind_stmt(next: u64, s: &Stmt) -> Option<u64>
    ensures { result ≡ next_of next (devices_of s.now) }
{
    match s {
        Stmt::Do(e) => behind_effect(next, e.get()),
        Stmt::If(_, a, b) => {
            let next = behind_list(next, a)?;
            behind_list(next, b)
        }
        Stmt::While(_, a) => behind_list(next, a),
        Stmt::DoWhile(a, _) => behind_list(next, a),
        Stmt::For(_, _, _, a) => behind_list(next, a),
        Stmt::Switch(_, cases) => behind_cases(next, cases),
        Stmt::Block(a) => behind_list(next, a),
        Stmt::Break | Stmt::Continue | Stmt::Return(_) | Stmt::Empty => Some(next),
    }
}

#[cycle(devices)]
#[tactic(auto, using(crate::proofs::DeviceLemmas::of_next))]
fn behind_list(next: u64, list: &List<Stmt>) -> Option<u64>
    ensures { result ≡ next_of next (devices_in list.now) }
{
    let mut last = next;
    for s in list.all() {
        last = behind_stmt(last, s)?;
    }
    Some(last)
}

#[cycle(devices)]
#[tactic(auto, using(crate::proofs::DeviceLemmas::of_next))]
fn behind_cases(next: u64, cases: &List<Case>) -> Option<u64>
    ensures { result ≡ next_of next (flat_map (λ c. devices_in (out-Case c).body) cases.now) }
{
    let mut last = next;
    for case in cases.all() {
        last = behind_list(last, &case.body)?;
    }
    Some(last)
}

/// What is next behind the devices of all functions.
#[tactic(auto, using(crate::proofs::DeviceLemmas::of_next))]
fn behind_all(next: u64, p: &Program) -> Option<u64>
    ensures { result ≡ next_of next (devices_in_text p.now) }
{
    let mut last = next;
    for f in p.funcs.all() {
        last = behind_list(last, &f.body)?;
    }
    Some(last)
}

fn has_name(device: &Device) -> bool
    ensures { result ≡ has_name_of device.now }
{
    !is_numbered(device)
}

fn any_named(devices: &[Device]) -> bool
    ensures { result ≡ list_any has_name_of devices.now }
{
    devices.iter().any(|device| has_name(device))
}

/// Whether the devices with names stand first.
fn named_first(devices: &[Device]) -> bool
    ensures { result ≡ come_first has_name_of devices.now }
{
    let mut left = devices;
    while let [device, rest @ ..] = left {
        if !has_name(device) {
            return !any_named(rest);
        }
        left = rest;
    }
    true
}

/// How many devices have names.
#[tactic(auto, using(crate::proofs::DeviceLemmas::of_counts))]
fn count_named(devices: &[Device]) -> usize
    ensures value { result ≡ count_named_of devices.now }
{
    devices.iter().filter(|device| has_name(device)).count()
}

/// Whether the devices stand in the order of the text.
pub fn devices_in_order(p: &Program) -> bool
    ensures { result ≡ devices_in_order_of p.now }
{
    let devices = p.devices.all();
    named_first(devices)
        && match behind_all(count_named(devices) as u64, p) {
            None => false,
            Some(last) => devices.len() as u64 == last,
        }
}
