//! `*(volatile T *)n`: the device at the address n.

ghost use Rattle.std.specs.Prelude.{◌≡◌, Ok as Gave};
ghost use Rattle.cc_designators.specs.Postfix.{indirection as indirection_of};
ghost use Rattle.cc_designators.specs.View.{expr_view};
ghost use Rattle.cc_program.specs.declared.types.Shape.{out-Shape};
ghost use Rattle.cc_scopes.specs.Outcomes.{Gives};
ghost use Rattle.cc_scopes.specs.State.{State as Known};
ghost use Rattle.cc_scopes.specs.Verdicts.{whole, and_then};
ghost use Rattle.cc_scopes.specs.View.{state_of};
ghost use Rattle.cc_scopes.specs.CcSyntax.Sound.{is_same_device as is_same_device_of, is_numbered as is_numbered_of};
ghost use Rattle.cc_typed_terms.specs.Devices.{device_of, declared_device as declared_device_of, device_place, with_device, names_device as names_device_of, number_of as number_of_device, device_found, register_found, address_found, starred as starred_of};
ghost use Rattle.cc_typed_terms.specs.Values.{valued as valued_of};

use crate::values::value_of;
use cc_designators::{
    DesignatedType, TypedExpr, fits_pointer, indirection, no_device, placed as place_of,
};
use cc_program::num::{IntType, Target};
use cc_scopes::operands::{Breach, Rule};
use cc_scopes::syntax::{CType, Device, Place, Shape};
use cc_scopes::typed::{same_flag, same_int};
use cc_scopes::{Declared, Linkage, State, Stop, UnitKind, placed};
use std::alloc::Global;

fn is_numbered(device: &Device) -> bool
    ensures { result ≡ is_numbered_of device.now }
{
    device.name.is_none()
}

fn is_same_device(device: &Device, other: &Device) -> bool
    ensures { result ≡ is_same_device_of device.now other.now }
{
    is_numbered(device)
        && is_numbered(other)
        && device.number == other.number
        && same_int(device.int, other.int)
        && same_flag(device.constant, other.constant)
}

fn names_device(device: &Device, kind: &UnitKind) -> bool
    ensures { result ≡ names_device_of device.now kind.now }
{
    match kind {
        UnitKind::Device(other) => is_same_device(device, other),
        UnitKind::Object(_) => false,
        UnitKind::Func(_, _) => false,
    }
}

fn number_of(device: &Device, names: &[Declared]) -> Option<usize>
    ensures { result ≡ number_of_device device.now names.now }
{
    names.iter().position(|x| names_device(device, &x.kind))
}

fn declared_device(device: Device) -> Declared
    ensures { result ≡ declared_device_of device }
{
    Declared {
        name: None,
        linkage: Linkage::Internal,
        ctype: CType {
            constant: device.constant,
            volatile: true,
            shape: Shape::Int(device.int),
        },
        first: None,
        tentative: false,
        definitions: 0,
        kind: UnitKind::Device(device),
    }
}

/// The number of a device: the one that it has, or a new one.
fn device_number(alloc: Global, device: Device, state: &mut State) -> Result<u32, Stop>
    ensures { Gives (λ i. device_place i device) result (state_of state.new) (Gave (with_device device (state_of state.old) (number_of_device device (state_of state.old).names))) }
{
    match number_of(&device, state.names()) {
        Some(i) => match u32::try_from(i) {
            Ok(i) => Ok(i),
            Err(_) => Err(Stop::NoMemory),
        },
        None => Ok(state.declare(alloc, declared_device(device))?),
    }
}

/// The device at the address n.
fn device(
    alloc: Global,
    target: &Target,
    at: u32,
    n: i128,
    constant: bool,
    int: IntType,
    state: &mut State,
) -> Result<TypedExpr, Stop>
    ensures { Gives expr_view result (state_of state.new) (device_found target.now at n (device_of n constant int) (state_of state.old)) }
{
    if !fits_pointer(target, n) {
        return placed(at, Err(Breach::Breaks(Rule::Device)));
    }
    let Ok(number) = u64::try_from(n) else {
        return Err(Stop::NoMemory);
    };
    let device = Device {
        name: None,
        number,
        int,
        constant,
    };
    let id = device_number(alloc, device, state)?;
    Ok(place_of(
        alloc,
        Place::Device(id),
        DesignatedType::Device(constant, int),
    )?)
}

fn register(
    alloc: Global,
    target: &Target,
    at: u32,
    n: i128,
    t: &CType,
    to: &CType,
    state: &mut State,
) -> Result<TypedExpr, Stop>
    ensures { Gives expr_view result (state_of state.new) (register_found target.now at n t.now (state_of state.old) to.now (out-Shape to.now.shape)) }
{
    match &to.shape {
        Shape::Int(int) => {
            if to.volatile {
                device(alloc, target, at, n, to.constant, *int, state)
            } else {
                placed(at, no_device(alloc, n, t.copy(alloc)?))
            }
        }
        Shape::Void => placed(at, no_device(alloc, n, t.copy(alloc)?)),
        Shape::Pointer(_) => placed(at, no_device(alloc, n, t.copy(alloc)?)),
        Shape::Array(_, _) => placed(at, no_device(alloc, n, t.copy(alloc)?)),
        Shape::Struct(_) => placed(at, no_device(alloc, n, t.copy(alloc)?)),
        Shape::Func(_) => placed(at, no_device(alloc, n, t.copy(alloc)?)),
    }
}

/// `*(t)n`.
fn addressed(
    alloc: Global,
    target: &Target,
    at: u32,
    n: i128,
    t: &CType,
    state: &mut State,
) -> Result<TypedExpr, Stop>
    ensures { Gives expr_view result (state_of state.new) (address_found target.now at n t.now (state_of state.old) (out-Shape t.now.shape)) }
{
    match &t.shape {
        Shape::Pointer(to) => register(alloc, target, at, n, t, to.get(), state),
        Shape::Void => placed(at, Err(Breach::Breaks(Rule::Device))),
        Shape::Int(_) => placed(at, Err(Breach::Breaks(Rule::Device))),
        Shape::Array(_, _) => placed(at, Err(Breach::Breaks(Rule::Device))),
        Shape::Struct(_) => placed(at, Err(Breach::Breaks(Rule::Device))),
        Shape::Func(_) => placed(at, Err(Breach::Breaks(Rule::Device))),
    }
}

/// What a pointer points to, where the operand of `*` begins at this place.
fn pointed(alloc: Global, at: u32, inner: u32, x: TypedExpr) -> Result<TypedExpr, Stop>
    ensures { (s : Known) → Gives expr_view result s (and_then (valued_of inner (expr_view x) s) (λ p s. whole at s (indirection_of p))) }
{
    let p = value_of(alloc, inner, x)?;
    placed(at, indirection(alloc, p))
}

/// `*a`, where the operand begins at the second place (C99 6.5.3.2, 2).
pub fn starred(
    alloc: Global,
    target: &Target,
    at: u32,
    inner: u32,
    x: TypedExpr,
    state: &mut State,
) -> Result<TypedExpr, Stop>
    ensures { Gives expr_view result (state_of state.new) (starred_of target.now at inner (expr_view x) (state_of state.old)) }
{
    match x {
        TypedExpr::Address(n, t, _) => addressed(alloc, target, at, n, t.get(), state),
        TypedExpr::Place(place, t) => pointed(alloc, at, inner, TypedExpr::Place(place, t)),
        TypedExpr::Value(x) => pointed(alloc, at, inner, TypedExpr::Value(x)),
        TypedExpr::Function(f, sig) => pointed(alloc, at, inner, TypedExpr::Function(f, sig)),
        TypedExpr::Intrinsic(i, place) => pointed(alloc, at, inner, TypedExpr::Intrinsic(i, place)),
    }
}
