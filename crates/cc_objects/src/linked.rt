//! What declarations leave known of objects, their initialisers aside (C99 6.2.4, 6.7, 6.9.2).

ghost use Rattle.std.specs.Prelude.{◌≡◌, [], Some as SomeOf, IfOk, length};
ghost use Rattle.std.specs.List.{list_any};
ghost use Rattle.std.specs.Str.{bytes_eq};
ghost use Rattle.cc_objects.specs.Linked.{device_by, is_extern as is_extern_of, object_kind as object_kind_of, object_declared, static_object as static_object_of, with_static, with_automatic};
ghost use Rattle.cc_program.specs.declared.types.Shape.{out-Shape};
ghost use Rattle.cc_typed_terms.specs.CcScopes.View.{state_of};

use cc_linkage::{DeclaredAs, declare_linked};
use cc_program::copy_list;
use cc_program::num::{IntType, List, Name, NoMemory};
use cc_syntax::{CType, Device, Shape};
use cc_typed_terms::operands::without_const;
use cc_typed_terms::scopes::{Declared, Designated, Linkage, State, UnitKind};
use std::alloc::Global;

fn no_values(alloc: Global) -> UnitKind
    ensures { result ≡ UnitKind.Object [] }
{
    UnitKind::Object(List::of(Vec::new(alloc)))
}

fn named_device(alloc: Global, x: &Name, int: IntType, constant: bool) -> Result<UnitKind, NoMemory>
    ensures { IfOk result (λ k. k ≡ UnitKind.Device (record { name = SomeOf x.now; number = 0; int = int; constant = constant })) }
{
    Ok(UnitKind::Device(Device {
        name: Some(copy_list(alloc, x)?),
        number: 0,
        int,
        constant,
    }))
}

/// What an object is of which the flag says that it is declared by `extern`, and not defined here.
fn kind_by(alloc: Global, x: &Name, t: &CType, absent: bool) -> Result<UnitKind, NoMemory>
    ensures { IfOk result (λ k. k ≡ device_by x.now t.now absent (out-Shape t.now.shape)) }
{
    match &t.shape {
        Shape::Int(int) => {
            if absent && t.volatile {
                named_device(alloc, x, *int, t.constant)
            } else {
                Ok(no_values(alloc))
            }
        }
        _ => Ok(no_values(alloc)),
    }
}

fn is_extern(asked: DeclaredAs) -> bool
    ensures { result ≡ is_extern_of asked }
{
    match asked {
        DeclaredAs::AsExtern => true,
        DeclaredAs::AsStatic => false,
        DeclaredAs::AsObject => false,
    }
}

fn same(name: &[u8], other: &[u8]) -> bool
    ensures { result ≡ bytes_eq name.now other.now }
{
    name == other
}

fn is_among(x: &[u8], names: &[Name]) -> bool
    ensures { result ≡ list_any (bytes_eq x.now) names.now }
{
    names.iter().any(|y| same(x, y.all()))
}

/// An object or, where it is an extern volatile integer that the unit does not define, a device.
fn object_kind(
    alloc: Global,
    defined: &[Name],
    asked: DeclaredAs,
    x: &Name,
    t: &CType,
) -> Result<UnitKind, NoMemory>
    ensures { IfOk result (λ k. k ≡ object_kind_of defined.now asked x.now t.now) }
{
    let absent = is_extern(asked) && !is_among(x.all(), defined);
    kind_by(alloc, x, t, absent)
}

/// An object with linkage is declared, of this type; with its number. The names are those of the objects that the unit
/// defines.
pub fn declare_object(
    alloc: Global,
    defined: &[Name],
    asked: DeclaredAs,
    x: &Name,
    t: &CType,
    state: &mut State,
) -> Result<u32, NoMemory>
    ensures { IfOk result (λ i. (i, state_of state.new) ≡ object_declared defined.now asked x.now t.now (state_of state.old)) }
{
    let kind = object_kind(alloc, defined, asked, x, t)?;
    declare_linked(state, alloc, x, asked, t.copy(alloc)?, kind)
}

fn static_object(alloc: Global, at: u32, x: &Name, t: &CType) -> Result<Declared, NoMemory>
    ensures { IfOk result (λ d. d ≡ static_object_of at x.now t.now) }
{
    Ok(Declared {
        name: Some(copy_list(alloc, x)?),
        linkage: Linkage::Local,
        ctype: t.copy(alloc)?,
        first: Some(at),
        tentative: false,
        definitions: 1,
        kind: no_values(alloc),
    })
}

/// A static object of a block is declared, at this offset; with its number.
pub fn declare_static(
    alloc: Global,
    at: u32,
    x: &Name,
    t: &CType,
    state: &mut State,
) -> Result<u32, NoMemory>
    ensures number { IfOk result (λ i. i ≡ length (state_of state.old).names) }
    ensures state { IfOk result (λ i. state_of state.new ≡ with_static at x.now t.now (state_of state.old)) }
{
    let d = static_object(alloc, at, x, t)?;
    let id = state.declare(alloc, d)?;
    state.bind(alloc, x.all(), Designated::Linked(id))?;
    Ok(id)
}

/// An automatic object is declared; with its number.
pub fn declare_automatic(
    alloc: Global,
    x: &Name,
    t: &CType,
    state: &mut State,
) -> Result<u32, NoMemory>
    ensures number { IfOk result (λ i. i ≡ length (state_of state.old).locals) }
    ensures state { IfOk result (λ i. state_of state.new ≡ with_automatic x.now t.now (state_of state.old)) }
{
    let name = copy_list(alloc, x)?;
    let id = state.add_local(name, without_const(alloc, t)?)?;
    state.bind(alloc, x.all(), Designated::Automatic(id, t.copy(alloc)?))?;
    Ok(id)
}
