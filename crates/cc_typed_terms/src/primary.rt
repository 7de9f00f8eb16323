//! Names, constants and strings (C99 6.4.4, 6.4.5, 6.5.1).

ghost use Rattle.std.specs.Prelude.{◌≡◌, ◌++◌, ◌∷◌, [], pos, IfOk, map};
ghost use Rattle.std.specs.List.{list_all};
ghost use Rattle.std.specs.Option.{option_copied};
ghost use Rattle.std.specs.Str.{bytes_eq};
ghost use Rattle.cc_designators.specs.Designators.{IsPlace};
ghost use Rattle.cc_designators.specs.View.{expr_view};
ghost use Rattle.cc_scopes.specs.CcOperands.Verdicts.{Judges};
ghost use Rattle.cc_program.specs.declared.types.Shape.{out-Shape};
ghost use Rattle.cc_scopes.specs.Outcomes.{Gives};
ghost use Rattle.cc_scopes.specs.View.{state_of};
ghost use Rattle.cc_scopes.specs.CcSyntax.Initial.{is_zero as is_zero_of};
ghost use Rattle.cc_scopes.specs.CcSyntax.Values.{object_place as object_place_of};
ghost use Rattle.cc_typed_terms.specs.Primary.{intrinsic_named as intrinsic_named_of, is_intrinsic as is_intrinsic_of, function_by as function_by_of, linked_by as linked_by_of, linked as linked_of, designates as designates_of, named as named_of, number as number_of_spec, character as character_of, chars_type, char_leaf as char_leaf_of, leaves_or_none as leaves_or_none_of, string_found};
ghost use Rattle.cc_program.specs.declared.value.Leaf.TheVariants as leaf;

use cc_designators::{DesignatedType, TypedExpr, owned_place, placed as place_of, valued};
use cc_program::num::{Boxed, IntType, List, Name, NoMemory, Target, at};
use cc_scopes::lex::Suffix;
use cc_scopes::operands::{Breach, Rule, character_value, integer, number_type};
use cc_scopes::syntax::{CType, Intr, Leaf, Place, Roles, Shape};
use cc_scopes::typed::object_place;
use cc_scopes::{Declared, Designated, Linkage, State, Stop, UnitKind, placed};
use std::alloc::Global;

fn same(name: &[u8], other: &[u8]) -> bool
    ensures { result ≡ bytes_eq name.now other.now }
{
    name == other
}

/// The intrinsic that a name is.
pub fn intrinsic_named(roles: &Roles, x: &[u8]) -> Option<Intr>
    ensures { result ≡ intrinsic_named_of roles.now x.now }
{
    if same(x, roles.off.all()) {
        Some(Intr::Off)
    } else if same(x, roles.on.all()) {
        Some(Intr::On)
    } else if same(x, roles.save.all()) {
        Some(Intr::Save)
    } else if same(x, roles.restore.all()) {
        Some(Intr::Restore)
    } else {
        None
    }
}

/// Whether a name is an intrinsic's.
pub fn is_intrinsic(roles: &Roles, x: &[u8]) -> bool
    ensures { result ≡ is_intrinsic_of roles.now x.now }
{
    intrinsic_named(roles, x).is_some()
}

/// An object, by the place that it is.
fn object(alloc: Global, place: Place, t: &CType) -> Result<TypedExpr, NoMemory>
    ensures { IfOk result (λ r. expr_view r ≡ IsPlace place (object_place_of t.now)) }
{
    let ctype = owned_place(alloc, object_place(t))?;
    place_of(alloc, place, ctype)
}

fn function_by(alloc: Global, id: u32, t: &CType) -> Result<TypedExpr, Breach>
    ensures { Judges expr_view result (function_by_of id (out-Shape t.now.shape)) }
{
    match &t.shape {
        Shape::Func(sig) => {
            let sig = Boxed::new(alloc, sig.get().copy(alloc)?)?;
            Ok(TypedExpr::Function(id, sig))
        }
        Shape::Void => Err(Breach::Breaks(Rule::Undeclared)),
        Shape::Int(_) => Err(Breach::Breaks(Rule::Undeclared)),
        Shape::Pointer(_) => Err(Breach::Breaks(Rule::Undeclared)),
        Shape::Array(_, _) => Err(Breach::Breaks(Rule::Undeclared)),
        Shape::Struct(_) => Err(Breach::Breaks(Rule::Undeclared)),
    }
}

/// What a static object, a device or a function is.
fn linked_by(alloc: Global, id: u32, d: &Declared) -> Result<TypedExpr, Breach>
    ensures { Judges expr_view result (linked_by_of id d.now.ctype d.now.kind) }
{
    match &d.kind {
        UnitKind::Object(_) => Ok(object(alloc, Place::Static(id), &d.ctype)?),
        UnitKind::Device(device) => {
            let t = DesignatedType::Device(device.constant, device.int);
            Ok(place_of(alloc, Place::Device(id), t)?)
        }
        UnitKind::Func(_, _) => function_by(alloc, id, &d.ctype),
    }
}

fn linked(alloc: Global, id: u32, d: Option<&Declared>) -> Result<TypedExpr, Breach>
    ensures { Judges expr_view result (linked_of id (option_copied d.entry)) }
{
    match d {
        None => Err(Breach::Breaks(Rule::Undeclared)),
        Some(d) => linked_by(alloc, id, d),
    }
}

fn designates(alloc: Global, state: &State, d: Option<&Designated>) -> Result<TypedExpr, Breach>
    ensures { Judges expr_view result (designates_of (state_of state.now) (option_copied d.entry)) }
{
    match d {
        None => Err(Breach::Breaks(Rule::Undeclared)),
        Some(Designated::Linked(id)) => linked(alloc, *id, at(state.names(), *id as usize)),
        Some(Designated::Automatic(local, t)) => Ok(object(alloc, Place::Local(*local), t)?),
        Some(Designated::TypeNamed(_)) => Err(Breach::Breaks(Rule::Undeclared)),
        Some(Designated::Enumerator(n)) => {
            let value = integer(alloc, *n, IntType::Int)?;
            Ok(valued(alloc, value)?)
        }
    }
}

/// What a name is that stands at this place (C99 6.5.1, 2).
pub fn named(
    alloc: Global,
    roles: &Roles,
    at: u32,
    x: &[u8],
    state: &State,
) -> Result<TypedExpr, Breach>
    ensures { Judges expr_view result (named_of roles.now at x.now (state_of state.now)) }
{
    match intrinsic_named(roles, x) {
        Some(i) => Ok(TypedExpr::Intrinsic(i, at)),
        None => designates(alloc, state, state.designated(x)),
    }
}

/// An integer constant (C99 6.4.4.1).
pub fn number(alloc: Global, target: &Target, n: u64, suffix: Suffix) -> Result<TypedExpr, NoMemory>
    ensures { IfOk result (λ r. expr_view r ≡ number_of_spec target.now n suffix) }
{
    let value = integer(alloc, i128::from(n), number_type(target, n, suffix))?;
    valued(alloc, value)
}

/// A character (C99 6.4.4.4).
pub fn character(alloc: Global, target: &Target, byte: u8) -> Result<TypedExpr, NoMemory>
    ensures { IfOk result (λ r. expr_view r ≡ character_of target.now byte) }
{
    let value = integer(alloc, character_value(target, byte), IntType::Int)?;
    valued(alloc, value)
}

fn is_zero(leaf: &Leaf) -> bool
    ensures { result ≡ is_zero_of leaf.now }
{
    match leaf {
        Leaf::Int(n) => *n == 0,
        Leaf::Place(cc_scopes::syntax::Address::Null) => true,
        Leaf::Place(_) => false,
    }
}

fn are_zero(leaves: &[Leaf]) -> bool
    ensures { result ≡ list_all is_zero_of leaves.now }
{
    leaves.iter().all(|leaf| is_zero(leaf))
}

/// The first values of an object: none where all are zero or null.
pub fn leaves_or_none(alloc: Global, leaves: Vec<Leaf>) -> List<Leaf>
    ensures { result ≡ leaves_or_none_of leaves.items }
{
    if are_zero(leaves.as_slice()) {
        List::of(Vec::new(alloc))
    } else {
        List::of(leaves)
    }
}

/// The first values of the elements of a string.
fn string_leaves(alloc: Global, target: &Target, bytes: &[u8]) -> Result<List<Leaf>, NoMemory>
    ensures { IfOk result (λ ls. ls ≡ leaves_or_none_of (map (char_leaf_of target.now) bytes.now ++ leaf.Int (pos 0) ∷ [])) }
{
    let mut leaves = Vec::new(alloc);
    for byte in bytes {
        leaves.push(Leaf::Int(character_value(target, *byte)))?;
    }
    leaves.push(Leaf::Int(0))?;
    Ok(leaves_or_none(alloc, leaves))
}

/// An array of so many const characters.
fn string_type(alloc: Global, count: u32) -> Result<CType, NoMemory>
    ensures { IfOk result (λ t. t ≡ chars_type count) }
{
    let element = CType {
        constant: true,
        volatile: false,
        shape: Shape::Int(IntType::Char),
    };
    Ok(CType {
        constant: false,
        volatile: false,
        shape: Shape::Array(Boxed::new(alloc, element)?, count),
    })
}

/// A string that begins at this place: an object of its own (C99 6.4.5, 5).
#[tactic(auto, using(crate::proofs::Bounds::of_bounds))]
pub fn text(
    alloc: Global,
    target: &Target,
    at: u32,
    bytes: &[u8],
    state: &mut State,
) -> Result<TypedExpr, Stop>
    ensures { Gives expr_view result (state_of state.new) (string_found target.now at bytes.now (state_of state.old)) }
{
    let count = bytes.len();
    if 65_535 <= count {
        return placed(at, Err(Breach::Breaks(Rule::ArrayBound)));
    }
    let count = count as u32 + 1;
    let leaves = string_leaves(alloc, target, bytes)?;
    let string = Declared {
        name: None,
        linkage: Linkage::Internal,
        ctype: string_type(alloc, count)?,
        first: Some(at),
        tentative: false,
        definitions: 1,
        kind: UnitKind::Object(leaves),
    };
    let id = state.declare(alloc, string)?;
    let ctype = string_type(alloc, count)?;
    Ok(object(alloc, Place::Static(id), &ctype)?)
}
