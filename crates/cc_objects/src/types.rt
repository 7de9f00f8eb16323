//! The types of objects, where an initialiser may give an array its bound (C99 6.2.7, 6.7.8).

ghost use Rattle.std.specs.Prelude.{◌≡◌, IfOk};
ghost use Rattle.std.specs.Option.{option_copied};
ghost use Rattle.cc_initialisers.specs.Initialisers.{bound_given as bound_given_of};
ghost use Rattle.cc_objects.specs.Types.{element_type as element_type_of, with_bound as with_bound_of, contents_in, type_given as type_given_of, given_incomplete, bound_fits as bound_fits_of, is_complete_or_unbounded as is_complete_or_unbounded_of, is_object_in as is_object_in_of, completed_type, type_agrees as type_agrees_of, composite_of as composite_of_declared, composite_by as composite_by_number, composite as composite_of_name};
ghost use Rattle.cc_typed_terms.specs.CcOperands.Verdicts.{Judges};
ghost use Rattle.cc_program.specs.declared.types.Shape.{out-Shape};
ghost use Rattle.cc_typed_terms.specs.CcScopes.View.{state_of};
ghost use Rattle.cc_typed_terms.specs.CcSpecifiers.Declarators.{is_unbounded as is_unbounded_of, bound_or_none};
ghost use Rattle.cc_typed_terms.specs.CcSpecifiers.Bounds.{is_bound as is_bound_of};
ghost use Rattle.cc_syntax.specs.Initial.{bound_shape};
ghost use Rattle.cc_syntax.specs.SameTypes.{same_type as same_type_of};

use cc_initialisers::bound_given;
use cc_linkage::is_visible;
use cc_program::num::{Boxed, NoMemory, Target, at};
use cc_syntax::{CType, Place, Shape};
use cc_tree::{At, Given};
use cc_typed_terms::operands::{Breach, Rule};
use cc_typed_terms::scopes::{Declared, State};
use cc_typed_terms::specifiers_crate::is_object;
use cc_typed_terms::typed::{same_flag, same_shape};
use std::alloc::Global;

/// Whether it is an array without a bound.
pub fn is_unbounded(t: &CType) -> bool
    ensures { result ≡ is_unbounded_of t.now }
{
    match &t.shape {
        Shape::Array(_, n) => *n == 0,
        _ => false,
    }
}

fn element_type(t: &CType) -> &CType
    ensures { result.now ≡ element_type_of t.now }
{
    match &t.shape {
        Shape::Array(of, _) => of.get(),
        _ => t,
    }
}

/// An array of so many elements of the type of those of another.
fn with_bound(alloc: Global, t: &CType, n: u32) -> Result<CType, NoMemory>
    ensures { IfOk result (λ r. r ≡ with_bound_of t.now n) }
{
    let of = Boxed::new(alloc, element_type(t).copy(alloc)?)?;
    Ok(CType {
        constant: false,
        volatile: false,
        shape: Shape::Array(of, n),
    })
}

/// How many elements an initialiser gives to an array. So many that no `u32` counts them are as want of memory.
fn given_bound(alloc: Global, t: &CType, g: &Given, state: &State) -> Result<u32, NoMemory>
    ensures { IfOk result (λ n. n ≡ bound_given_of (contents_in (element_type_of t.now) (state_of state.now)) g.now) }
{
    let n = bound_given(alloc, state.structures(), element_type(t), g)?;
    match u32::try_from(n) {
        Ok(n) => Ok(n),
        Err(_) => Err(NoMemory),
    }
}

/// The type of an object that is declared with a type: an array without a bound has that which its initialiser gives.
pub fn type_given(
    alloc: Global,
    t: &CType,
    value: Option<&At<Given>>,
    state: &State,
) -> Result<CType, NoMemory>
    ensures { IfOk result (λ u. u ≡ type_given_of t.now (option_copied value.entry) (state_of state.now)) }
{
    let Some(g) = value else {
        return t.copy(alloc);
    };
    if is_unbounded(t) {
        let n = given_bound(alloc, t, &g.node, state)?;
        with_bound(alloc, t, n)
    } else {
        t.copy(alloc)
    }
}

/// An array whose initialiser gives its bound is incomplete from now on.
pub fn set_incomplete(t: &CType, place: Place, state: &mut State)
    ensures { state_of state.new ≡ given_incomplete t.now place (state_of state.old) }
{
    if is_unbounded(t) {
        state.set_unfinished(Some(place));
    }
}

fn is_bound(n: u32) -> bool
    ensures { result ≡ is_bound_of n }
{
    1 <= n && n <= 65535
}

fn bound_or_zero(t: &CType) -> u32
    ensures { result ≡ bound_or_none (bound_shape (out-Shape t.now.shape)) }
{
    match &t.shape {
        Shape::Array(_, n) => *n,
        Shape::Void => 0,
        Shape::Int(_) => 0,
        Shape::Pointer(_) => 0,
        Shape::Struct(_) => 0,
        Shape::Func(_) => 0,
    }
}

/// A bound that an initialiser gives is one that an array may have.
fn bound_fits(t: &CType, u: &CType) -> Result<(), Breach>
    ensures { Judges (λ done. u.now) result (bound_fits_of t.now u.now) }
{
    if !is_unbounded(t) || is_bound(bound_or_zero(u)) {
        Ok(())
    } else {
        Err(Breach::Breaks(Rule::ArrayBound))
    }
}

fn is_object_in(target: &Target, state: &State, t: &CType) -> bool
    ensures { result ≡ is_object_in_of target.now (state_of state.now) t.now }
{
    is_object(t, state.structures(), state.layouts(), target)
}

/// Whether an object may be declared with the type, where its initialiser may give it a bound.
pub fn is_complete_or_unbounded(target: &Target, state: &State, t: &CType) -> bool
    ensures { result ≡ is_complete_or_unbounded_of target.now (state_of state.now) t.now }
{
    is_unbounded(t) || is_object_in(target, state, t)
}

/// An object that is declared with the first type may have the second (C99 6.7, 7).
pub fn completed(target: &Target, t: &CType, u: &CType, state: &State) -> Result<(), Breach>
    ensures { Judges (λ done. u.now) result (completed_type target.now t.now u.now (state_of state.now)) }
{
    bound_fits(t, u)?;
    if is_object_in(target, state, u) {
        Ok(())
    } else {
        Err(Breach::Breaks(Rule::NoObjectType))
    }
}

/// Whether two types are the same one, with their qualifiers.
#[tactic(auto, unfolding(cc_syntax::specs::SameTypes::comparison_of, cc_syntax::specs::SameTypes::shape_comparison))]
pub fn same_type(t: &CType, u: &CType) -> bool
    ensures { result ≡ same_type_of t.now u.now }
{
    same_flag(t.constant, u.constant)
        && same_flag(t.volatile, u.volatile)
        && same_shape(&t.shape, &u.shape)
}

/// A type is that of the other declarations.
pub fn type_agrees(u: &CType, d: Option<&Declared>) -> Result<(), Breach>
    ensures { Judges (λ done. u.now) result (type_agrees_of u.now (option_copied d.entry)) }
{
    let Some(d) = d else {
        return Ok(());
    };
    if same_type(u, &d.ctype) {
        Ok(())
    } else {
        Err(Breach::Breaks(Rule::DeclaredTwice))
    }
}

fn composite_of(
    alloc: Global,
    t: &CType,
    visible: bool,
    d: Option<&Declared>,
) -> Result<CType, NoMemory>
    ensures { IfOk result (λ u. u ≡ composite_of_declared t.now visible (option_copied d.entry)) }
{
    let Some(d) = d else {
        return t.copy(alloc);
    };
    if visible && is_unbounded(t) {
        d.ctype.copy(alloc)
    } else {
        t.copy(alloc)
    }
}

/// The type of a name with linkage that is declared with a type (C99 6.2.7, 4).
pub fn composite(alloc: Global, x: &[u8], t: &CType, state: &State) -> Result<CType, NoMemory>
    ensures { IfOk result (λ u. u ≡ composite_of_name x.now t.now (state_of state.now)) }
{
    match state.linked_name(x) {
        None => t.copy(alloc),
        Some(id) => {
            let visible = is_visible(state, id, x);
            composite_of(alloc, t, visible, at(state.names(), id as usize))
        }
    }
}
