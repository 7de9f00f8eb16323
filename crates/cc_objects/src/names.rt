//! Which name may be declared so (C99 6.7, 3; 6.9).

ghost use Rattle.std.specs.Prelude.{◌≡◌, IfOk};
ghost use Rattle.cc_typed_terms.specs.Names.{new_name as new_name_of};
ghost use Rattle.cc_typed_terms.specs.CcDesignators.Calls.{byte_type as byte_type_of, intrinsic_signature as intrinsic_signature_of};
ghost use Rattle.cc_objects.specs.Names.{function_judged as function_judged_of, is_prototype as is_prototype_of, prototype_judged as prototype_judged_of, object_judged as object_judged_of, linked_judged as linked_judged_of, typedef_judged as typedef_judged_of, local_judged as local_judged_of, name_judged as name_judged_of};
ghost use Rattle.cc_typed_terms.specs.CcOperands.Qualified.{plain as plain_of};
ghost use Rattle.cc_typed_terms.specs.CcOperands.Verdicts.{Judges};
ghost use Rattle.cc_typed_terms.specs.CcScopes.View.{state_of};

use crate::category::Category;
use crate::types::{is_complete_or_unbounded, same_type};
use cc_linkage::{DeclaredAs, may_be_declared, may_be_main};
use cc_program::num::{Boxed, IntType, List, NoMemory, Target};
use cc_syntax::{CType, Entry, Intr, Roles, Shape, Sig};
use cc_typed_terms::operands::{Breach, Rule};
use cc_typed_terms::scopes::State;
use cc_typed_terms::{intrinsic_named, is_intrinsic, new_name};
use std::alloc::Global;

/// A name may be declared as a function of the type.
pub fn function_judged(asked: DeclaredAs, x: &[u8], t: &CType, state: &State) -> Result<(), Breach>
    ensures { Judges (λ done. t.now) result (function_judged_of asked x.now t.now (state_of state.now)) }
{
    if !may_be_main(x, t) {
        return Err(Breach::Breaks(Rule::MainOrIntrinsic));
    }
    if !may_be_declared(state, asked, x, t) {
        return Err(Breach::Breaks(Rule::DeclaredTwice));
    }
    Ok(())
}

fn plain(shape: Shape) -> CType
    ensures { result ≡ plain_of shape }
{
    CType {
        constant: false,
        volatile: false,
        shape,
    }
}

fn byte_type() -> CType
    ensures { result ≡ byte_type_of }
{
    plain(Shape::Int(IntType::UChar))
}

/// The prototype of an intrinsic: what `Save` gives, `Restore` takes.
fn intrinsic_signature(alloc: Global, i: Intr) -> Result<Sig, NoMemory>
    ensures { IfOk result (λ sig. sig ≡ intrinsic_signature_of i) }
{
    let mut params = Vec::new(alloc);
    let result = match i {
        Intr::Off => plain(Shape::Void),
        Intr::On => plain(Shape::Void),
        Intr::Save => byte_type(),
        Intr::Restore => {
            params.push(byte_type())?;
            plain(Shape::Void)
        }
    };
    Ok(Sig {
        result,
        params: List::of(params),
    })
}

fn is_prototype(alloc: Global, t: &CType, i: Option<Intr>) -> Result<bool, NoMemory>
    ensures { IfOk result (λ good. good ≡ is_prototype_of t.now i) }
{
    match i {
        None => Ok(false),
        Some(i) => {
            let sig = Boxed::new(alloc, intrinsic_signature(alloc, i)?)?;
            Ok(same_type(t, &plain(Shape::Func(sig))))
        }
    }
}

/// A name may be declared as a function, or as the intrinsic that it is, by its prototype alone, static or not.
fn prototype_judged(
    alloc: Global,
    roles: &Roles,
    asked: DeclaredAs,
    x: &[u8],
    t: &CType,
    entry: Option<Entry>,
    state: &State,
) -> Result<(), Breach>
    ensures { Judges (λ done. t.now) result (prototype_judged_of roles.now asked x.now t.now entry (state_of state.now)) }
{
    if !is_intrinsic(roles, x) {
        return function_judged(asked, x, t, state);
    }
    let good = is_prototype(alloc, t, intrinsic_named(roles, x))?;
    if good && entry.is_none() {
        Ok(())
    } else {
        Err(Breach::Breaks(Rule::MainOrIntrinsic))
    }
}

fn object_judged(
    target: &Target,
    roles: &Roles,
    x: &[u8],
    t: &CType,
    state: &State,
) -> Result<(), Breach>
    ensures { Judges (λ done. t.now) result (object_judged_of target.now roles.now x.now t.now (state_of state.now)) }
{
    if is_intrinsic(roles, x) {
        return Err(Breach::Breaks(Rule::MainOrIntrinsic));
    }
    if is_complete_or_unbounded(target, state, t) {
        Ok(())
    } else {
        Err(Breach::Breaks(Rule::NoObjectType))
    }
}

fn linked_judged(
    target: &Target,
    roles: &Roles,
    asked: DeclaredAs,
    x: &[u8],
    t: &CType,
    state: &State,
) -> Result<(), Breach>
    ensures { Judges (λ done. t.now) result (linked_judged_of target.now roles.now asked x.now t.now (state_of state.now)) }
{
    object_judged(target, roles, x, t, state)?;
    function_judged(asked, x, t, state)
}

fn typedef_judged(roles: &Roles, x: &[u8], t: &CType, state: &State) -> Result<(), Breach>
    ensures { Judges (λ done. t.now) result (typedef_judged_of roles.now x.now t.now (state_of state.now)) }
{
    new_name(roles, x, state)
}

fn local_judged(
    target: &Target,
    roles: &Roles,
    x: &[u8],
    t: &CType,
    state: &State,
) -> Result<(), Breach>
    ensures { Judges (λ done. t.now) result (local_judged_of target.now roles.now x.now t.now (state_of state.now)) }
{
    object_judged(target, roles, x, t, state)?;
    typedef_judged(roles, x, t, state)
}

/// A name may be declared so with the type, and with attributes that make it such a handler, if any.
pub fn name_judged(
    alloc: Global,
    target: &Target,
    roles: &Roles,
    category: Category,
    x: &[u8],
    t: &CType,
    entry: Option<Entry>,
    state: &State,
) -> Result<(), Breach>
    ensures { Judges (λ done. t.now) result (name_judged_of target.now roles.now category x.now t.now entry (state_of state.now)) }
{
    match category {
        Category::Typedef => typedef_judged(roles, x, t, state),
        Category::Function(asked) => prototype_judged(alloc, roles, asked, x, t, entry, state),
        Category::Linked(asked) => linked_judged(target, roles, asked, x, t, state),
        Category::StaticLocal => local_judged(target, roles, x, t, state),
        Category::Automatic => local_judged(target, roles, x, t, state),
    }
}
