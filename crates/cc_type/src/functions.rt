//! Function definitions (C99 6.9.1).

ghost use Rattle.std.specs.Prelude.{◌≡◌, length, IfOk, OnOk};
ghost use Rattle.cc_scopes.specs.Outcomes.{Gives};
ghost use Rattle.cc_scopes.specs.Verdicts.{checked};
ghost use Rattle.cc_scopes.specs.View.{state_of};
ghost use Rattle.cc_type.specs.Functions.{function_defined, function_body_found, function_entered as function_entered_of, judged_function as judged_function_of, named_function as named_function_of, function_found};

use crate::signature::{asked_by, definition_judged, entry_at, locals_of, marks_of, signature_of};
use cc_program::copy_list;
use cc_program::num::{Boxed, List, Name, NoMemory, Target};
use cc_scopes::{Scope, State, Stop, placed};
use cc_terms::{declr, specified};
use cc_tree::{At, Attr, Declr, Line, Spec};
use cc_typed_bodies::linkage::{DeclaredAs, declare_linked};
use cc_typed_bodies::specifiers::{
    Allowed, Derivation, Entity, Parameter, Setting, Specified, Where, entry_by,
};
use cc_typed_bodies::syntax::{CType, Entry, Func, Roles, Sig, Stmt};
use cc_typed_bodies::typed_statements::Jumps;
use cc_typed_bodies::unit::UnitKind;
use cc_typed_bodies::{Function, lines};
use cc_typed_terms::derived_type;
use std::alloc::Global;

/// How many parameters there are.
fn count_of(parameters: &[(Name, CType)]) -> Result<u32, NoMemory>
    ensures { IfOk result (λ n. n ≡ length parameters.now) }
{
    match u32::try_from(parameters.len()) {
        Ok(count) => Ok(count),
        Err(_) => Err(NoMemory),
    }
}

/// What a function definition leaves known behind its body.
fn defined(
    at: u32,
    id: u32,
    name: &Name,
    t: &CType,
    sig: Sig,
    params: u32,
    body: List<Stmt>,
    alloc: Global,
    state: &mut State,
) -> Result<(), NoMemory>
    ensures { OnOk result (state_of state.new ≡ function_defined at id name.now t.now sig params body (state_of state.old)) }
{
    let locals = state.replace_locals(List::of(Vec::new(alloc)));
    let f = Func {
        name: copy_list(alloc, name)?,
        sig,
        entry: None,
        params,
        locals,
        body,
    };
    let kind = UnitKind::Func(entry_at(id, state), Some(Boxed::new(alloc, f)?));
    state.define(id, at, t.copy(alloc)?, kind)?;
    state.leave(alloc);
    Ok(())
}

/// The body of a function that is declared with this number.
fn function_body(
    at: u32,
    id: u32,
    name: &Name,
    t: &CType,
    sig: Sig,
    locals: List<(Name, CType)>,
    scope: Scope,
    body: &List<At<Line>>,
    defined_names: &[Name],
    alloc: Global,
    target: &Target,
    roles: &Roles,
    state: &mut State,
) -> Result<(), Stop>
    ensures { Gives (λ done. checked) result (state_of state.new) (function_body_found target.now roles.now defined_names.now at name.now t.now sig locals scope body.now (id, state_of state.old)) }
{
    let params = count_of(locals.all())?;
    state.replace_locals(locals);
    state.enter(scope)?;
    let f = Function {
        target,
        roles,
        defined: defined_names,
        result: &sig.result,
    };
    let statements = lines(body, Jumps::none(), alloc, f, state)?;
    defined(at, id, name, t, sig, params, statements, alloc, state)?;
    Ok(())
}

/// A function is declared with its attributes, and its body is read.
fn function_entered(
    at: u32,
    asked: DeclaredAs,
    name: &Name,
    t: &CType,
    entry: Option<Entry>,
    parameters: List<Parameter>,
    scope: Scope,
    body: &List<At<Line>>,
    defined_names: &[Name],
    alloc: Global,
    target: &Target,
    roles: &Roles,
    state: &mut State,
) -> Result<(), Stop>
    ensures { Gives (λ done. checked) result (state_of state.new) (function_entered_of target.now roles.now defined_names.now at asked name.now t.now entry (parameters, scope) body.now (state_of state.old)) }
{
    let kind = UnitKind::Func(None, None);
    let id = declare_linked(state, alloc, name, asked, t.copy(alloc)?, kind)?;
    state.add_entry(alloc, id, entry);
    let sig = signature_of(alloc, t)?;
    let locals = locals_of(alloc, parameters)?;
    function_body(
        at,
        id,
        name,
        t,
        sig,
        locals,
        scope,
        body,
        defined_names,
        alloc,
        target,
        roles,
        state,
    )
}

/// A function of this name is defined where it may be.
#[tactic(auto, using(cc_scopes::proofs::Outcomes::of_outcomes))]
fn judged_function(
    at: u32,
    asked: DeclaredAs,
    name: &Name,
    t: &CType,
    ds: List<At<Derivation<Scope>>>,
    entry: Option<Entry>,
    body: &List<At<Line>>,
    defined_names: &[Name],
    alloc: Global,
    target: &Target,
    roles: &Roles,
    state: &mut State,
) -> Result<(), Stop>
    ensures { Gives (λ done. checked) result (state_of state.new) (judged_function_of target.now roles.now defined_names.now at asked name.now t.now ds entry body.now (state_of state.old)) }
{
    let judged = definition_judged(roles, asked, name, t, ds, state);
    let (parameters, scope) = placed(at, judged)?;
    function_entered(
        at,
        asked,
        name,
        t,
        entry,
        parameters,
        scope,
        body,
        defined_names,
        alloc,
        target,
        roles,
        state,
    )
}

/// A function definition, by its name and its type.
fn named_function(
    at: u32,
    base: &Specified,
    t: &CType,
    ds: List<At<Derivation<Scope>>>,
    attrs: &List<At<Attr>>,
    body: &List<At<Line>>,
    name: Option<Name>,
    defined_names: &[Name],
    alloc: Global,
    target: &Target,
    roles: &Roles,
    state: &mut State,
) -> Result<(), Stop>
    ensures { Gives (λ done. checked) result (state_of state.new) (named_function_of target.now roles.now defined_names.now at base.now t.now ds attrs.now body.now name (state_of state.old)) }
{
    let Some(name) = name else {
        return Ok(());
    };
    let marks = marks_of(alloc, base.specs.marks.all(), attrs.all())?;
    let asked = asked_by(base.specs.storage);
    let entry = entry_by(marks.all());
    judged_function(
        at,
        asked,
        &name,
        t,
        ds,
        entry,
        body,
        defined_names,
        alloc,
        target,
        roles,
        state,
    )
}

/// A function definition (C99 6.9.1).
pub fn function(
    specs: &List<At<Spec>>,
    d: &At<Declr>,
    attrs: &List<At<Attr>>,
    body: &List<At<Line>>,
    defined_names: &[Name],
    alloc: Global,
    target: &Target,
    roles: &Roles,
    state: &mut State,
) -> Result<(), Stop>
    ensures { Gives (λ done. checked) result (state_of state.new) (function_found target.now roles.now defined_names.now specs.now d.now attrs.now body.now (state_of state.old)) }
{
    let setting = Setting::of(alloc, Where::OfDefinition, Entity::Function)?;
    let base = specified(specs, &setting, alloc, target, roles, state)?;
    let allowed = Allowed::in_definition();
    let x = declr(&d.node, d.at, allowed, alloc, target, roles, state)?;
    let t = derived_type(alloc, target, allowed, base.ctype.copy(alloc)?, &x, state)?;
    named_function(
        d.at,
        &base,
        &t,
        x.derivations,
        attrs,
        body,
        x.name,
        defined_names,
        alloc,
        target,
        roles,
        state,
    )
}
