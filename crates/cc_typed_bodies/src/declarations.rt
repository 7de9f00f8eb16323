//! Declarations (C99 6.7).

ghost use Rattle.std.specs.Prelude.{◌≡◌, ◌++◌, IfOk, OnOk};
ghost use Rattle.std.specs.Option.{option_copied};
ghost use Rattle.cc_scopes.specs.Outcomes.{Gives};
ghost use Rattle.cc_scopes.specs.View.{state_of};
ghost use Rattle.cc_scopes.specs.State.{State as Known};
ghost use Rattle.cc_objects.specs.Categories.{entity_of};
ghost use Rattle.cc_typed_bodies.specs.Declarations.{marked, init_allowed as init_allowed_of, declared_left as declared_left_of, declared_with as declared_with_of, named_found, init_found as init_found_of, inits_found as inits_found_of, declaration as declaration_of};

use crate::automatic::automatic_left;
use crate::functions::{function_left, typedef_left};
use crate::linked::linked_left;
use crate::statics::static_left;
use cc_objects::{
    Category, alias, category_of, declare_in_front, is_function_type, name_judged, setting_of,
};
use cc_program::copy_list;
use cc_program::num::{List, Name, NoMemory, Target};
use cc_scopes::{State, Stop, placed};
use cc_terms::specifiers_crate::{Allowed, Attribute, Specified, Where, attributes, entry_by};
use cc_terms::syntax::{CType, Expr, Roles};
use cc_terms::{declr, specified};
use cc_tree::{At, Decl, Given, Init};
use cc_typed_terms::{derived_type, located};
use std::alloc::Global;

fn init_allowed(i: &Init) -> Allowed
    ensures { result ≡ init_allowed_of i.now }
{
    Allowed {
        unbounded: i.value.is_some(),
        void: false,
        unnamed: true,
    }
}

/// What is left of a declarator, with what its attributes say.
fn declared_left(
    at: u32,
    category: Category,
    x: &Name,
    t: CType,
    marks: &[At<List<Attribute>>],
    value: Option<&At<Given>>,
    defined: &[Name],
    alloc: Global,
    target: &Target,
    roles: &Roles,
    state: &mut State,
) -> Result<List<Expr>, Stop>
    ensures { Gives (λ es. es) result (state_of state.new) (declared_left_of target.now roles.now defined.now at category x.now t marks.now (option_copied value.entry) (state_of state.old)) }
{
    match category {
        Category::Typedef => typedef_left(at, x, t, marks, alloc, target, state),
        Category::Function(asked) => {
            function_left(asked, x, t, marks, value, alloc, target, roles, state)
        }
        Category::Linked(asked) => {
            linked_left(
                at, asked, x, &t, value, defined, alloc, target, roles, state,
            )
        }
        Category::StaticLocal => static_left(at, x, &t, value, alloc, target, roles, state),
        Category::Automatic => automatic_left(at, x, &t, value, alloc, target, roles, state),
    }
}

#[tactic(auto, using(cc_scopes::proofs::Outcomes::of_outcomes))]
fn declared_with(
    at: u32,
    category: Category,
    x: &Name,
    t: CType,
    marks: &[At<List<Attribute>>],
    value: Option<&At<Given>>,
    defined: &[Name],
    alloc: Global,
    target: &Target,
    roles: &Roles,
    state: &mut State,
) -> Result<List<Expr>, Stop>
    ensures { Gives (λ es. es) result (state_of state.new) (declared_with_of target.now roles.now defined.now at category x.now t marks.now (option_copied value.entry) (state_of state.old)) }
{
    let entry = entry_by(marks);
    placed(
        at,
        name_judged(alloc, target, roles, category, x.all(), &t, entry, state),
    )?;
    declared_left(
        at, category, x, t, marks, value, defined, alloc, target, roles, state,
    )
}

/// Attributes of the specifiers, and behind them those of a declarator.
pub fn joined(
    alloc: Global,
    before: &[At<List<Attribute>>],
    marks: List<At<List<Attribute>>>,
) -> Result<List<At<List<Attribute>>>, NoMemory>
    ensures { IfOk result (λ ms. ms ≡ before.now ++ marks) }
{
    let mut all = Vec::new(alloc);
    for m in before {
        all.push(At {
            at: m.at,
            node: copy_list(alloc, &m.node)?,
        })?;
    }
    for m in marks.into_vec() {
        all.push(m)?;
    }
    Ok(List::of(all))
}

/// The attributes of a declarator, behind those of the specifiers.
#[tactic(auto, using(cc_typed_terms::proofs::Placed::of_placed))]
fn marks_of(
    category: Category,
    before: &[At<List<Attribute>>],
    i: &Init,
    alloc: Global,
) -> Result<List<At<List<Attribute>>>, Stop>
    ensures { (s : Known) → Gives (λ ms. ms) result s (marked (entity_of category) before.now i.now s) }
{
    let entities = [category.entity()];
    let marks = located(attributes(alloc, &entities, i.attrs.all()))?;
    Ok(joined(alloc, before, marks)?)
}

/// What is declared by a name, if any, with the type.
fn named(
    at: u32,
    category: Category,
    t: CType,
    before: &[At<List<Attribute>>],
    i: &Init,
    name: Option<Name>,
    defined: &[Name],
    alloc: Global,
    target: &Target,
    roles: &Roles,
    state: &mut State,
) -> Result<List<Expr>, Stop>
    ensures { Gives (λ es. es) result (state_of state.new) (named_found target.now roles.now defined.now at category t before.now i.now name (state_of state.old)) }
{
    let Some(x) = name else {
        return Ok(List::of(Vec::new(alloc)));
    };
    let marks = marks_of(category, before, i, alloc)?;
    let value = i.value.as_ref();
    declared_with(
        at,
        category,
        &x,
        t,
        marks.all(),
        value,
        defined,
        alloc,
        target,
        roles,
        state,
    )
}

/// A declarator, with what it is given at first.
#[tactic(auto, using(cc_scopes::proofs::Outcomes::of_outcomes))]
fn init(
    place: Where,
    base: &Specified,
    i: &At<Init>,
    defined: &[Name],
    alloc: Global,
    target: &Target,
    roles: &Roles,
    state: &mut State,
) -> Result<List<Expr>, Stop>
    ensures { Gives (λ es. es) result (state_of state.new) (init_found_of target.now roles.now defined.now place base.now i.now (state_of state.old)) }
{
    let d = &i.node.declr;
    let allowed = init_allowed(&i.node);
    let x = declr(&d.node, d.at, allowed, alloc, target, roles, state)?;
    let t = derived_type(alloc, target, allowed, base.ctype.copy(alloc)?, &x, state)?;
    let function = is_function_type(&base.ctype);
    let category = category_of(place, base.specs.storage, function, &d.node);
    let before = base.specs.marks.all();
    named(
        i.at, category, t, before, &i.node, x.name, defined, alloc, target, roles, state,
    )
}

/// The declarators of a declaration, one behind another.
#[tactic(auto, using(cc_terms::proofs::InTurn::of_turns))]
fn inits(
    place: Where,
    base: &Specified,
    all: &[At<Init>],
    defined: &[Name],
    alloc: Global,
    target: &Target,
    roles: &Roles,
    state: &mut State,
) -> Result<List<Expr>, Stop>
    ensures { Gives (λ es. es) result (state_of state.new) (inits_found_of target.now roles.now defined.now place base.now all.now (state_of state.old)) }
{
    let mut out = Vec::new(alloc);
    for i in all {
        let more = init(place, base, i, defined, alloc, target, roles, state)?;
        append(more, &mut out)?;
    }
    Ok(List::of(out))
}

fn append(more: List<Expr>, out: &mut Vec<Expr>) -> Result<(), NoMemory>
    ensures { OnOk result (out.new.items ≡ out.old.items ++ more) }
{
    for e in more.into_vec() {
        out.push(e)?;
    }
    Ok(())
}

/// A declaration (C99 6.7): what it leaves known, and the assignments by which automatic objects are initialised. The
/// names are those of the objects that the unit defines.
#[tactic(auto, unfolding(crate::specs::Declarations::declaration))]
pub fn declaration(
    place: Where,
    d: &Decl,
    defined: &[Name],
    alloc: Global,
    target: &Target,
    roles: &Roles,
    state: &mut State,
) -> Result<List<Expr>, Stop>
    ensures { Gives (λ es. es) result (state_of state.new) (declaration_of target.now roles.now defined.now place d.now (state_of state.old)) }
{
    let setting = setting_of(alloc, place, d, state)?;
    declare_in_front(alloc, d, state)?;
    let base = specified(&d.specs, &setting, alloc, target, roles, state)?;
    alias(alloc, d, &base, state)?;
    inits(
        place,
        &base,
        d.inits.all(),
        defined,
        alloc,
        target,
        roles,
        state,
    )
}
