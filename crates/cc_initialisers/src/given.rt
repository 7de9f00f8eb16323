//! Initialisers as they are written: strings, and the expressions in them (C99 6.7.8, 14).

ghost use Rattle.std.specs.Prelude.{◌≡◌, ◌++◌, IfOk, OnOk, map};
ghost use Rattle.std.specs.Option.{option_copied};
ghost use Rattle.cc_initialisers.specs.Initialisers.{text_in as text_in_of, string_for as string_for_of, initialiser_of, here, refused_by, nothing_left as nothing_left_of, expression_text as expression_text_of};
ghost use Rattle.cc_initialisers.specs.View.{content_view, step_view, steps_of};
ghost use Rattle.cc_operands.specs.declared.rule.Rule.TheVariants as rule;
ghost use Rattle.cc_tree.specs.declared.tree.Tree.{out-Tree};

use crate::content::Content;
use crate::step::{Step, put, put_breach};
use cc_operands::Rule;
use cc_program::num::NoMemory;
use cc_tree::{At, Given, Tree};
use std::alloc::Global;

/// The bytes of a string.
fn text_in(e: &Tree) -> Option<&[u8]>
    ensures { option_copied result ≡ text_in_of (out-Tree e.now) }
{
    match e {
        Tree::Text(bytes) => Some(bytes.all()),
        _ => None,
    }
}

/// The bytes of a string alone.
#[tactic(auto, using(crate::proofs::Layers::of_layers))]
fn expression_text(g: &Given) -> Option<&[u8]>
    ensures { option_copied result ≡ expression_text_of (initialiser_of g.now) }
{
    match g {
        Given::One(e) => text_in(&e.node),
        Given::Many(_) => None,
    }
}

/// The bytes of a string alone, in braces or not.
#[tactic(auto, using(crate::proofs::Layers::of_layers))]
pub fn text(g: &Given) -> Option<&[u8]>
    ensures { option_copied result ≡ (initialiser_of g.now).text }
{
    match g {
        Given::One(e) => text_in(&e.node),
        Given::Many(gs) => match gs.all() {
            [] => None,
            [g] => expression_text(&g.node),
            [_, _, ..] => None,
        },
    }
}

/// The string that initialises an object, if one does (C99 6.7.8, 14).
pub fn string_for<'p>(object: Content, g: &'p Given) -> Option<&'p [u8]>
    ensures { option_copied result ≡ string_for_of (content_view object.entry) (initialiser_of g.now).text }
{
    if object.takes_text() { text(g) } else { None }
}

/// Takes its expressions as values.
#[cycle(visits)]
#[tactic(auto, using(crate::proofs::Layers::of_layers))]
fn visit<'p>(g: &'p Given, out: &mut Vec<Step<'p>>) -> Result<(), NoMemory>
    ensures { OnOk result (steps_of out.new ≡ steps_of out.old ++ (initialiser_of g.now).visited) }
{
    match g {
        Given::One(e) => put(Step::Visit(e), out),
        Given::Many(gs) => {
            for g in gs.all() {
                visit(&g.node, out)?;
            }
            Ok(())
        }
    }
}

/// An initialiser that may not stand there: its expressions are taken as values before it breaks the rule.
#[tactic(auto, using(crate::proofs::Steps::of_steps))]
pub fn refuse<'p>(g: &'p At<Given>, broken: Rule, out: &mut Vec<Step<'p>>) -> Result<(), NoMemory>
    ensures { OnOk result (steps_of out.new ≡ steps_of out.old ++ refused_by broken (here g.now)) }
{
    visit(&g.node, out)?;
    put_breach(g.at, broken, out)
}

/// Of a list in braces nothing is left (C99 6.7.8, 2).
#[tactic(auto, using(crate::proofs::Steps::of_steps))]
pub fn nothing_left<'p>(gs: &'p [At<Given>], out: &mut Vec<Step<'p>>) -> Result<(), NoMemory>
    ensures { OnOk result (steps_of out.new ≡ steps_of out.old ++ nothing_left_of (map here gs.now)) }
{
    match gs {
        [] => Ok(()),
        [g, ..] => refuse(g, Rule::TooManyInitialisers, out),
    }
}

/// What is done for the initialiser of what takes none, such as a function: its expressions are taken as values, and
/// it breaks the rule on the shape of initialisers.
#[tactic(auto, using(crate::proofs::Steps::of_steps), unfolding(crate::specs::View::steps_of))]
pub fn refused(alloc: Global, g: &At<Given>) -> Result<Vec<Step<'_>>, NoMemory>
    ensures { IfOk result (λ steps. map step_view steps.items ≡ refused_by rule.InitialiserShape (here g.now)) }
{
    let mut out = Vec::new(alloc);
    refuse(g, Rule::InitialiserShape, &mut out)?;
    Ok(out)
}
