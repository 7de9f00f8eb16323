//! The parser as a machine: a turn goes on with what is to be done, and with what waits.

ghost use Rattle.std.specs.Prelude.{◌≡◌, [], Ok as OkOf};
ghost use Rattle.cc_tree.specs.Machine.{hands as hands_of, turned as turned_of, with_frame as with_frame_of, scope_after as scope_after_of, state_after as state_after_of, turn as turn_of};
ghost use Rattle.cc_tree.specs.Reading.{Gives};
ghost use Rattle.cc_machine.specs.Taken.{taken as taken_of, both};
ghost use Rattle.cc_tree.specs.TurnLines as lines;
ghost use Rattle.cc_tree.specs.Turns.{went_of};
ghost use Rattle.cc_machine.specs.View.{state_of, handed};
ghost use Rattle.cc_machine.specs.Waits.{waiting};

use crate::handing::{to_declr, to_specs, to_tree, to_value};
use crate::items::{items, to_body, to_decl, to_item, to_line};
use crate::statements::{block, for_step, for_test, statement};
use crate::waiting::Waiting;
use cc_declarations::declarations::{declaration, inits, value};
use cc_declarations::declarators::{declarator, suffix};
use cc_declarations::specifiers::specifiers;
use cc_declarations::structures::{enumeration, enumr, structure};
use cc_lex::Token;
use cc_num::{Boxed, List};
use cc_tree::state::{Control, Frame, Node, Scoping, Tall, Turn};
use cc_tree::stop::Stop;
use cc_tree::{At, Decl, Declr, Given, Item, Line, Spec, Tree};
use cc_turns::expressions::{expr, operand};
use cc_turns::operators::operators;
use cc_turns::postfixes::postfix;
use cc_turns::scope::Scope;
use cc_turns::turns::refused;
use std::alloc::Global;

/// The typedef names in scope, and what waits for a part.
#[derive(Drop)]
pub struct Machine {
    pub scope: Scope,
    pub frames: Waiting,
}

/// What waits innermost, and a value for it. The type is a parameter, so that this function alone drops it.
fn taken<A: Drop>(
    frames: &mut Waiting,
    value: A,
    tokens: &[Token],
) -> Result<(Boxed<Frame>, A), Stop>
    ensures { Gives (λ r. (waiting frames.new, r.0, r.1)) result (taken_of (waiting frames.old) value tokens.now) }
{
    match frames.pop() {
        Some(frame) => Ok((frame, value)),
        None => Err(Stop::Wrong(tokens.len())),
    }
}

fn hand_tree<'t>(
    alloc: Global,
    frames: &mut Waiting,
    level: usize,
    tree: Node<Tree>,
    tokens: &'t [Token],
) -> Result<Turn<'t>, Stop>
    ensures { Gives (handed frames.new) result (hands_of (lines.to_tree level tree tokens.now) (waiting frames.old) tokens.now) }
{
    let (frame, tree) = taken(frames, tree, tokens)?;
    Ok(to_tree(alloc, level, tree, tokens, frame)?)
}

fn hand_specs<'t>(
    alloc: Global,
    frames: &mut Waiting,
    specs: Tall<List<At<Spec>>>,
    tokens: &'t [Token],
) -> Result<Turn<'t>, Stop>
    ensures { Gives (handed frames.new) result (hands_of (lines.to_specs specs tokens.now) (waiting frames.old) tokens.now) }
{
    let (frame, specs) = taken(frames, specs, tokens)?;
    Ok(to_specs(alloc, specs, tokens, frame)?)
}

fn hand_declr<'t>(
    alloc: Global,
    scope: &Scope,
    frames: &mut Waiting,
    declr: Node<Declr>,
    tokens: &'t [Token],
) -> Result<Turn<'t>, Stop>
    ensures { Gives (handed frames.new) result (hands_of (lines.to_declr scope.now declr tokens.now) (waiting frames.old) tokens.now) }
{
    let (frame, declr) = taken(frames, declr, tokens)?;
    to_declr(alloc, scope, declr, tokens, frame)
}

fn hand_value<'t>(
    alloc: Global,
    frames: &mut Waiting,
    value: Node<Given>,
    tokens: &'t [Token],
) -> Result<Turn<'t>, Stop>
    ensures { Gives (handed frames.new) result (hands_of (lines.to_value value tokens.now) (waiting frames.old) tokens.now) }
{
    let (frame, value) = taken(frames, value, tokens)?;
    Ok(to_value(alloc, value, tokens, frame)?)
}

fn hand_decl<'t>(
    alloc: Global,
    frames: &mut Waiting,
    at: u32,
    decl: Tall<Decl>,
    tokens: &'t [Token],
) -> Result<Turn<'t>, Stop>
    ensures { Gives (handed frames.new) result (hands_of (lines.to_decl at decl tokens.now) (waiting frames.old) tokens.now) }
{
    let (frame, decl) = taken(frames, decl, tokens)?;
    to_decl(alloc, at, decl, tokens, frame)
}

fn hand_line<'t>(
    alloc: Global,
    frames: &mut Waiting,
    line: Node<Line>,
    tokens: &'t [Token],
) -> Result<Turn<'t>, Stop>
    ensures { Gives (handed frames.new) result (hands_of (lines.to_line line tokens.now) (waiting frames.old) tokens.now) }
{
    let (frame, line) = taken(frames, line, tokens)?;
    to_line(alloc, line, tokens, frame)
}

fn hand_body<'t>(
    alloc: Global,
    frames: &mut Waiting,
    body: Tall<List<At<Line>>>,
    tokens: &'t [Token],
) -> Result<Turn<'t>, Stop>
    ensures { Gives (handed frames.new) result (hands_of (lines.to_body body tokens.now) (waiting frames.old) tokens.now) }
{
    let (frame, body) = taken(frames, body, tokens)?;
    to_body(alloc, body, tokens, frame)
}

fn hand_item<'t>(
    alloc: Global,
    frames: &mut Waiting,
    item: Node<Item>,
    tokens: &'t [Token],
) -> Result<Turn<'t>, Stop>
    ensures { Gives (handed frames.new) result (hands_of (lines.to_item item tokens.now) (waiting frames.old) tokens.now) }
{
    let (frame, item) = taken(frames, item, tokens)?;
    to_item(alloc, item, tokens, frame)
}

/// Goes on with what is to be done. What gets a part leaves the frames.
fn turned<'t>(
    alloc: Global,
    scope: &Scope,
    frames: &mut Waiting,
    control: Control,
    tokens: &'t [Token],
) -> Result<Turn<'t>, Stop>
    ensures { Gives (handed frames.new) result (turned_of scope.now (waiting frames.old) tokens.now control) }
{
    match control {
        Control::Expr(level) => expr(alloc, level, tokens),
        Control::Operand(level) => operand(alloc, scope, level, tokens),
        Control::Postfix(tree) => postfix(alloc, tree, tokens),
        Control::Operators(least, level, tree) => operators(alloc, least, level, tree, tokens),
        Control::Tree(level, tree) => hand_tree(alloc, frames, level, tree, tokens),
        Control::Specs(specs) => specifiers(alloc, scope, specs, tokens),
        Control::HaveSpecs(specs) => hand_specs(alloc, frames, specs, tokens),
        Control::Structure(so_far) => structure(alloc, so_far, tokens),
        Control::Enumr(so_far) => enumr(alloc, scope, so_far, tokens),
        Control::Enumeration(so_far) => enumeration(alloc, so_far, tokens),
        Control::Declr => declarator(alloc, scope, tokens),
        Control::Suffix(declr) => suffix(alloc, declr, tokens),
        Control::HaveDeclr(declr) => hand_declr(alloc, scope, frames, declr, tokens),
        Control::Value => value(alloc, tokens),
        Control::HaveValue(value) => hand_value(alloc, frames, value, tokens),
        Control::Decl(outside) => declaration(alloc, outside, tokens),
        Control::Inits(so_far) => inits(alloc, so_far, tokens),
        Control::HaveDecl(at, decl) => hand_decl(alloc, frames, at, decl, tokens),
        Control::Statement => statement(alloc, scope, tokens),
        Control::Block(so_far) => block(alloc, scope, so_far, tokens),
        Control::HaveLine(line) => hand_line(alloc, frames, line, tokens),
        Control::Test(parts) => for_test(alloc, parts, tokens),
        Control::Step(parts) => for_step(alloc, parts, tokens),
        Control::HaveBody(body) => hand_body(alloc, frames, body, tokens),
        Control::Items(so_far) => items(alloc, so_far, tokens),
        Control::HaveItem(item) => hand_item(alloc, frames, item, tokens),
        Control::Done(unit) => Err(refused(unit, tokens)),
    }
}

/// One that waits more, beside a value. The type is a parameter, as that of `taken` is.
fn wait<A: Drop>(frames: &mut Waiting, frame: Option<Boxed<Frame>>, value: A) -> Result<A, Stop>
    ensures { Gives (λ v. (waiting frames.new, v)) result (both (with_frame_of frame (waiting frames.old)) value) }
{
    if let Some(frame) = frame {
        frames.push(frame)?;
    }
    Ok(value)
}

/// The typedef names from now on, beside a value.
fn rescope<A: Drop>(scope: &mut Scope, scoping: Scoping, value: A) -> Result<A, Stop>
    ensures { Gives (λ v. (scope.new, v)) result (both (scope_after_of scoping scope.old) value) }
{
    match scoping {
        Scoping::Same => Ok(value),
        Scoping::Declares(name) => {
            scope.declare(name)?;
            Ok(value)
        }
        Scoping::Leaves(count) => {
            scope.leave(count);
            Ok(value)
        }
    }
}

impl Machine {
    /// Before the first turn.
    pub fn new(alloc: Global) -> Machine
        ensures scope { result.scope ≡ [] }
        ensures frames { waiting result.frames ≡ [] }
    {
        Machine {
            scope: Scope::new(alloc),
            frames: Waiting::new(alloc),
        }
    }

    fn settle<'t>(&mut self, turn: Turn<'t>) -> Result<(Boxed<Control>, &'t [Token]), Stop>
        ensures { Gives (λ r. state_of self.new r.0 r.1.now) result (OkOf (state_after_of self.old.scope (waiting self.old.frames, went_of turn.entry))) }
    {
        let Turn {
            frame,
            control,
            rest,
            scoping,
        } = turn;
        let (control, scoping) = wait(&mut self.frames, frame, (control, scoping))?;
        let control = rescope(&mut self.scope, scoping, control)?;
        Ok((control, rest))
    }

    /// One turn: what is to be done next, and the tokens ahead of it.
    #[tactic(auto, unfolding(cc_tree::specs::Machine::turn))]
    pub fn turn<'t>(
        &mut self,
        alloc: Global,
        control: Control,
        tokens: &'t [Token],
    ) -> Result<(Boxed<Control>, &'t [Token]), Stop>
        ensures { Gives (λ r. state_of self.new r.0 r.1.now) result (turn_of (state_of self.old control tokens.now)) }
    {
        let turn = turned(alloc, &self.scope, &mut self.frames, control, tokens)?;
        self.settle(turn)
    }
}
