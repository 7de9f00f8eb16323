//! The turns that hand a statement to what waits for it (C99 6.8).

ghost use Rattle.std.specs.Prelude.{◌≡◌, None as NoneOf};
ghost use Rattle.cc_tree.specs.Reading.{Gives, rest_of};
ghost use Rattle.cc_tree.specs.Turns.{went_of};
ghost use Rattle.cc_tree.specs.TurnLines.{begins_else as begins_else_of, after_else as after_else_of, then_done as then_done_of, is_while as is_while_of, do_done as do_done_of, give_line as give_line_of};
ghost use Rattle.cc_tree.specs.declared.state.LineFrame.TheVariants.{Else, While, Switch, For as ForFrame, Case, Default};
ghost use Rattle.cc_lex.specs.declared.token.Kind.TheVariants.{Keyword};

use crate::statements::{have_line, head};
use cc_lex::{Kind, Token, Word};
use cc_tree::state::{Control, For, Frame, LineFrame, Node, PartFrame, Scoping, Turn};
use cc_tree::stop::Stop;
use cc_tree::{Line, Tree};
use cc_turns::turns::{opens, refused, scoped};
use std::alloc::Global;

fn is_else(word: Word) -> bool
    ensures { result ≡ begins_else_of (Keyword word) }
{
    match word {
        Word::Else => true,
        _ => false,
    }
}

fn begins_else(kind: &Kind) -> bool
    ensures { result ≡ begins_else_of kind.now }
{
    match kind {
        Kind::Keyword(word) => is_else(*word),
        _ => false,
    }
}

/// The tokens behind `else`, where it stands first.
#[tactic(auto, unfolding(cc_tree::specs::TurnLines::after_else))]
fn after_else(tokens: &[Token]) -> Option<&[Token]>
    ensures { rest_of result ≡ after_else_of tokens.now }
{
    match tokens {
        [first, rest @ ..] => {
            if begins_else(&first.kind) {
                Some(rest)
            } else {
                None
            }
        }
        [] => None,
    }
}

fn is_while_word(word: Word) -> bool
    ensures { result ≡ is_while_of (Keyword word) }
{
    match word {
        Word::While => true,
        _ => false,
    }
}

fn is_while(kind: &Kind) -> bool
    ensures { result ≡ is_while_of kind.now }
{
    match kind {
        Kind::Keyword(word) => is_while_word(*word),
        _ => false,
    }
}

/// Behind the first statement of an `if`.
fn then_done<'t>(
    alloc: Global,
    at: u32,
    test: Node<Tree>,
    line: Node<Line>,
    tokens: &'t [Token],
) -> Result<Turn<'t>, Stop>
    ensures { Gives went_of result (then_done_of at test line tokens.now (after_else_of tokens.now)) }
{
    match after_else(tokens) {
        None => give_if(alloc, at, test, line, tokens),
        Some(rest) => {
            let frame = Frame::Line(LineFrame::Else(at, test, line));
            opens(alloc, frame, Control::Statement, rest)
        }
    }
}

fn give_if<'t>(
    alloc: Global,
    at: u32,
    test: Node<Tree>,
    line: Node<Line>,
    tokens: &'t [Token],
) -> Result<Turn<'t>, Stop>
    ensures { Gives went_of result (then_done_of at test line tokens.now NoneOf) }
{
    let height = test.height.max(line.height);
    let node = Line::If(test.node, line.node, None);
    have_line(alloc, at, node, height, tokens)
}

fn give_else<'t>(
    alloc: Global,
    at: u32,
    test: Node<Tree>,
    line: Node<Line>,
    other: Node<Line>,
    tokens: &'t [Token],
) -> Result<Turn<'t>, Stop>
    ensures { Gives went_of result (give_line_of other tokens.now (Else at test line)) }
{
    let height = line.height.max(other.height);
    let height = test.height.max(height);
    let node = Line::If(test.node, line.node, Some(other.node));
    have_line(alloc, at, node, height, tokens)
}

fn give_while<'t>(
    alloc: Global,
    at: u32,
    test: Node<Tree>,
    line: Node<Line>,
    tokens: &'t [Token],
) -> Result<Turn<'t>, Stop>
    ensures { Gives went_of result (give_line_of line tokens.now (While at test)) }
{
    let height = test.height.max(line.height);
    let node = Line::While(test.node, line.node);
    have_line(alloc, at, node, height, tokens)
}

fn give_switch<'t>(
    alloc: Global,
    at: u32,
    test: Node<Tree>,
    line: Node<Line>,
    tokens: &'t [Token],
) -> Result<Turn<'t>, Stop>
    ensures { Gives went_of result (give_line_of line tokens.now (Switch at test)) }
{
    let height = test.height.max(line.height);
    let node = Line::Switch(test.node, line.node);
    have_line(alloc, at, node, height, tokens)
}

/// Behind the statement of a `do`.
#[tactic(auto, unfolding(cc_tree::specs::TurnLines::do_done))]
fn do_done<'t>(
    alloc: Global,
    at: u32,
    line: Node<Line>,
    tokens: &'t [Token],
) -> Result<Turn<'t>, Stop>
    ensures { Gives went_of result (do_done_of at line tokens.now) }
{
    match tokens {
        [first, rest @ ..] => {
            if is_while(&first.kind) {
                return head(alloc, PartFrame::Do(at, line), rest);
            }
            Err(refused(line, tokens))
        }
        [] => Err(refused(line, tokens)),
    }
}

fn give_for<'t>(
    alloc: Global,
    parts: For,
    line: Node<Line>,
    tokens: &'t [Token],
) -> Result<Turn<'t>, Stop>
    ensures { Gives went_of result (give_line_of line tokens.now (ForFrame parts)) }
{
    let For {
        at,
        scope,
        first,
        test,
        step,
        height,
    } = parts;
    let height = height.max(line.height);
    let node = Line::For(first, test, step, line.node);
    let turn = have_line(alloc, at, node, height, tokens)?;
    Ok(scoped(Scoping::Leaves(scope), turn))
}

fn give_case<'t>(
    alloc: Global,
    at: u32,
    value: Node<Tree>,
    line: Node<Line>,
    tokens: &'t [Token],
) -> Result<Turn<'t>, Stop>
    ensures { Gives went_of result (give_line_of line tokens.now (Case at value)) }
{
    let height = value.height.max(line.height);
    let node = Line::Case(value.node, line.node);
    have_line(alloc, at, node, height, tokens)
}

fn give_default<'t>(
    alloc: Global,
    at: u32,
    line: Node<Line>,
    tokens: &'t [Token],
) -> Result<Turn<'t>, Stop>
    ensures { Gives went_of result (give_line_of line tokens.now (Default at)) }
{
    let node = Line::Default(line.node);
    have_line(alloc, at, node, line.height, tokens)
}

/// Hands a statement to what waits for it.
pub fn give_line<'t>(
    alloc: Global,
    line: Node<Line>,
    tokens: &'t [Token],
    frame: LineFrame,
) -> Result<Turn<'t>, Stop>
    ensures { Gives went_of result (give_line_of line tokens.now frame) }
{
    match frame {
        LineFrame::Then(at, test) => then_done(alloc, at, test, line, tokens),
        LineFrame::Else(at, test, first) => give_else(alloc, at, test, first, line, tokens),
        LineFrame::While(at, test) => give_while(alloc, at, test, line, tokens),
        LineFrame::Switch(at, test) => give_switch(alloc, at, test, line, tokens),
        LineFrame::Do(at) => do_done(alloc, at, line, tokens),
        LineFrame::For(parts) => give_for(alloc, parts, line, tokens),
        LineFrame::Case(at, value) => give_case(alloc, at, value, line, tokens),
        LineFrame::Default(at) => give_default(alloc, at, line, tokens),
    }
}
