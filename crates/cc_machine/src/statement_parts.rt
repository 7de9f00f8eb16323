//! The turns that hand an expression to a statement that waits for it (C99 6.8).

ghost use Rattle.std.specs.Prelude.{◌≡◌, Ok as OkOf};
ghost use Rattle.cc_tree.specs.Reading.{Gives, eat as eat_of, ◌>>=◌ as bind};
ghost use Rattle.cc_tree.specs.Turns.{went_of, opens as opens_of};
ghost use Rattle.cc_tree.specs.TurnLines.{give_part as give_part_of};
ghost use Rattle.cc_tree.specs.declared.state.PartFrame.TheVariants.{Do, First as FirstFrame, Test, Step, Case, Return, Expr};
ghost use Rattle.cc_tree.specs.declared.state.Frame.TheVariants.{Line as LineOf};
ghost use Rattle.cc_tree.specs.declared.state.Control.TheVariants.{Statement};
ghost use Rattle.cc_lex.specs.declared.token.Mark.TheVariants.{RParen};

use crate::statements::{have_line, new_for, with_step, with_test};
use cc_lex::{Mark, Token};
use cc_tree::state::{Control, For, Frame, LineFrame, Node, Turn};
use cc_tree::stop::Stop;
use cc_tree::{First, Line, Tree};
use cc_turns::turns::{closed, on, opens};
use std::alloc::Global;

/// Reads a statement behind an expression in parentheses.
pub fn opens_line<'t>(
    alloc: Global,
    frame: LineFrame,
    tokens: &'t [Token],
) -> Result<Turn<'t>, Stop>
    ensures { Gives went_of result (bind (eat_of RParen tokens.now) (λ ts. opens_of (LineOf frame) Statement ts)) }
{
    let (frame, rest) = closed(frame, Mark::RParen, tokens)?;
    opens(alloc, Frame::Line(frame), Control::Statement, rest)
}

/// Behind the expression of a `do` statement (C99 6.8.5.2).
pub fn give_do<'t>(
    alloc: Global,
    at: u32,
    line: Node<Line>,
    expr: Node<Tree>,
    tokens: &'t [Token],
) -> Result<Turn<'t>, Stop>
    ensures { Gives went_of result (give_part_of expr tokens.now (Do at line)) }
{
    let (read, rest) = closed((line, expr), Mark::RParen, tokens)?;
    let ((line, expr), rest) = closed(read, Mark::Semi, rest)?;
    let height = line.height.max(expr.height);
    let node = Line::DoWhile(line.node, expr.node);
    have_line(alloc, at, node, height, rest)
}

/// The first expression of a `for` statement (C99 6.8.5.3).
pub fn give_first<'t>(
    alloc: Global,
    at: u32,
    scope: usize,
    expr: Node<Tree>,
    tokens: &'t [Token],
) -> Result<Turn<'t>, Stop>
    ensures { Gives went_of result (give_part_of expr tokens.now (FirstFrame at scope)) }
{
    let (expr, rest) = closed(expr, Mark::Semi, tokens)?;
    let first = First::Expr(Some(expr.node));
    on(
        alloc,
        Control::Test(new_for(alloc, at, scope, first, expr.height)?),
        rest,
    )
}

/// The test of a `for` statement.
pub fn give_test<'t>(
    alloc: Global,
    parts: For,
    expr: Node<Tree>,
    tokens: &'t [Token],
) -> Result<Turn<'t>, Stop>
    ensures { Gives went_of result (give_part_of expr tokens.now (Test parts)) }
{
    let ((parts, expr), rest) = closed((parts, expr), Mark::Semi, tokens)?;
    let parts = with_test(parts, Some(expr.node), expr.height);
    on(alloc, Control::Step(parts), rest)
}

/// What a `for` statement does behind each turn.
pub fn give_step<'t>(
    alloc: Global,
    parts: For,
    expr: Node<Tree>,
    tokens: &'t [Token],
) -> Result<Turn<'t>, Stop>
    ensures { Gives went_of result (give_part_of expr tokens.now (Step parts)) }
{
    let ((parts, expr), rest) = closed((parts, expr), Mark::RParen, tokens)?;
    let parts = with_step(parts, Some(expr.node), expr.height);
    opens(
        alloc,
        Frame::Line(LineFrame::For(parts)),
        Control::Statement,
        rest,
    )
}

/// The constant of a `case` label (C99 6.8.1).
pub fn give_case<'t>(
    alloc: Global,
    at: u32,
    expr: Node<Tree>,
    tokens: &'t [Token],
) -> Result<Turn<'t>, Stop>
    ensures { Gives went_of result (give_part_of expr tokens.now (Case at)) }
{
    let (expr, rest) = closed(expr, Mark::Colon, tokens)?;
    opens(
        alloc,
        Frame::Line(LineFrame::Case(at, expr)),
        Control::Statement,
        rest,
    )
}

/// The value of a `return` statement (C99 6.8.6.4).
pub fn give_return<'t>(
    alloc: Global,
    at: u32,
    expr: Node<Tree>,
    tokens: &'t [Token],
) -> Result<Turn<'t>, Stop>
    ensures { Gives went_of result (give_part_of expr tokens.now (Return at)) }
{
    let (expr, rest) = closed(expr, Mark::Semi, tokens)?;
    let node = Line::Return(Some(expr.node));
    have_line(alloc, at, node, expr.height, rest)
}

/// An expression statement (C99 6.8.3).
pub fn give_statement<'t>(
    alloc: Global,
    at: u32,
    expr: Node<Tree>,
    tokens: &'t [Token],
) -> Result<Turn<'t>, Stop>
    ensures { Gives went_of result (give_part_of expr tokens.now (Expr at)) }
{
    let (expr, rest) = closed(expr, Mark::Semi, tokens)?;
    let node = Line::Expr(Some(expr.node));
    have_line(alloc, at, node, expr.height, rest)
}
