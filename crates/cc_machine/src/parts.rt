//! The turns that hand an expression to what waits for it outside of expressions (C99 6.7 and 6.8).

ghost use Rattle.cc_tree.specs.Reading.{Gives};
ghost use Rattle.cc_tree.specs.Turns.{went_of};
ghost use Rattle.cc_tree.specs.TurnLines.{give_part as give_part_of};

use crate::statement_parts::{
    give_case, give_do, give_first, give_return, give_statement, give_step, give_test, opens_line,
};
use cc_declarations::parts::{give_bound, give_enumr, give_value};
use cc_lex::Token;
use cc_tree::Tree;
use cc_tree::state::{LineFrame, Node, PartFrame, Turn};
use cc_tree::stop::Stop;
use std::alloc::Global;

/// Hands an expression to a part that waits for it.
pub fn give_part<'t>(
    alloc: Global,
    expr: Node<Tree>,
    tokens: &'t [Token],
    frame: PartFrame,
) -> Result<Turn<'t>, Stop>
    ensures { Gives went_of result (give_part_of expr tokens.now frame) }
{
    match frame {
        PartFrame::Bound(declr) => give_bound(alloc, declr, expr, tokens),
        PartFrame::Enumr(enumeration, at, name) => give_enumr(
            alloc,
            enumeration,
            at,
            name,
            expr,
            tokens,
        ),
        PartFrame::Value => give_value(alloc, expr, tokens),
        PartFrame::If(at) => opens_line(alloc, LineFrame::Then(at, expr), tokens),
        PartFrame::While(at) => opens_line(alloc, LineFrame::While(at, expr), tokens),
        PartFrame::Switch(at) => opens_line(alloc, LineFrame::Switch(at, expr), tokens),
        PartFrame::Do(at, line) => give_do(alloc, at, line, expr, tokens),
        PartFrame::First(at, scope) => give_first(alloc, at, scope, expr, tokens),
        PartFrame::Test(parts) => give_test(alloc, parts, expr, tokens),
        PartFrame::Step(parts) => give_step(alloc, parts, expr, tokens),
        PartFrame::Case(at) => give_case(alloc, at, expr, tokens),
        PartFrame::Return(at) => give_return(alloc, at, expr, tokens),
        PartFrame::Expr(at) => give_statement(alloc, at, expr, tokens),
    }
}
