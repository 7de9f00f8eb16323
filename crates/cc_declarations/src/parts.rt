//! The turns that hand an expression to a part of a declaration that waits for it (C99 6.7).

ghost use Rattle.cc_tree.specs.Reading.{Gives};
ghost use Rattle.cc_tree.specs.Turns.{went_of};
ghost use Rattle.cc_tree.specs.TurnLines.{give_part as give_part_of};
ghost use Rattle.cc_tree.specs.declared.state.PartFrame.TheVariants.{Bound, Enumr, Value};

use crate::structures::with_enumr;
use cc_lex::{Mark, Token};
use cc_num::Name;
use cc_tree::state::{Control, Enumeration, Node, Turn};
use cc_tree::stop::Stop;
use cc_tree::{Declr, Given, Tree};
use cc_turns::turns::{closed, made, on, raised};
use std::alloc::Global;

/// The bound of an array (C99 6.7.5.2).
pub fn give_bound<'t>(
    alloc: Global,
    declr: Node<Declr>,
    expr: Node<Tree>,
    tokens: &'t [Token],
) -> Result<Turn<'t>, Stop>
    ensures { Gives went_of result (give_part_of expr tokens.now (Bound declr)) }
{
    let ((declr, expr), rest) = closed((declr, expr), Mark::RBracket, tokens)?;
    let height = declr.height.max(expr.height);
    let at = declr.node.get().at;
    let node = Declr::Array(declr.node, Some(expr.node));
    on(
        alloc,
        Control::Suffix(raised(alloc, at, node, height)?),
        rest,
    )
}

/// The value of an enumerator (C99 6.7.2.2).
pub fn give_enumr<'t>(
    alloc: Global,
    enumeration: Enumeration,
    at: u32,
    name: Name,
    expr: Node<Tree>,
    tokens: &'t [Token],
) -> Result<Turn<'t>, Stop>
    ensures { Gives went_of result (give_part_of expr tokens.now (Enumr enumeration at name)) }
{
    let enumeration = with_enumr(
        enumeration,
        at,
        name,
        Some(expr.node.into_inner()),
        expr.height,
    )?;
    on(alloc, Control::Enumeration(enumeration), tokens)
}

/// An initialiser that is one expression (C99 6.7.8).
pub fn give_value<'t>(
    alloc: Global,
    expr: Node<Tree>,
    tokens: &'t [Token],
) -> Result<Turn<'t>, Stop>
    ensures { Gives went_of result (give_part_of expr tokens.now Value) }
{
    let at = expr.node.get().at;
    let node = Given::One(expr.node.into_inner());
    on(
        alloc,
        Control::HaveValue(made(alloc, at, node, expr.height)?),
        tokens,
    )
}
