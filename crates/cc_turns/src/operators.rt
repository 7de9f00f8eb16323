//! The operators of expressions, how tightly they bind, and turns on them (C99 6.5).

ghost use Rattle.std.specs.Prelude.{◌≡◌, ◌<◌, ◌&&◌, nat_le, IfSome};
ghost use Rattle.cc_tree.specs.Operators.{binary_level as binary_level_of, is_assignment as is_assignment_of, operand_level as operand_level_of};
ghost use Rattle.cc_tree.specs.Operators.{assignment_level, unary_level};
ghost use Rattle.cc_tree.specs.Reading.{Gives};
ghost use Rattle.cc_tree.specs.Turns.{went_of};
ghost use Rattle.cc_tree.specs.TurnTrees as trees;

use crate::cursor::first_mark;
use crate::expressions::wants;
use crate::turns::on;
use cc_lex::{Mark, Token};
use cc_tree::Tree;
use cc_tree::state::{Control, Node, TreeFrame, Turn};
use cc_tree::stop::Stop;
use std::alloc::Global;

/// 6.5.17
pub const COMMA: usize = 0;

/// 6.5.16
pub const ASSIGNMENT: usize = 1;

/// 6.5.15
pub const CONDITIONAL: usize = 2;

/// 6.5.4
pub const CAST: usize = 13;

/// 6.5.3
pub const UNARY: usize = 14;

/// 6.5.2
pub const POSTFIX: usize = 15;

/// The level of a binary operator (6.5.5 to 6.5.14).
pub fn binary_level(mark: Mark) -> Option<usize>
    ensures of { result ≡ binary_level_of mark }
    ensures few { IfSome result (λ k. k < 13) }
{
    match mark {
        Mark::OrOr => Some(3),
        Mark::AndAnd => Some(4),
        Mark::Bar => Some(5),
        Mark::Caret => Some(6),
        Mark::Amp => Some(7),
        Mark::EqEq | Mark::NotEq => Some(8),
        Mark::Lt | Mark::Gt | Mark::Le | Mark::Ge => Some(9),
        Mark::Shl | Mark::Shr => Some(10),
        Mark::Plus | Mark::Minus => Some(11),
        Mark::Star | Mark::Slash | Mark::Percent => Some(12),
        _ => None,
    }
}

/// 6.5.16
pub fn is_assignment(mark: Mark) -> bool
    ensures { result ≡ is_assignment_of mark }
{
    match mark {
        Mark::Assign | Mark::StarAssign | Mark::SlashAssign | Mark::PercentAssign => true,
        Mark::PlusAssign | Mark::MinusAssign | Mark::ShlAssign | Mark::ShrAssign => true,
        Mark::AndAssign | Mark::XorAssign | Mark::OrAssign => true,
        _ => false,
    }
}

/// The level that the operand of a prefix operator has at least (6.5.3).
pub fn operand_level(mark: Mark) -> Option<usize>
    ensures { result ≡ operand_level_of mark }
{
    match mark {
        Mark::PlusPlus | Mark::MinusMinus => Some(UNARY),
        Mark::Amp | Mark::Star | Mark::Plus | Mark::Minus | Mark::Tilde | Mark::Bang => Some(CAST),
        _ => None,
    }
}

/// An assignment operator, where one may stand, or another mark.
fn assign<'t>(
    alloc: Global,
    least: usize,
    level: usize,
    tree: Node<Tree>,
    all: &'t [Token],
    tokens: &'t [Token],
    mark: Mark,
) -> Result<Turn<'t>, Stop>
    ensures { Gives went_of result (trees.assign least level tree all.now tokens.now mark (is_assignment_of mark && (nat_le least assignment_level && nat_le unary_level level))) }
{
    if is_assignment(mark) && (least <= ASSIGNMENT && UNARY <= level) {
        return wants(
            alloc,
            TreeFrame::Assign(least, mark, tree),
            ASSIGNMENT,
            tokens,
        );
    }
    on(alloc, Control::Tree(level, tree), all)
}

/// A mark that is no binary operator.
fn other<'t>(
    alloc: Global,
    least: usize,
    level: usize,
    tree: Node<Tree>,
    all: &'t [Token],
    tokens: &'t [Token],
    mark: Mark,
) -> Result<Turn<'t>, Stop>
    ensures { Gives went_of result (trees.other least level tree all.now tokens.now mark) }
{
    match mark {
        Mark::Question => {
            if least <= CONDITIONAL && CONDITIONAL + 1 <= level {
                return wants(alloc, TreeFrame::Choice(least, tree), COMMA, tokens);
            }
            on(alloc, Control::Tree(level, tree), all)
        }
        Mark::Comma => {
            if least <= COMMA {
                return wants(alloc, TreeFrame::Comma(least, tree), ASSIGNMENT, tokens);
            }
            on(alloc, Control::Tree(level, tree), all)
        }
        _ => assign(alloc, least, level, tree, all, tokens, mark),
    }
}

fn operators_by<'t>(
    alloc: Global,
    least: usize,
    level: usize,
    tree: Node<Tree>,
    all: &'t [Token],
    tokens: &'t [Token],
    mark: Mark,
) -> Result<Turn<'t>, Stop>
    ensures { Gives went_of result (trees.operators_by least level tree all.now tokens.now mark (binary_level_of mark)) }
{
    match binary_level(mark) {
        Some(own) => {
            if least <= own && own <= level {
                let more = own + 1;
                return wants(
                    alloc,
                    TreeFrame::Binary(least, mark, own, tree),
                    more,
                    tokens,
                );
            }
            on(alloc, Control::Tree(level, tree), all)
        }
        None => other(alloc, least, level, tree, all, tokens, mark),
    }
}

/// An operator of the level `least` or a tighter one, behind an expression of `level`.
#[tactic(auto, unfolding(cc_tree::specs::TurnTrees::operators))]
pub fn operators<'t>(
    alloc: Global,
    least: usize,
    level: usize,
    tree: Node<Tree>,
    tokens: &'t [Token],
) -> Result<Turn<'t>, Stop>
    ensures { Gives went_of result (trees.operators least level tree tokens.now) }
{
    match first_mark(tokens) {
        Some((mark, rest)) => operators_by(alloc, least, level, tree, tokens, rest, mark),
        None => on(alloc, Control::Tree(level, tree), tokens),
    }
}
