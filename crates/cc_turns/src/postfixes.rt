//! Turns behind postfix expressions (C99 6.5.2).

ghost use Rattle.std.specs.Prelude.{◌≡◌, [], Ok as OkOf};
ghost use Rattle.cc_tree.specs.Reading.{Gives, after as after_of};
ghost use Rattle.cc_tree.specs.Turns.{went_of};
ghost use Rattle.cc_tree.specs.TurnTrees as trees;
ghost use Rattle.cc_tree.specs.declared.tree.Tree as node;
ghost use Rattle.cc_lex.specs.declared.token.Mark.TheVariants.{RParen};

use crate::cursor::{after, first_mark};
use crate::expressions::wants;
use crate::operators::{ASSIGNMENT, COMMA, POSTFIX};
use crate::turns::{empty, named, on, raised};
use cc_lex::{Mark, Token};
use cc_num::Name;
use cc_tree::Tree;
use cc_tree::state::{Control, Node, TreeFrame, Turn};
use cc_tree::stop::Stop;
use std::alloc::Global;

/// A call without arguments.
fn empty_call(alloc: Global, tree: Node<Tree>) -> Result<Node<Tree>, Stop>
    ensures { Gives (λ t. t) result (OkOf (trees.grows tree (node.Call tree.node []) tree.height)) }
{
    let at = tree.node.get().at;
    let node = Tree::Call(tree.node, empty(alloc));
    raised(alloc, at, node, tree.height)
}

fn member(alloc: Global, tree: Node<Tree>, name: Name) -> Result<Node<Tree>, Stop>
    ensures { Gives (λ t. t) result (OkOf (trees.grows tree (node.Member tree.node name) tree.height)) }
{
    let at = tree.node.get().at;
    let node = Tree::Member(tree.node, name);
    raised(alloc, at, node, tree.height)
}

/// A member of what is pointed to.
fn arrow(alloc: Global, tree: Node<Tree>, name: Name) -> Result<Node<Tree>, Stop>
    ensures { Gives (λ t. t) result (OkOf (trees.grows tree (node.Arrow tree.node name) tree.height)) }
{
    let at = tree.node.get().at;
    let node = Tree::Arrow(tree.node, name);
    raised(alloc, at, node, tree.height)
}

/// A step by one behind an expression.
fn step(alloc: Global, tree: Node<Tree>, mark: Mark) -> Result<Node<Tree>, Stop>
    ensures { Gives (λ t. t) result (OkOf (trees.grows tree (node.Postfix tree.node mark) tree.height)) }
{
    let at = tree.node.get().at;
    let node = Tree::Postfix(tree.node, mark);
    raised(alloc, at, node, tree.height)
}

/// A call, behind its parenthesis.
fn call<'t>(alloc: Global, tree: Node<Tree>, tokens: &'t [Token]) -> Result<Turn<'t>, Stop>
    ensures { Gives went_of result (trees.call tree tokens.now (after_of RParen tokens.now)) }
{
    match after(Mark::RParen, tokens) {
        Some(rest) => on(alloc, Control::Postfix(empty_call(alloc, tree)?), rest),
        None => wants(
            alloc,
            TreeFrame::Call(tree, empty(alloc)),
            ASSIGNMENT,
            tokens,
        ),
    }
}

fn postfix_by<'t>(
    alloc: Global,
    tree: Node<Tree>,
    all: &'t [Token],
    tokens: &'t [Token],
    mark: Mark,
) -> Result<Turn<'t>, Stop>
    ensures { Gives went_of result (trees.postfix_by tree all.now tokens.now mark) }
{
    match mark {
        Mark::LBracket => wants(alloc, TreeFrame::Subscript(tree), COMMA, tokens),
        Mark::LParen => call(alloc, tree, tokens),
        Mark::Dot => {
            let ((tree, name), rest) = named(alloc, tree, tokens)?;
            on(alloc, Control::Postfix(member(alloc, tree, name)?), rest)
        }
        Mark::Arrow => {
            let ((tree, name), rest) = named(alloc, tree, tokens)?;
            on(alloc, Control::Postfix(arrow(alloc, tree, name)?), rest)
        }
        Mark::PlusPlus => {
            on(
                alloc,
                Control::Postfix(step(alloc, tree, Mark::PlusPlus)?),
                tokens,
            )
        }
        Mark::MinusMinus => {
            on(
                alloc,
                Control::Postfix(step(alloc, tree, Mark::MinusMinus)?),
                tokens,
            )
        }
        _ => on(alloc, Control::Tree(POSTFIX, tree), all),
    }
}

/// What stands behind a postfix expression.
#[tactic(auto, unfolding(cc_tree::specs::TurnTrees::postfix))]
pub fn postfix<'t>(alloc: Global, tree: Node<Tree>, tokens: &'t [Token]) -> Result<Turn<'t>, Stop>
    ensures { Gives went_of result (trees.postfix tree tokens.now) }
{
    match first_mark(tokens) {
        Some((mark, rest)) => postfix_by(alloc, tree, tokens, rest, mark),
        None => on(alloc, Control::Tree(POSTFIX, tree), tokens),
    }
}
