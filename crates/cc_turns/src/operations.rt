//! What waits for an expression in an expression gets it (C99 6.5).

ghost use Rattle.std.specs.Prelude.{◌≡◌, ◌++◌, ◌∷◌, [], max, suc, Ok as OkOf};
ghost use Rattle.cc_tree.specs.Reading.{Gives, after as after_of};
ghost use Rattle.cc_tree.specs.Turns.{went_of, made as made_of, tall as tall_of};
ghost use Rattle.cc_tree.specs.TurnTrees as trees;
ghost use Rattle.cc_tree.specs.declared.tree.Tree as node;
ghost use Rattle.cc_lex.specs.declared.token.Mark.TheVariants.{Comma};

use crate::cursor::after;
use crate::expressions::wants;
use crate::operators::{ASSIGNMENT, CAST, COMMA, CONDITIONAL, UNARY};
use crate::turns::{closed, grown, on, raised, tall};
use cc_lex::{Mark, Token};
use cc_num::{Boxed, List};
use cc_tree::state::{Control, Node, Tall, TreeFrame, Turn};
use cc_tree::stop::Stop;
use cc_tree::{At, Tree, TypeName};
use std::alloc::Global;

/// A binary operation.
fn binary(
    alloc: Global,
    mark: Mark,
    left: Node<Tree>,
    right: Node<Tree>,
) -> Result<Node<Tree>, Stop>
    ensures { Gives (λ t. t) result (OkOf (trees.grows left (node.Binary mark left.node right.node) (max left.height right.height))) }
{
    let height = left.height.max(right.height);
    let at = left.node.get().at;
    let node = Tree::Binary(mark, left.node, right.node);
    raised(alloc, at, node, height)
}

/// An assignment.
fn assigned(
    alloc: Global,
    mark: Mark,
    left: Node<Tree>,
    right: Node<Tree>,
) -> Result<Node<Tree>, Stop>
    ensures { Gives (λ t. t) result (OkOf (trees.grows left (node.Assign mark left.node right.node) (max left.height right.height))) }
{
    let height = left.height.max(right.height);
    let at = left.node.get().at;
    let node = Tree::Assign(mark, left.node, right.node);
    raised(alloc, at, node, height)
}

/// A comma operation.
fn comma(alloc: Global, left: Node<Tree>, right: Node<Tree>) -> Result<Node<Tree>, Stop>
    ensures { Gives (λ t. t) result (OkOf (trees.grows left (node.Comma left.node right.node) (max left.height right.height))) }
{
    let height = left.height.max(right.height);
    let at = left.node.get().at;
    let node = Tree::Comma(left.node, right.node);
    raised(alloc, at, node, height)
}

/// A choice.
fn choice(
    alloc: Global,
    test: Node<Tree>,
    then: Node<Tree>,
    other: Node<Tree>,
) -> Result<Node<Tree>, Stop>
    ensures { Gives (λ t. t) result (OkOf (trees.grows test (node.Choose test.node then.node other.node) (max test.height (max then.height other.height)))) }
{
    let height = test.height.max(then.height.max(other.height));
    let at = test.node.get().at;
    let node = Tree::Choose(test.node, then.node, other.node);
    raised(alloc, at, node, height)
}

fn paren(alloc: Global, at: u32, tree: Node<Tree>) -> Result<Node<Tree>, Stop>
    ensures { Gives (λ t. t) result (OkOf (made_of at (node.Paren tree.node) (suc tree.height))) }
{
    let node = Tree::Paren(tree.node);
    raised(alloc, at, node, tree.height)
}

fn subscript(alloc: Global, array: Node<Tree>, index: Node<Tree>) -> Result<Node<Tree>, Stop>
    ensures { Gives (λ t. t) result (OkOf (trees.grows array (node.Subscript array.node index.node) (max array.height index.height))) }
{
    let height = array.height.max(index.height);
    let at = array.node.get().at;
    let node = Tree::Subscript(array.node, index.node);
    raised(alloc, at, node, height)
}

fn prefix(alloc: Global, at: u32, mark: Mark, tree: Node<Tree>) -> Result<Node<Tree>, Stop>
    ensures { Gives (λ t. t) result (OkOf (made_of at (node.Prefix mark tree.node) (suc tree.height))) }
{
    let node = Tree::Prefix(mark, tree.node);
    raised(alloc, at, node, tree.height)
}

fn size_of(alloc: Global, at: u32, tree: Node<Tree>) -> Result<Node<Tree>, Stop>
    ensures { Gives (λ t. t) result (OkOf (made_of at (node.SizeOf tree.node) (suc tree.height))) }
{
    let node = Tree::SizeOf(tree.node);
    raised(alloc, at, node, tree.height)
}

fn extension(alloc: Global, at: u32, tree: Node<Tree>) -> Result<Node<Tree>, Stop>
    ensures { Gives (λ t. t) result (OkOf (made_of at (node.Extension tree.node) (suc tree.height))) }
{
    let node = Tree::Extension(tree.node);
    raised(alloc, at, node, tree.height)
}

fn cast(
    alloc: Global,
    at: u32,
    name: Tall<Boxed<TypeName>>,
    tree: Node<Tree>,
) -> Result<Node<Tree>, Stop>
    ensures { Gives (λ t. t) result (OkOf (made_of at (node.Cast name.node tree.node) (suc (max name.height tree.height)))) }
{
    let height = name.height.max(tree.height);
    let node = Tree::Cast(name.node, tree.node);
    raised(alloc, at, node, height)
}

/// What is called, and one argument more.
fn with_argument(
    called: Node<Tree>,
    arguments: List<At<Tree>>,
    more: Node<Tree>,
) -> Result<(Node<Tree>, List<At<Tree>>), Stop>
    ensures { Gives (λ r. r) result (OkOf (tall_of called.node (max called.height more.height), arguments ++ more.node ∷ [])) }
{
    let height = called.height.max(more.height);
    let (node, arguments) = grown(called.node, arguments, more.node.into_inner())?;
    Ok((tall(node, height), arguments))
}

/// A call whose last argument this is.
fn call(
    alloc: Global,
    called: Node<Tree>,
    arguments: List<At<Tree>>,
    last: Node<Tree>,
) -> Result<Node<Tree>, Stop>
    ensures { Gives (λ t. t) result (OkOf (trees.grows called (node.Call called.node (arguments ++ last.node ∷ [])) (max called.height last.height))) }
{
    let at = called.node.get().at;
    let (called, arguments) = with_argument(called, arguments, last)?;
    let node = Tree::Call(called.node, arguments);
    raised(alloc, at, node, called.height)
}

/// An argument, and what stands behind it.
fn argument<'t>(
    alloc: Global,
    called: Node<Tree>,
    arguments: List<At<Tree>>,
    more: Node<Tree>,
    tokens: &'t [Token],
) -> Result<Turn<'t>, Stop>
    ensures { Gives went_of result (trees.argument_at (tall_of called.node (max called.height more.height)) (arguments ++ more.node ∷ []) tokens.now (after_of Comma tokens.now)) }
{
    match after(Mark::Comma, tokens) {
        Some(rest) => {
            let (called, arguments) = with_argument(called, arguments, more)?;
            wants(alloc, TreeFrame::Call(called, arguments), ASSIGNMENT, rest)
        }
        None => {
            let ((called, arguments, more), rest) = closed(
                (called, arguments, more),
                Mark::RParen,
                tokens,
            )?;
            on(
                alloc,
                Control::Postfix(call(alloc, called, arguments, more)?),
                rest,
            )
        }
    }
}

/// An expression of a level, for what waits for it.
pub fn give_tree<'t>(
    alloc: Global,
    level: usize,
    tree: Node<Tree>,
    tokens: &'t [Token],
    frame: TreeFrame,
) -> Result<Turn<'t>, Stop>
    ensures { Gives went_of result (trees.give_tree level tree tokens.now frame) }
{
    match frame {
        TreeFrame::Operators(least) => on(alloc, Control::Operators(least, level, tree), tokens),
        TreeFrame::Binary(least, mark, own, left) => {
            let tree = binary(alloc, mark, left, tree)?;
            on(alloc, Control::Operators(least, own, tree), tokens)
        }
        TreeFrame::Choice(least, test) => {
            let ((test, tree), rest) = closed((test, tree), Mark::Colon, tokens)?;
            wants(
                alloc,
                TreeFrame::Otherwise(least, test, tree),
                CONDITIONAL,
                rest,
            )
        }
        TreeFrame::Otherwise(least, test, then) => {
            let tree = choice(alloc, test, then, tree)?;
            on(alloc, Control::Operators(least, CONDITIONAL, tree), tokens)
        }
        TreeFrame::Assign(least, mark, left) => {
            let tree = assigned(alloc, mark, left, tree)?;
            on(alloc, Control::Operators(least, ASSIGNMENT, tree), tokens)
        }
        TreeFrame::Comma(least, left) => {
            let tree = comma(alloc, left, tree)?;
            on(alloc, Control::Operators(least, COMMA, tree), tokens)
        }
        TreeFrame::Paren(at) => {
            let (tree, rest) = closed(tree, Mark::RParen, tokens)?;
            on(alloc, Control::Postfix(paren(alloc, at, tree)?), rest)
        }
        TreeFrame::Subscript(array) => {
            let ((array, tree), rest) = closed((array, tree), Mark::RBracket, tokens)?;
            on(
                alloc,
                Control::Postfix(subscript(alloc, array, tree)?),
                rest,
            )
        }
        TreeFrame::Call(called, arguments) => {
            Ok(argument(alloc, called, arguments, tree, tokens)?)
        }
        TreeFrame::Prefix(at, mark) => {
            on(
                alloc,
                Control::Tree(UNARY, prefix(alloc, at, mark, tree)?),
                tokens,
            )
        }
        TreeFrame::SizeOf(at) => on(
            alloc,
            Control::Tree(UNARY, size_of(alloc, at, tree)?),
            tokens,
        ),
        TreeFrame::Extension(at) => {
            on(
                alloc,
                Control::Tree(UNARY, extension(alloc, at, tree)?),
                tokens,
            )
        }
        TreeFrame::Cast(at, name) => {
            on(
                alloc,
                Control::Tree(CAST, cast(alloc, at, name, tree)?),
                tokens,
            )
        }
    }
}
