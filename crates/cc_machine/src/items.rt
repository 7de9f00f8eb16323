//! The turns on translation units (C99 6.9), and those that hand a declaration, a body or an item over.

ghost use Rattle.std.specs.Prelude.{◌≡◌, Ok as OkOf};
ghost use Rattle.cc_tree.specs.Reading.{Gives};
ghost use Rattle.cc_tree.specs.Turns.{went_of};
ghost use Rattle.cc_tree.specs.TurnLines.{items as items_of, with_item as with_item_of, to_decl as to_decl_of, to_line as to_line_of, to_body as to_body_of, to_item as to_item_of};
ghost use Rattle.cc_tree.specs.declared.state.Frame.TheVariants.{Block as BlockFrame, First as FirstFrame, Items as ItemsFrame, Body as BodyFrame};

use crate::lines::give_line;
use crate::statements::{new_for, with_line};
use cc_lex::Token;
use cc_num::{Boxed, List};
use cc_tree::state::{Block, Control, Frame, Head, Items, Node, Tall, Turn};
use cc_tree::stop::Stop;
use cc_tree::{At, Decl, First, Item, Line, Unit};
use cc_turns::turns::{made, on, opens, refused, tall, with};
use std::alloc::Global;

/// Reads a declaration or a function, or ends at the end of the tokens.
#[tactic(auto, unfolding(cc_tree::specs::TurnLines::items))]
pub fn items<'t>(alloc: Global, items: Items, tokens: &'t [Token]) -> Result<Turn<'t>, Stop>
    ensures { Gives went_of result (items_of items tokens.now) }
{
    match tokens {
        [] => {
            let unit = Unit { items: items.items };
            on(alloc, Control::Done(tall(unit, items.height)), tokens)
        }
        [_, ..] => opens(alloc, Frame::Items(items), Control::Decl(true), tokens),
    }
}

fn with_item(items: Items, item: At<Item>, height: usize) -> Result<Items, Stop>
    ensures { Gives (λ i. i) result (OkOf (with_item_of items item height)) }
{
    let height = items.height.max(height);
    let items = with(items.items, item)?;
    Ok(Items { items, height })
}

fn decl_to_block<'t>(
    alloc: Global,
    at: u32,
    decl: Tall<Decl>,
    tokens: &'t [Token],
    block: Block,
) -> Result<Turn<'t>, Stop>
    ensures { Gives went_of result (to_decl_of at decl tokens.now (BlockFrame block)) }
{
    let node = Line::Decl(decl.node);
    let block = with_line(block, At { at, node }, decl.height)?;
    on(alloc, Control::Block(block), tokens)
}

fn decl_to_for<'t>(
    alloc: Global,
    at: u32,
    decl: Tall<Decl>,
    tokens: &'t [Token],
    start: u32,
    scope: usize,
) -> Result<Turn<'t>, Stop>
    ensures { Gives went_of result (to_decl_of at decl tokens.now (FirstFrame start scope)) }
{
    let parts = new_for(alloc, start, scope, First::Decl(decl.node), decl.height)?;
    on(alloc, Control::Test(parts), tokens)
}

fn decl_to_items<'t>(
    alloc: Global,
    at: u32,
    decl: Tall<Decl>,
    tokens: &'t [Token],
    items: Items,
) -> Result<Turn<'t>, Stop>
    ensures { Gives went_of result (to_decl_of at decl tokens.now (ItemsFrame items)) }
{
    let node = Item::Decl(decl.node);
    let items = with_item(items, At { at, node }, decl.height)?;
    on(alloc, Control::Items(items), tokens)
}

/// Hands a declaration over.
pub fn to_decl<'t>(
    alloc: Global,
    at: u32,
    decl: Tall<Decl>,
    tokens: &'t [Token],
    frame: Boxed<Frame>,
) -> Result<Turn<'t>, Stop>
    ensures { Gives went_of result (to_decl_of at decl tokens.now frame) }
{
    match frame.into_inner() {
        Frame::Block(block) => decl_to_block(alloc, at, decl, tokens, block),
        Frame::First(start, scope) => decl_to_for(alloc, at, decl, tokens, start, scope),
        Frame::Items(items) => decl_to_items(alloc, at, decl, tokens, items),
        other => Err(refused((other, decl), tokens)),
    }
}

fn line_to_block<'t>(
    alloc: Global,
    line: Node<Line>,
    tokens: &'t [Token],
    block: Block,
) -> Result<Turn<'t>, Stop>
    ensures { Gives went_of result (to_line_of line tokens.now (BlockFrame block)) }
{
    let block = with_line(block, line.node.into_inner(), line.height)?;
    on(alloc, Control::Block(block), tokens)
}

/// Hands a statement over.
pub fn to_line<'t>(
    alloc: Global,
    line: Node<Line>,
    tokens: &'t [Token],
    frame: Boxed<Frame>,
) -> Result<Turn<'t>, Stop>
    ensures { Gives went_of result (to_line_of line tokens.now frame) }
{
    match frame.into_inner() {
        Frame::Line(frame) => give_line(alloc, line, tokens, frame),
        Frame::Block(block) => line_to_block(alloc, line, tokens, block),
        other => Err(refused((other, line), tokens)),
    }
}

fn body_to_head<'t>(
    alloc: Global,
    body: Tall<List<At<Line>>>,
    tokens: &'t [Token],
    head: Head,
) -> Result<Turn<'t>, Stop>
    ensures { Gives went_of result (to_body_of body tokens.now (BodyFrame head)) }
{
    let height = head.height.max(body.height);
    let node = Item::Func(head.specs, head.declr.into_inner(), head.attrs, body.node);
    on(
        alloc,
        Control::HaveItem(made(alloc, head.at, node, height)?),
        tokens,
    )
}

/// Hands the body of a function over.
pub fn to_body<'t>(
    alloc: Global,
    body: Tall<List<At<Line>>>,
    tokens: &'t [Token],
    frame: Boxed<Frame>,
) -> Result<Turn<'t>, Stop>
    ensures { Gives went_of result (to_body_of body tokens.now frame) }
{
    match frame.into_inner() {
        Frame::Body(head) => body_to_head(alloc, body, tokens, head),
        other => Err(refused((other, body), tokens)),
    }
}

fn item_to_items<'t>(
    alloc: Global,
    item: Node<Item>,
    tokens: &'t [Token],
    items: Items,
) -> Result<Turn<'t>, Stop>
    ensures { Gives went_of result (to_item_of item tokens.now (ItemsFrame items)) }
{
    let items = with_item(items, item.node.into_inner(), item.height)?;
    on(alloc, Control::Items(items), tokens)
}

/// Hands a declaration or a function over.
pub fn to_item<'t>(
    alloc: Global,
    item: Node<Item>,
    tokens: &'t [Token],
    frame: Boxed<Frame>,
) -> Result<Turn<'t>, Stop>
    ensures { Gives went_of result (to_item_of item tokens.now frame) }
{
    match frame.into_inner() {
        Frame::Items(items) => item_to_items(alloc, item, tokens, items),
        other => Err(refused((other, item), tokens)),
    }
}
