//! The turns on statements (C99 6.8).

ghost use Rattle.std.specs.Prelude.{◌≡◌, Ok as OkOf};
ghost use Rattle.cc_tree.specs.Reading.{Gives, after as after_of};
ghost use Rattle.cc_tree.specs.ReadTypes.{begins_specs as begins_specs_of};
ghost use Rattle.cc_tree.specs.Turns.{went_of};
ghost use Rattle.cc_tree.specs.TurnLines.{have_line as have_line_of, head as head_of, ends as ends_of, maybe_expr as maybe_expr_of, new_for as new_for_of, for_first as for_first_of, for_head as for_head_of, label as label_of, expr_statement as expr_statement_of, statement_word as statement_word_of, statement_mark as statement_mark_of, statement_at as statement_at_of, statement as statement_of, close_by as close_by_of, close_block as close_block_of, block_line as block_line_of, block as block_of, with_line as with_line_of, with_test as with_test_of, with_step as with_step_of, for_test as for_test_of, for_step as for_step_of};
ghost use Rattle.cc_lex.specs.declared.token.Mark.TheVariants.{Semi};
ghost use Rattle.cc_tree.specs.declared.unit.Line.{Return as ReturnOf, Break as BreakOf, Continue as ContinueOf};
ghost use Rattle.std.specs.Prelude.{None as NoneOf};
ghost use Rattle.cc_tree.specs.declared.state.PartFrame.TheVariants.{Return as ReturnFrame};

use cc_lex::{Kind, Mark, Token, Word};
use cc_num::Boxed;
use cc_tree::state::{Block, Control, For, Frame, LineFrame, PartFrame, Scoping, Turn};
use cc_tree::stop::Stop;
use cc_tree::{At, First, Line, Tree};
use cc_turns::cursor::{after, eat};
use cc_turns::names::begins_specs;
use cc_turns::operators::{COMMA, CONDITIONAL};
use cc_turns::scope::Scope;
use cc_turns::turns::{closed, empty, on, opens, raised, scoped, tall, with};
use std::alloc::Global;

/// Hands over a statement, which is a node over others of this height.
pub fn have_line<'t>(
    alloc: Global,
    at: u32,
    line: Line,
    height: usize,
    tokens: &'t [Token],
) -> Result<Turn<'t>, Stop>
    ensures { Gives went_of result (have_line_of at line height tokens.now) }
{
    let line = raised(alloc, at, line, height)?;
    on(alloc, Control::HaveLine(line), tokens)
}

/// Reads an expression in parentheses behind a word.
pub fn head<'t>(alloc: Global, frame: PartFrame, tokens: &'t [Token]) -> Result<Turn<'t>, Stop>
    ensures { Gives went_of result (head_of frame tokens.now) }
{
    let (frame, rest) = closed(frame, Mark::LParen, tokens)?;
    opens(alloc, Frame::Part(frame), Control::Expr(COMMA), rest)
}

fn break_ends<'t>(alloc: Global, at: u32, tokens: &'t [Token]) -> Result<Turn<'t>, Stop>
    ensures { Gives went_of result (ends_of at BreakOf tokens.now) }
{
    let rest = eat(Mark::Semi, tokens)?;
    have_line(alloc, at, Line::Break, 0, rest)
}

fn continue_ends<'t>(alloc: Global, at: u32, tokens: &'t [Token]) -> Result<Turn<'t>, Stop>
    ensures { Gives went_of result (ends_of at ContinueOf tokens.now) }
{
    let rest = eat(Mark::Semi, tokens)?;
    have_line(alloc, at, Line::Continue, 0, rest)
}

/// Behind `return`.
fn give_back<'t>(alloc: Global, at: u32, tokens: &'t [Token]) -> Result<Turn<'t>, Stop>
    ensures { Gives went_of result (maybe_expr_of (ReturnFrame at) at (ReturnOf NoneOf) tokens.now (after_of Semi tokens.now)) }
{
    match after(Mark::Semi, tokens) {
        Some(rest) => have_line(alloc, at, Line::Return(None), 0, rest),
        None => {
            let frame = Frame::Part(PartFrame::Return(at));
            opens(alloc, frame, Control::Expr(COMMA), tokens)
        }
    }
}

/// A `for` whose first part is read.
pub fn new_for(
    alloc: Global,
    at: u32,
    scope: usize,
    first: First,
    height: usize,
) -> Result<For, Stop>
    ensures { Gives (λ f. f) result (OkOf (new_for_of at scope first height)) }
{
    Ok(For {
        at,
        scope,
        first: Boxed::new(alloc, first)?,
        test: None,
        step: None,
        height,
    })
}

fn for_first<'t>(
    alloc: Global,
    scope: &Scope,
    at: u32,
    tokens: &'t [Token],
) -> Result<Turn<'t>, Stop>
    ensures { Gives went_of result (for_first_of scope.now at tokens.now (begins_specs_of scope.now tokens.now) (after_of Semi tokens.now)) }
{
    if begins_specs(scope, tokens) {
        return opens(
            alloc,
            Frame::First(at, scope.len()),
            Control::Decl(false),
            tokens,
        );
    }
    match after(Mark::Semi, tokens) {
        Some(rest) => {
            let parts = new_for(alloc, at, scope.len(), First::Expr(None), 0)?;
            on(alloc, Control::Test(parts), rest)
        }
        None => {
            let frame = Frame::Part(PartFrame::First(at, scope.len()));
            opens(alloc, frame, Control::Expr(COMMA), tokens)
        }
    }
}

fn for_head<'t>(
    alloc: Global,
    scope: &Scope,
    at: u32,
    tokens: &'t [Token],
) -> Result<Turn<'t>, Stop>
    ensures { Gives went_of result (for_head_of scope.now at tokens.now) }
{
    let rest = eat(Mark::LParen, tokens)?;
    for_first(alloc, scope, at, rest)
}

fn label<'t>(alloc: Global, at: u32, tokens: &'t [Token]) -> Result<Turn<'t>, Stop>
    ensures { Gives went_of result (label_of at tokens.now) }
{
    let rest = eat(Mark::Colon, tokens)?;
    let frame = Frame::Line(LineFrame::Default(at));
    opens(alloc, frame, Control::Statement, rest)
}

fn expr_statement<'t>(alloc: Global, at: u32, tokens: &'t [Token]) -> Result<Turn<'t>, Stop>
    ensures { Gives went_of result (expr_statement_of tokens.now at) }
{
    let frame = Frame::Part(PartFrame::Expr(at));
    opens(alloc, frame, Control::Expr(COMMA), tokens)
}

fn statement_word<'t>(
    alloc: Global,
    scope: &Scope,
    tokens: &'t [Token],
    rest: &'t [Token],
    at: u32,
    word: Word,
) -> Result<Turn<'t>, Stop>
    ensures { Gives went_of result (statement_word_of scope.now tokens.now rest.now at word) }
{
    match word {
        Word::If => head(alloc, PartFrame::If(at), rest),
        Word::While => head(alloc, PartFrame::While(at), rest),
        Word::Switch => head(alloc, PartFrame::Switch(at), rest),
        Word::Do => {
            let frame = Frame::Line(LineFrame::Do(at));
            opens(alloc, frame, Control::Statement, rest)
        }
        Word::For => for_head(alloc, scope, at, rest),
        Word::Case => {
            let frame = Frame::Part(PartFrame::Case(at));
            opens(alloc, frame, Control::Expr(CONDITIONAL), rest)
        }
        Word::Default => label(alloc, at, rest),
        Word::Break => break_ends(alloc, at, rest),
        Word::Continue => continue_ends(alloc, at, rest),
        Word::Return => give_back(alloc, at, rest),
        _ => expr_statement(alloc, at, tokens),
    }
}

fn statement_mark<'t>(
    alloc: Global,
    scope: &Scope,
    tokens: &'t [Token],
    rest: &'t [Token],
    at: u32,
    mark: Mark,
) -> Result<Turn<'t>, Stop>
    ensures { Gives went_of result (statement_mark_of scope.now tokens.now rest.now at mark) }
{
    match mark {
        Mark::LBrace => {
            let block = Block {
                body: false,
                scope: scope.len(),
                at,
                lines: empty(alloc),
                height: 0,
            };
            on(alloc, Control::Block(block), rest)
        }
        Mark::Semi => have_line(alloc, at, Line::Expr(None), 0, rest),
        _ => expr_statement(alloc, at, tokens),
    }
}

fn statement_at<'t>(
    alloc: Global,
    scope: &Scope,
    tokens: &'t [Token],
    rest: &'t [Token],
    at: u32,
    kind: &Kind,
) -> Result<Turn<'t>, Stop>
    ensures { Gives went_of result (statement_at_of scope.now tokens.now rest.now at kind.now) }
{
    match kind {
        Kind::Keyword(word) => statement_word(alloc, scope, tokens, rest, at, *word),
        Kind::Punct(mark) => statement_mark(alloc, scope, tokens, rest, at, *mark),
        _ => expr_statement(alloc, at, tokens),
    }
}

/// Reads a statement.
#[tactic(auto, unfolding(cc_tree::specs::TurnLines::statement))]
pub fn statement<'t>(alloc: Global, scope: &Scope, tokens: &'t [Token]) -> Result<Turn<'t>, Stop>
    ensures { Gives went_of result (statement_of scope.now tokens.now) }
{
    match tokens {
        [first, rest @ ..] => statement_at(alloc, scope, tokens, rest, first.at, &first.kind),
        [] => Err(Stop::Wrong(0)),
    }
}

fn close_by<'t>(alloc: Global, block: Block, tokens: &'t [Token]) -> Result<Turn<'t>, Stop>
    ensures { Gives went_of result (close_by_of block.body block tokens.now) }
{
    if block.body {
        let lines = tall(block.lines, block.height);
        return on(alloc, Control::HaveBody(lines), tokens);
    }
    have_line(
        alloc,
        block.at,
        Line::Block(block.lines),
        block.height,
        tokens,
    )
}

fn close_block<'t>(alloc: Global, block: Block, tokens: &'t [Token]) -> Result<Turn<'t>, Stop>
    ensures { Gives went_of result (close_block_of block tokens.now) }
{
    let scope = block.scope;
    let turn = close_by(alloc, block, tokens)?;
    Ok(scoped(Scoping::Leaves(scope), turn))
}

fn block_line<'t>(
    alloc: Global,
    scope: &Scope,
    block: Block,
    tokens: &'t [Token],
) -> Result<Turn<'t>, Stop>
    ensures { Gives went_of result (block_line_of block tokens.now (begins_specs_of scope.now tokens.now)) }
{
    if begins_specs(scope, tokens) {
        opens(alloc, Frame::Block(block), Control::Decl(false), tokens)
    } else {
        opens(alloc, Frame::Block(block), Control::Statement, tokens)
    }
}

/// Reads a line of a block, or its end.
#[tactic(auto, unfolding(cc_tree::specs::TurnLines::block))]
pub fn block<'t>(
    alloc: Global,
    scope: &Scope,
    block: Block,
    tokens: &'t [Token],
) -> Result<Turn<'t>, Stop>
    ensures { Gives went_of result (block_of scope.now block tokens.now) }
{
    match after(Mark::RBrace, tokens) {
        Some(rest) => close_block(alloc, block, rest),
        None => block_line(alloc, scope, block, tokens),
    }
}

/// A block with one line more.
pub fn with_line(block: Block, line: At<Line>, height: usize) -> Result<Block, Stop>
    ensures { Gives (λ b. b) result (OkOf (with_line_of block line height)) }
{
    let height = block.height.max(height);
    let lines = with(block.lines, line)?;
    Ok(Block {
        body: block.body,
        scope: block.scope,
        at: block.at,
        lines,
        height,
    })
}

pub fn with_test(parts: For, test: Option<Boxed<At<Tree>>>, height: usize) -> For
    ensures { result ≡ with_test_of parts test height }
{
    let height = parts.height.max(height);
    For {
        at: parts.at,
        scope: parts.scope,
        first: parts.first,
        test,
        step: parts.step,
        height,
    }
}

pub fn with_step(parts: For, step: Option<Boxed<At<Tree>>>, height: usize) -> For
    ensures { result ≡ with_step_of parts step height }
{
    let height = parts.height.max(height);
    For {
        at: parts.at,
        scope: parts.scope,
        first: parts.first,
        test: parts.test,
        step,
        height,
    }
}

/// Reads the test of a `for`.
#[tactic(auto, unfolding(cc_tree::specs::TurnLines::for_test))]
pub fn for_test<'t>(alloc: Global, parts: For, tokens: &'t [Token]) -> Result<Turn<'t>, Stop>
    ensures { Gives went_of result (for_test_of parts tokens.now) }
{
    match after(Mark::Semi, tokens) {
        Some(rest) => on(alloc, Control::Step(parts), rest),
        None => opens(
            alloc,
            Frame::Part(PartFrame::Test(parts)),
            Control::Expr(COMMA),
            tokens,
        ),
    }
}

/// Reads the last part of a `for`.
#[tactic(auto, unfolding(cc_tree::specs::TurnLines::for_step))]
pub fn for_step<'t>(alloc: Global, parts: For, tokens: &'t [Token]) -> Result<Turn<'t>, Stop>
    ensures { Gives went_of result (for_step_of parts tokens.now) }
{
    match after(Mark::RParen, tokens) {
        Some(rest) => opens(
            alloc,
            Frame::Line(LineFrame::For(parts)),
            Control::Statement,
            rest,
        ),
        None => opens(
            alloc,
            Frame::Part(PartFrame::Step(parts)),
            Control::Expr(COMMA),
            tokens,
        ),
    }
}
