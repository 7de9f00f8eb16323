//! Turns on expressions (C99 6.5).

ghost use Rattle.std.specs.Prelude.{◌≡◌, ◌&&◌, nat_le, Ok as OkOf};
ghost use Rattle.cc_tree.specs.Operators.{cast_level, operand_level as operand_level_of};
ghost use Rattle.cc_tree.specs.Reading.{Gives, same_mark as same_mark_of, after as after_of};
ghost use Rattle.cc_tree.specs.ReadTypes.{begins_specs as begins_specs_of, texts as texts_of};
ghost use Rattle.cc_tree.specs.Scopes.{is_typedef as is_typedef_of};
ghost use Rattle.cc_tree.specs.Turns.{went_of, on as on_of, opens as opens_of, made as made_of};
ghost use Rattle.cc_tree.specs.TurnTrees as trees;
ghost use Rattle.cc_tree.specs.declared.state.Control.TheVariants.{Expr as ExprOf, Postfix as PostfixOf};
ghost use Rattle.cc_tree.specs.declared.state.Frame.TheVariants.{Tree as TreeOf};
ghost use Rattle.cc_tree.specs.declared.tree.Tree.{Text as TextOf};
ghost use Rattle.cc_lex.specs.declared.token.Mark.TheVariants.{LParen};

use crate::cursor::{after, owned, same_mark};
use crate::names::begins_specs;
use crate::operators::{CAST, COMMA, UNARY, operand_level};
use crate::pieces::texts;
use crate::scope::Scope;
use crate::turns::{empty, made, on, opens, tall};
use cc_lex::{Kind, Mark, Token, Word};
use cc_tree::Tree;
use cc_tree::state::{Control, Frame, SpecsFrame, TreeFrame, Turn, Use};
use cc_tree::stop::Stop;
use std::alloc::Global;

/// An expression of this level is wanted.
pub fn expr<'t>(alloc: Global, level: usize, tokens: &'t [Token]) -> Result<Turn<'t>, Stop>
    ensures { Gives went_of result (trees.expr level tokens.now) }
{
    let frame = Frame::Tree(TreeFrame::Operators(level));
    opens(alloc, frame, Control::Operand(level), tokens)
}

/// The specifiers of a type name in parentheses.
fn type_name<'t>(alloc: Global, used: Use, at: u32, tokens: &'t [Token]) -> Result<Turn<'t>, Stop>
    ensures { Gives went_of result (trees.type_name used at tokens.now) }
{
    let frame = Frame::Specs(SpecsFrame::TypeName(used, at));
    opens(alloc, frame, Control::Specs(tall(empty(alloc), 0)), tokens)
}

/// What waits for an expression of this level, and its operand.
pub fn wants<'t>(
    alloc: Global,
    frame: TreeFrame,
    level: usize,
    tokens: &'t [Token],
) -> Result<Turn<'t>, Stop>
    ensures { Gives went_of result (opens_of (TreeOf frame) (ExprOf level) tokens.now) }
{
    opens(alloc, Frame::Tree(frame), Control::Expr(level), tokens)
}

/// A name, where no typedef is in its place.
fn operand_name<'t>(
    alloc: Global,
    scope: &Scope,
    all: &'t [Token],
    tokens: &'t [Token],
    at: u32,
    name: &[u8],
) -> Result<Turn<'t>, Stop>
    ensures { Gives went_of result (trees.operand_name all.now tokens.now at name.now (is_typedef_of scope.now name.now)) }
{
    if scope.is_typedef(name) {
        return Err(Stop::Wrong(all.len()));
    }
    let node = Tree::Named(owned(alloc, name)?);
    on(alloc, Control::Postfix(made(alloc, at, node, 0)?), tokens)
}

/// Behind a parenthesis.
fn operand_paren<'t>(
    alloc: Global,
    scope: &Scope,
    level: usize,
    tokens: &'t [Token],
    at: u32,
) -> Result<Turn<'t>, Stop>
    ensures { Gives went_of result (trees.in_parens tokens.now at (nat_le level cast_level && begins_specs_of scope.now tokens.now)) }
{
    if level <= CAST && begins_specs(scope, tokens) {
        return type_name(alloc, Use::Cast, at, tokens);
    }
    wants(alloc, TreeFrame::Paren(at), COMMA, tokens)
}

/// An operand that begins with a mark.
fn operand_mark<'t>(
    alloc: Global,
    scope: &Scope,
    level: usize,
    all: &'t [Token],
    tokens: &'t [Token],
    at: u32,
    mark: Mark,
) -> Result<Turn<'t>, Stop>
    ensures { Gives went_of result (trees.operand_mark scope.now level all.now tokens.now at mark (operand_level_of mark)) }
{
    match operand_level(mark) {
        Some(least) => wants(alloc, TreeFrame::Prefix(at, mark), least, tokens),
        None => {
            if same_mark(mark, Mark::LParen) {
                return operand_paren(alloc, scope, level, tokens, at);
            }
            Err(Stop::Wrong(all.len()))
        }
    }
}

/// Behind `sizeof`.
fn size_of<'t>(alloc: Global, scope: &Scope, all: &'t [Token], at: u32) -> Result<Turn<'t>, Stop>
    ensures { Gives went_of result (trees.size_of scope.now all.now at (after_of LParen all.now)) }
{
    match after(Mark::LParen, all) {
        Some(tokens) => {
            if begins_specs(scope, tokens) {
                return type_name(alloc, Use::SizeOf, at, tokens);
            }
            wants(alloc, TreeFrame::SizeOf(at), UNARY, all)
        }
        None => wants(alloc, TreeFrame::SizeOf(at), UNARY, all),
    }
}

/// An operand that begins with a word.
fn operand_word<'t>(
    alloc: Global,
    scope: &Scope,
    all: &'t [Token],
    tokens: &'t [Token],
    at: u32,
    word: Word,
) -> Result<Turn<'t>, Stop>
    ensures { Gives went_of result (trees.operand_word scope.now all.now tokens.now at word) }
{
    match word {
        Word::Sizeof => size_of(alloc, scope, tokens, at),
        Word::Extension => wants(alloc, TreeFrame::Extension(at), CAST, tokens),
        _ => Err(Stop::Wrong(all.len())),
    }
}

/// A string literal.
fn operand_text<'t>(alloc: Global, tokens: &'t [Token], at: u32) -> Result<Turn<'t>, Stop>
    ensures { Gives went_of result (on_of (PostfixOf (made_of at (TextOf (texts_of tokens.now).0) 0)) (texts_of tokens.now).1) }
{
    let (bytes, rest) = texts(alloc, tokens)?;
    on(
        alloc,
        Control::Postfix(made(alloc, at, Tree::Text(bytes), 0)?),
        rest,
    )
}

/// An operand, where an expression of this level is wanted.
#[tactic(auto, unfolding(cc_tree::specs::TurnTrees::operand))]
pub fn operand<'t>(
    alloc: Global,
    scope: &Scope,
    level: usize,
    tokens: &'t [Token],
) -> Result<Turn<'t>, Stop>
    ensures { Gives went_of result (trees.operand scope.now level tokens.now) }
{
    match tokens {
        [first, rest @ ..] => {
            let at = first.at;
            match &first.kind {
                Kind::Ident(x) => operand_name(alloc, scope, tokens, rest, at, x.all()),
                Kind::Number(n, suffix) => {
                    let node = Tree::Number(*n, *suffix);
                    on(alloc, Control::Postfix(made(alloc, at, node, 0)?), rest)
                }
                Kind::Character(byte) => {
                    let node = Tree::Character(*byte);
                    on(alloc, Control::Postfix(made(alloc, at, node, 0)?), rest)
                }
                Kind::Text(_) => operand_text(alloc, tokens, at),
                Kind::Punct(mark) => { operand_mark(alloc, scope, level, tokens, rest, at, *mark) }
                Kind::Keyword(word) => operand_word(alloc, scope, tokens, rest, at, *word),
            }
        }
        [] => Err(Stop::Wrong(0)),
    }
}
