//! Turns on declarators (C99 6.7.5, 6.7.6).

ghost use Rattle.std.specs.Prelude.{◌≡◌, ◌||◌};
ghost use Rattle.cc_tree.specs.Reading.{Gives, after as after_of, begins_with as begins_with_of};
ghost use Rattle.cc_tree.specs.ReadTypes.{begins_spec as begins_spec_of};
ghost use Rattle.cc_tree.specs.Scopes.{is_typedef as is_typedef_of};
ghost use Rattle.cc_tree.specs.Terms.{is_nothing as is_nothing_of};
ghost use Rattle.cc_tree.specs.Turns.{went_of};
ghost use Rattle.cc_tree.specs.TurnTypes as types;
ghost use Rattle.cc_lex.specs.declared.token.Mark.TheVariants.{RBracket, RParen};

use cc_lex::{Kind, Mark, Token};
use cc_tree::state::{Control, DeclrFrame, Frame, Function, Node, PartFrame, SpecsFrame, Turn};
use cc_tree::stop::Stop;
use cc_tree::{Declr, Params};
use cc_turns::cursor::{after, begins_with, first_mark, offset, owned};
use cc_turns::forms::is_nothing;
use cc_turns::names::begins_spec;
use cc_turns::operators::CONDITIONAL;
use cc_turns::pieces::qualifiers;
use cc_turns::scope::Scope;
use cc_turns::turns::{closed, empty, made, on, opens, raised, refused, tall};
use std::alloc::Global;

/// The name is left out.
fn no_name<'t>(alloc: Global, tokens: &'t [Token]) -> Result<Turn<'t>, Stop>
    ensures { Gives went_of result (types.no_name tokens.now) }
{
    let nothing = made(alloc, offset(tokens), Declr::Nothing, 0)?;
    on(alloc, Control::Suffix(nothing), tokens)
}

/// A name, unless it is a typedef's.
fn declr_name<'t>(
    alloc: Global,
    scope: &Scope,
    all: &'t [Token],
    tokens: &'t [Token],
    at: u32,
    name: &[u8],
) -> Result<Turn<'t>, Stop>
    ensures { Gives went_of result (types.declr_name all.now tokens.now at name.now (is_typedef_of scope.now name.now)) }
{
    if scope.is_typedef(name) {
        return no_name(alloc, all);
    }
    let node = Declr::Named(owned(alloc, name)?);
    on(alloc, Control::Suffix(made(alloc, at, node, 0)?), tokens)
}

/// A parenthesis, which opens a function's parameters in front of `)` and in front of a specifier.
fn declr_paren<'t>(
    alloc: Global,
    scope: &Scope,
    all: &'t [Token],
    tokens: &'t [Token],
    at: u32,
) -> Result<Turn<'t>, Stop>
    ensures { Gives went_of result (types.declr_paren all.now tokens.now at (begins_with_of RParen tokens.now || begins_spec_of scope.now tokens.now)) }
{
    if begins_with(Mark::RParen, tokens) || begins_spec(scope, tokens) {
        return no_name(alloc, all);
    }
    opens(
        alloc,
        Frame::Declr(DeclrFrame::Paren(at)),
        Control::Declr,
        tokens,
    )
}

/// A pointer, behind its star.
fn pointer<'t>(alloc: Global, tokens: &'t [Token], at: u32) -> Result<Turn<'t>, Stop>
    ensures { Gives went_of result (types.pointer tokens.now at) }
{
    let (qualifiers, rest) = qualifiers(alloc, tokens)?;
    let frame = Frame::Declr(DeclrFrame::Pointer(at, qualifiers));
    opens(alloc, frame, Control::Declr, rest)
}

fn declr_mark<'t>(
    alloc: Global,
    scope: &Scope,
    all: &'t [Token],
    tokens: &'t [Token],
    at: u32,
    mark: Mark,
) -> Result<Turn<'t>, Stop>
    ensures { Gives went_of result (types.declr_mark scope.now all.now tokens.now at mark) }
{
    match mark {
        Mark::Star => pointer(alloc, tokens, at),
        Mark::LParen => declr_paren(alloc, scope, all, tokens, at),
        _ => no_name(alloc, all),
    }
}

/// A declarator.
#[tactic(auto, unfolding(cc_tree::specs::TurnTypes::declarator))]
pub fn declarator<'t>(alloc: Global, scope: &Scope, tokens: &'t [Token]) -> Result<Turn<'t>, Stop>
    ensures { Gives went_of result (types.declarator scope.now tokens.now) }
{
    match tokens {
        [first, rest @ ..] => match &first.kind {
            Kind::Ident(x) => declr_name(alloc, scope, tokens, rest, first.at, x.all()),
            Kind::Punct(mark) => declr_mark(alloc, scope, tokens, rest, first.at, *mark),
            _ => no_name(alloc, tokens),
        },
        [] => no_name(alloc, tokens),
    }
}

/// An array, behind its bracket.
fn array<'t>(alloc: Global, declr: Node<Declr>, tokens: &'t [Token]) -> Result<Turn<'t>, Stop>
    ensures { Gives went_of result (types.array declr tokens.now (after_of RBracket tokens.now)) }
{
    match after(Mark::RBracket, tokens) {
        Some(rest) => {
            let at = declr.node.get().at;
            let node = Declr::Array(declr.node, None);
            on(
                alloc,
                Control::Suffix(raised(alloc, at, node, declr.height)?),
                rest,
            )
        }
        None => {
            let frame = Frame::Part(PartFrame::Bound(declr));
            opens(alloc, frame, Control::Expr(CONDITIONAL), tokens)
        }
    }
}

/// A function, behind its parenthesis.
fn function<'t>(alloc: Global, declr: Node<Declr>, tokens: &'t [Token]) -> Result<Turn<'t>, Stop>
    ensures { Gives went_of result (types.function declr tokens.now (after_of RParen tokens.now)) }
{
    match after(Mark::RParen, tokens) {
        Some(rest) => {
            let at = declr.node.get().at;
            let node = Declr::Func(declr.node, Params::Empty);
            on(
                alloc,
                Control::Suffix(raised(alloc, at, node, declr.height)?),
                rest,
            )
        }
        None => {
            let function = Function {
                declr: declr.node,
                params: empty(alloc),
                height: declr.height,
            };
            let frame = Frame::Specs(SpecsFrame::Param(function, offset(tokens)));
            opens(alloc, frame, Control::Specs(tall(empty(alloc), 0)), tokens)
        }
    }
}

fn suffix_by<'t>(
    alloc: Global,
    declr: Node<Declr>,
    all: &'t [Token],
    tokens: &'t [Token],
    mark: Mark,
) -> Result<Turn<'t>, Stop>
    ensures { Gives went_of result (types.suffix_by declr all.now tokens.now mark) }
{
    match mark {
        Mark::LBracket => array(alloc, declr, tokens),
        Mark::LParen => function(alloc, declr, tokens),
        _ => on(alloc, Control::HaveDeclr(declr), all),
    }
}

/// What stands behind a direct declarator.
#[tactic(auto, unfolding(cc_tree::specs::TurnTypes::suffix))]
pub fn suffix<'t>(alloc: Global, declr: Node<Declr>, tokens: &'t [Token]) -> Result<Turn<'t>, Stop>
    ensures { Gives went_of result (types.suffix declr tokens.now) }
{
    match first_mark(tokens) {
        Some((mark, rest)) => suffix_by(alloc, declr, tokens, rest, mark),
        None => on(alloc, Control::HaveDeclr(declr), tokens),
    }
}

/// A declarator in parentheses, which is not left out.
pub fn paren_declr<'t>(
    alloc: Global,
    at: u32,
    declr: Node<Declr>,
    tokens: &'t [Token],
) -> Result<Turn<'t>, Stop>
    ensures { Gives went_of result (types.paren_declr at declr tokens.now (is_nothing_of declr.node.node)) }
{
    if is_nothing(&declr.node.get().node) {
        return Err(refused(declr, tokens));
    }
    let (declr, rest) = closed(declr, Mark::RParen, tokens)?;
    let node = Declr::Paren(declr.node);
    on(
        alloc,
        Control::Suffix(raised(alloc, at, node, declr.height)?),
        rest,
    )
}
