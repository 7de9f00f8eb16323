//! The turns on initialisers and declarations (C99 6.7).

ghost use Rattle.std.specs.Prelude.{◌≡◌, ◌&&◌, ◌++◌, ◌∷◌, [], max, Ok as OkOf};
ghost use Rattle.cc_tree.specs.Reading.{Gives, after as after_of, begins_with as begins_with_of};
ghost use Rattle.cc_tree.specs.Scopes.{name_of};
ghost use Rattle.cc_tree.specs.Turns.{went_of, tall as tall_of};
ghost use Rattle.cc_tree.specs.TurnLines.{value as value_of, close_values as close_values_of, behind_comma as behind_comma_of, values as values_of, values_by as values_by_of, declaration as declaration_of, with_init as with_init_of, with_height as with_height_of, declared as declared_of, init_value as init_value_of, init as init_of, no_init as no_init_of, body as body_of, declr_attrs as declr_attrs_of, declr_done as declr_done_of, have_decl as have_decl_of, inits as inits_of, decl_specs as decl_specs_of};
ghost use Rattle.cc_lex.specs.declared.token.Mark.TheVariants.{Assign, Comma, RBrace};

use crate::specifiers::with_attrs;
use cc_lex::{Mark, Token};
use cc_num::{Boxed, List, Name};
use cc_tree::state::{
    Block, Control, Declaration, DeclrFrame, Frame, Head, Node, PartFrame, Scoping, SpecsFrame,
    Tall, Turn, ValueFrame,
};
use cc_tree::stop::Stop;
use cc_tree::{At, Attr, Decl, Declr, Given, Init, Spec};
use cc_turns::cursor::{after, begins_with, offset, owned};
use cc_turns::forms::{declared_name, declares_types};
use cc_turns::operators::ASSIGNMENT;
use cc_turns::scope::Scope;
use cc_turns::turns::{
    closed, discard, empty, grown, on, opens, raised, refused, scoped, tall, with,
};
use std::alloc::Global;

/// Reads an initialiser.
#[tactic(auto, unfolding(cc_tree::specs::TurnLines::value))]
pub fn value<'t>(alloc: Global, tokens: &'t [Token]) -> Result<Turn<'t>, Stop>
    ensures { Gives went_of result (value_of tokens.now) }
{
    match after(Mark::LBrace, tokens) {
        None => {
            let frame = Frame::Part(PartFrame::Value);
            opens(alloc, frame, Control::Expr(ASSIGNMENT), tokens)
        }
        Some(rest) => {
            let none = tall(empty(alloc), 0);
            let frame = Frame::Value(ValueFrame::Many(offset(tokens), none));
            opens(alloc, frame, Control::Value, rest)
        }
    }
}

fn close_values<'t>(
    alloc: Global,
    at: u32,
    values: Tall<List<At<Given>>>,
    tokens: &'t [Token],
) -> Result<Turn<'t>, Stop>
    ensures { Gives went_of result (close_values_of at values tokens.now) }
{
    let (values, rest) = closed(values, Mark::RBrace, tokens)?;
    let value = raised(alloc, at, Given::Many(values.node), values.height)?;
    on(alloc, Control::HaveValue(value), rest)
}

fn behind_comma<'t>(
    alloc: Global,
    at: u32,
    values: Tall<List<At<Given>>>,
    tokens: &'t [Token],
) -> Result<Turn<'t>, Stop>
    ensures { Gives went_of result (behind_comma_of at values tokens.now (begins_with_of RBrace tokens.now)) }
{
    if begins_with(Mark::RBrace, tokens) {
        return close_values(alloc, at, values, tokens);
    }
    let frame = Frame::Value(ValueFrame::Many(at, values));
    opens(alloc, frame, Control::Value, tokens)
}

/// Looks behind values in braces.
fn behind_values<'t>(
    alloc: Global,
    at: u32,
    values: Tall<List<At<Given>>>,
    tokens: &'t [Token],
) -> Result<Turn<'t>, Stop>
    ensures { Gives went_of result (values_by_of at values tokens.now (after_of Comma tokens.now)) }
{
    match after(Mark::Comma, tokens) {
        None => close_values(alloc, at, values, tokens),
        Some(rest) => behind_comma(alloc, at, values, rest),
    }
}

/// Values in braces with one more.
fn with_value(
    values: Tall<List<At<Given>>>,
    value: Node<Given>,
) -> Result<Tall<List<At<Given>>>, Stop>
    ensures { Gives (λ v. v) result (OkOf (tall_of (values.node ++ value.node ∷ []) (max values.height value.height))) }
{
    let height = values.height.max(value.height);
    let list = with(values.node, value.node.into_inner())?;
    Ok(tall(list, height))
}

/// Looks behind a value in braces, which stands behind others.
pub fn values<'t>(
    alloc: Global,
    at: u32,
    values: Tall<List<At<Given>>>,
    value: Node<Given>,
    tokens: &'t [Token],
) -> Result<Turn<'t>, Stop>
    ensures { Gives went_of result (values_of at values value tokens.now) }
{
    let values = with_value(values, value)?;
    behind_values(alloc, at, values, tokens)
}

/// Reads a declaration, which stands in no function or in one.
pub fn declaration<'t>(alloc: Global, outside: bool, tokens: &'t [Token]) -> Result<Turn<'t>, Stop>
    ensures { Gives went_of result (declaration_of outside tokens.now) }
{
    let frame = Frame::Specs(SpecsFrame::Decl(outside, offset(tokens)));
    opens(alloc, frame, Control::Specs(tall(empty(alloc), 0)), tokens)
}

/// A declaration with one declarator more.
pub fn with_init(
    declaration: Declaration,
    declr: Boxed<At<Declr>>,
    attrs: List<At<Attr>>,
    value: Option<At<Given>>,
    height: usize,
) -> Result<Declaration, Stop>
    ensures { Gives (λ d. d) result (OkOf (with_init_of declaration declr attrs value height)) }
{
    let Declaration {
        outside,
        at,
        specs,
        inits,
        height: before,
    } = declaration;
    let declr = declr.into_inner();
    let begin = declr.at;
    let node = Init {
        declr,
        attrs,
        value,
    };
    let (specs, inits) = grown(specs, inits, At { at: begin, node })?;
    let height = before.max(height);
    Ok(Declaration {
        outside,
        at,
        specs,
        inits,
        height,
    })
}

fn with_height(declaration: Declaration, height: usize) -> Declaration
    ensures { result ≡ with_height_of declaration height }
{
    let height = declaration.height.max(height);
    Declaration {
        outside: declaration.outside,
        at: declaration.at,
        specs: declaration.specs,
        inits: declaration.inits,
        height,
    }
}

fn init_value<'t>(
    alloc: Global,
    declaration: Declaration,
    declr: Node<Declr>,
    attrs: List<At<Attr>>,
    tokens: &'t [Token],
) -> Result<Turn<'t>, Stop>
    ensures { Gives went_of result (init_value_of declaration declr attrs tokens.now (after_of Assign tokens.now)) }
{
    match after(Mark::Assign, tokens) {
        Some(rest) => {
            let declaration = with_height(declaration, declr.height);
            let frame = Frame::Value(ValueFrame::Init(declaration, declr.node, attrs));
            opens(alloc, frame, Control::Value, rest)
        }
        None => {
            let declaration = with_init(declaration, declr.node, attrs, None, declr.height)?;
            on(alloc, Control::Inits(declaration), tokens)
        }
    }
}

fn declared(types: bool, name: Name) -> Scoping
    ensures { result ≡ declared_of types name }
{
    if types {
        Scoping::Declares(name)
    } else {
        Scoping::Same
    }
}

fn init<'t>(
    alloc: Global,
    declaration: Declaration,
    declr: Node<Declr>,
    attrs: List<At<Attr>>,
    name: Name,
    tokens: &'t [Token],
) -> Result<Turn<'t>, Stop>
    ensures { Gives went_of result (init_of declaration declr attrs name tokens.now) }
{
    let scoping = declared(declares_types(declaration.specs.all()), name);
    let turn = init_value(alloc, declaration, declr, attrs, tokens)?;
    Ok(scoped(scoping, turn))
}

fn no_init(inits: &[At<Init>]) -> bool
    ensures { result ≡ no_init_of inits.now }
{
    match inits {
        [] => true,
        [_, ..] => false,
    }
}

fn body<'t>(
    alloc: Global,
    scope: &Scope,
    declaration: Declaration,
    declr: Node<Declr>,
    attrs: List<At<Attr>>,
    tokens: &'t [Token],
) -> Result<Turn<'t>, Stop>
    ensures { Gives went_of result (body_of scope.now declaration declr attrs tokens.now) }
{
    let height = declaration.height.max(declr.height);
    let head = Head {
        at: declaration.at,
        specs: declaration.specs,
        declr: declr.node,
        attrs,
        height,
    };
    let block = Block {
        body: true,
        scope: scope.len(),
        at: offset(tokens),
        lines: empty(alloc),
        height: 0,
    };
    opens(alloc, Frame::Body(head), Control::Block(block), tokens)
}

fn may_be_function(declaration: &Declaration) -> bool
    ensures { result ≡ (declaration.now.outside && no_init_of declaration.now.inits) }
{
    declaration.outside && no_init(declaration.inits.all())
}

fn declr_attrs<'t>(
    alloc: Global,
    scope: &Scope,
    declaration: Declaration,
    declr: Node<Declr>,
    name: Name,
    tokens: &'t [Token],
) -> Result<Turn<'t>, Stop>
    ensures { Gives went_of result (declr_attrs_of scope.now declaration declr name tokens.now) }
{
    let (((declaration, declr, name), attrs), rest) = with_attrs(
        alloc,
        (declaration, declr, name),
        tokens,
    )?;
    match after(Mark::LBrace, rest) {
        Some(inner) => {
            if may_be_function(&declaration) {
                discard(name);
                return body(alloc, scope, declaration, declr, attrs, inner);
            }
            init(alloc, declaration, declr, attrs, name, rest)
        }
        None => init(alloc, declaration, declr, attrs, name, rest),
    }
}

fn copied_name(alloc: Global, declr: &Declr) -> Result<Option<Name>, Stop>
    ensures { Gives (λ x. x) result (OkOf (name_of declr.now)) }
{
    match declared_name(declr) {
        None => Ok(None),
        Some(name) => Ok(Some(owned(alloc, name)?)),
    }
}

/// A declaration, a declarator, and a copy of the name that it declares.
fn with_name<A: Drop>(
    alloc: Global,
    read: A,
    declr: Node<Declr>,
) -> Result<(A, Node<Declr>, Option<Name>), Stop>
    ensures { Gives (λ r. r) result (OkOf (read, declr, name_of declr.node.node)) }
{
    let name = copied_name(alloc, &declr.node.get().node)?;
    Ok((read, declr, name))
}

/// Looks behind a declarator of a declaration.
pub fn declr_done<'t>(
    alloc: Global,
    scope: &Scope,
    declaration: Declaration,
    declr: Node<Declr>,
    tokens: &'t [Token],
) -> Result<Turn<'t>, Stop>
    ensures { Gives went_of result (declr_done_of scope.now declaration declr tokens.now (name_of declr.node.node)) }
{
    let (declaration, declr, name) = with_name(alloc, declaration, declr)?;
    match name {
        None => Err(refused((declaration, declr), tokens)),
        Some(name) => declr_attrs(alloc, scope, declaration, declr, name, tokens),
    }
}

fn have_decl<'t>(
    alloc: Global,
    declaration: Declaration,
    tokens: &'t [Token],
) -> Result<Turn<'t>, Stop>
    ensures { Gives went_of result (have_decl_of declaration tokens.now) }
{
    let decl = Decl {
        specs: declaration.specs,
        inits: declaration.inits,
    };
    on(
        alloc,
        Control::HaveDecl(declaration.at, tall(decl, declaration.height)),
        tokens,
    )
}

/// Looks behind a declarator with its attributes and its value.
#[tactic(auto, unfolding(cc_tree::specs::TurnLines::inits))]
pub fn inits<'t>(
    alloc: Global,
    declaration: Declaration,
    tokens: &'t [Token],
) -> Result<Turn<'t>, Stop>
    ensures { Gives went_of result (inits_of declaration tokens.now) }
{
    match after(Mark::Comma, tokens) {
        Some(rest) => {
            let frame = Frame::Declr(DeclrFrame::Init(declaration));
            opens(alloc, frame, Control::Declr, rest)
        }
        None => {
            let (declaration, rest) = closed(declaration, Mark::Semi, tokens)?;
            have_decl(alloc, declaration, rest)
        }
    }
}

/// Looks behind the specifiers of a declaration.
pub fn decl_specs<'t>(
    alloc: Global,
    outside: bool,
    at: u32,
    specs: Tall<List<At<Spec>>>,
    tokens: &'t [Token],
) -> Result<Turn<'t>, Stop>
    ensures { Gives went_of result (decl_specs_of outside at specs tokens.now) }
{
    let declaration = Declaration {
        outside,
        at,
        specs: specs.node,
        inits: empty(alloc),
        height: specs.height,
    };
    match after(Mark::Semi, tokens) {
        Some(rest) => have_decl(alloc, declaration, rest),
        None => opens(
            alloc,
            Frame::Declr(DeclrFrame::Init(declaration)),
            Control::Declr,
            tokens,
        ),
    }
}
