//! Turns on the members of structures and the constants of enumerations (C99 6.7.2.1, 6.7.2.2).

ghost use Rattle.std.specs.Prelude.{◌≡◌, ◌++◌, ◌∷◌, [], is_some, Some, Ok as OkOf};
ghost use Rattle.cc_tree.specs.Reading.{Gives, ◌>>=◌ as bind, after as after_of, begins_with as begins_with_of};
ghost use Rattle.cc_tree.specs.ReadTypes.{attrs as attrs_of};
ghost use Rattle.cc_tree.specs.Scopes.{name_of};
ghost use Rattle.cc_tree.specs.Turns.{went_of, tall as tall_of};
ghost use Rattle.cc_tree.specs.TurnTypes as types;
ghost use Rattle.cc_tree.specs.declared.tree.Spec as node;
ghost use Rattle.cc_lex.specs.declared.token.Mark.TheVariants.{Assign, Comma, RBrace};

use crate::specifiers::{onto, with_attrs, with_spec};
use cc_lex::{Mark, Token};
use cc_num::{Boxed, List, Name};
use cc_tree::state::{
    Control, DeclrFrame, Enumeration, Frame, Members, Node, PartFrame, SpecsFrame, Structure, Tall,
    Turn,
};
use cc_tree::stop::Stop;
use cc_tree::{At, Attr, Declr, Enumr, MemberDecl, Spec, Tree};
use cc_turns::cursor::{after, begins_with, offset};
use cc_turns::forms::has_name;
use cc_turns::operators::CONDITIONAL;
use cc_turns::scope::Scope;
use cc_turns::turns::{closed, empty, grown, named, on, opens, refused, tall};
use std::alloc::Global;

fn no_member(members: &[At<MemberDecl>]) -> bool
    ensures { result ≡ types.no_member members.now }
{
    match members {
        [] => true,
        _ => false,
    }
}

/// The attributes behind the brace that closes a structure.
fn behind_structure<'t>(
    alloc: Global,
    structure: Structure,
    tokens: &'t [Token],
) -> Result<Turn<'t>, Stop>
    ensures { Gives went_of result (bind (attrs_of tokens.now) (λ a. types.behind_spec structure.outer structure.at (node.Struct structure.tag (Some structure.members) structure.attrs a.0) structure.height a.1)) }
{
    let ((structure, behind), rest) = with_attrs(alloc, structure, tokens)?;
    let Structure {
        outer,
        at,
        tag,
        attrs,
        members,
        height,
    } = structure;
    let node = Spec::Struct(tag, Some(members), attrs, behind);
    let specs = with_spec(outer, at, node, height)?;
    let control = Boxed::new(alloc, Control::Specs(specs))?;
    Ok(onto(control, rest))
}

/// Behind the brace that closes a structure.
fn close_structure<'t>(
    alloc: Global,
    structure: Structure,
    all: &'t [Token],
    tokens: &'t [Token],
) -> Result<Turn<'t>, Stop>
    ensures { Gives went_of result (types.close_structure structure all.now tokens.now (types.no_member structure.members)) }
{
    if no_member(structure.members.all()) {
        return Err(refused(structure, all));
    }
    behind_structure(alloc, structure, tokens)
}

/// A member of a structure, or its end.
#[tactic(auto, unfolding(cc_tree::specs::TurnTypes::structure))]
pub fn structure<'t>(
    alloc: Global,
    structure: Structure,
    tokens: &'t [Token],
) -> Result<Turn<'t>, Stop>
    ensures { Gives went_of result (types.structure structure tokens.now) }
{
    match after(Mark::RBrace, tokens) {
        Some(rest) => close_structure(alloc, structure, tokens, rest),
        None => {
            let frame = Frame::Specs(SpecsFrame::Member(structure, offset(tokens)));
            opens(alloc, frame, Control::Specs(tall(empty(alloc), 0)), tokens)
        }
    }
}

/// The members that are declared with these specifiers.
pub fn open_members(
    alloc: Global,
    structure: Structure,
    at: u32,
    specs: Tall<List<At<Spec>>>,
) -> Members
    ensures { result ≡ types.open_members structure at specs }
{
    let height = structure.height.max(specs.height);
    Members {
        structure,
        at,
        specs: specs.node,
        declrs: empty(alloc),
        height,
    }
}

/// One declarator more.
fn with_declr(members: Members, declr: Node<Declr>) -> Result<Members, Stop>
    ensures { Gives (λ m. m) result (OkOf (types.with_declr members declr)) }
{
    let Members {
        structure,
        at,
        specs,
        declrs,
        height,
    } = members;
    let height = height.max(declr.height);
    let ((structure, specs), declrs) = grown((structure, specs), declrs, declr.node.into_inner())?;
    Ok(Members {
        structure,
        at,
        specs,
        declrs,
        height,
    })
}

/// The structure with these members more.
fn with_members(more: Members) -> Result<Structure, Stop>
    ensures { Gives (λ s. s) result (OkOf (types.with_members more)) }
{
    let Members {
        structure,
        at,
        specs,
        declrs,
        height,
    } = more;
    let Structure {
        outer,
        at: begin,
        tag,
        attrs,
        members,
        ..
    } = structure;
    let node = MemberDecl { specs, declrs };
    let ((outer, tag, attrs), members) = grown((outer, tag, attrs), members, At { at, node })?;
    Ok(Structure {
        outer,
        at: begin,
        tag,
        attrs,
        members,
        height,
    })
}

/// What stands behind the declarator of a member.
fn members_at<'t>(alloc: Global, members: Members, tokens: &'t [Token]) -> Result<Turn<'t>, Stop>
    ensures { Gives went_of result (types.members_at members tokens.now (after_of Comma tokens.now)) }
{
    match after(Mark::Comma, tokens) {
        Some(rest) => {
            let frame = Frame::Declr(DeclrFrame::Member(members));
            opens(alloc, frame, Control::Declr, rest)
        }
        None => {
            let (members, rest) = closed(members, Mark::Semi, tokens)?;
            on(alloc, Control::Structure(with_members(members)?), rest)
        }
    }
}

/// The declarator of a member, which has a name.
pub fn member_declr<'t>(
    alloc: Global,
    members: Members,
    declr: Node<Declr>,
    tokens: &'t [Token],
) -> Result<Turn<'t>, Stop>
    ensures { Gives went_of result (types.member_declr members declr tokens.now (is_some (name_of declr.node.node))) }
{
    if has_name(&declr.node.get().node) {
        return members_at(alloc, with_declr(members, declr)?, tokens);
    }
    Err(refused((members, declr), tokens))
}

/// An enumeration with one constant more, whose value has this height.
pub fn with_enumr(
    enumeration: Enumeration,
    at: u32,
    name: Name,
    value: Option<At<Tree>>,
    height: usize,
) -> Result<Enumeration, Stop>
    ensures { Gives (λ e. e) result (OkOf (types.with_enumr enumeration at name value height)) }
{
    let Enumeration {
        outer,
        at: begin,
        tag,
        enumrs,
        height: before,
    } = enumeration;
    let node = Enumr { name, value };
    let ((outer, tag), enumrs) = grown((outer, tag), enumrs, At { at, node })?;
    let height = before.max(height);
    Ok(Enumeration {
        outer,
        at: begin,
        tag,
        enumrs,
        height,
    })
}

/// Behind the name of an enumeration constant.
fn enumr_at<'t>(
    alloc: Global,
    enumeration: Enumeration,
    at: u32,
    name: Name,
    tokens: &'t [Token],
) -> Result<Turn<'t>, Stop>
    ensures { Gives went_of result (types.enumr_at enumeration at name tokens.now (after_of Assign tokens.now)) }
{
    match after(Mark::Assign, tokens) {
        Some(rest) => {
            let frame = Frame::Part(PartFrame::Enumr(enumeration, at, name));
            opens(alloc, frame, Control::Expr(CONDITIONAL), rest)
        }
        None => {
            let enumeration = with_enumr(enumeration, at, name, None, 0)?;
            on(alloc, Control::Enumeration(enumeration), tokens)
        }
    }
}

/// An enumeration constant.
#[tactic(auto, unfolding(cc_tree::specs::TurnTypes::enumr))]
pub fn enumr<'t>(
    alloc: Global,
    scope: &Scope,
    enumeration: Enumeration,
    tokens: &'t [Token],
) -> Result<Turn<'t>, Stop>
    ensures { Gives went_of result (types.enumr scope.now enumeration tokens.now) }
{
    let ((enumeration, name), rest) = named(alloc, enumeration, tokens)?;
    if scope.is_typedef(name.all()) {
        return Err(refused(enumeration, tokens));
    }
    enumr_at(alloc, enumeration, offset(tokens), name, rest)
}

/// The end of an enumeration.
fn close_enumeration<'t>(
    alloc: Global,
    enumeration: Enumeration,
    tokens: &'t [Token],
) -> Result<Turn<'t>, Stop>
    ensures { Gives went_of result (types.close_enumeration enumeration tokens.now) }
{
    let (enumeration, rest) = closed(enumeration, Mark::RBrace, tokens)?;
    let Enumeration {
        outer,
        at,
        tag,
        enumrs,
        height,
    } = enumeration;
    let node = Spec::Enum(tag, Some(enumrs));
    let specs = with_spec(outer, at, node, height)?;
    let control = Boxed::new(alloc, Control::Specs(specs))?;
    Ok(onto(control, rest))
}

/// What stands behind a comma behind an enumeration constant.
fn behind_comma<'t>(
    alloc: Global,
    enumeration: Enumeration,
    tokens: &'t [Token],
) -> Result<Turn<'t>, Stop>
    ensures { Gives went_of result (types.behind_comma enumeration tokens.now (begins_with_of RBrace tokens.now)) }
{
    if begins_with(Mark::RBrace, tokens) {
        return close_enumeration(alloc, enumeration, tokens);
    }
    on(alloc, Control::Enumr(enumeration), tokens)
}

/// What stands behind an enumeration constant.
#[tactic(auto, unfolding(cc_tree::specs::TurnTypes::enumeration))]
pub fn enumeration<'t>(
    alloc: Global,
    enumeration: Enumeration,
    tokens: &'t [Token],
) -> Result<Turn<'t>, Stop>
    ensures { Gives went_of result (types.enumeration enumeration tokens.now) }
{
    match after(Mark::Comma, tokens) {
        Some(rest) => behind_comma(alloc, enumeration, rest),
        None => close_enumeration(alloc, enumeration, tokens),
    }
}
