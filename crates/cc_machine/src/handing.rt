//! The turns that hand an expression, specifiers, a declarator or an initialiser over.

ghost use Rattle.std.specs.Prelude.{◌≡◌, Ok as OkOf, []};
ghost use Rattle.cc_tree.specs.Reading.{Gives};
ghost use Rattle.cc_tree.specs.Turns.{went_of};
ghost use Rattle.cc_tree.specs.TurnLines.{give_specs as give_specs_of, give_declr as give_declr_of, give_value as give_value_of, to_tree as to_tree_of, to_specs as to_specs_of, to_declr as to_declr_of, to_value as to_value_of};
ghost use Rattle.cc_tree.specs.declared.state.DeclrFrame.TheVariants.{Pointer as PointerFrame};
ghost use Rattle.cc_tree.specs.declared.state.SpecsFrame.TheVariants.{Member as MemberFrame};
ghost use Rattle.cc_tree.specs.declared.state.ValueFrame.TheVariants.{Init as InitFrame};

use crate::parts::give_part;
use cc_declarations::declarations::{decl_specs, declr_done, values, with_init};
use cc_declarations::declarators::paren_declr;
use cc_declarations::parameters::{close_type, param};
use cc_declarations::structures::{member_declr, open_members};
use cc_lex::{Token, Word};
use cc_num::{Boxed, List};
use cc_tree::state::{
    Control, Declaration, DeclrFrame, Frame, Node, SpecsFrame, Structure, Tall, Turn, ValueFrame,
};
use cc_tree::stop::Stop;
use cc_tree::{At, Attr, Declr, Given, Spec, Tree};
use cc_turns::operations::give_tree;
use cc_turns::scope::Scope;
use cc_turns::turns::{on, opens, raised, refused};
use std::alloc::Global;

fn specs_of_member<'t>(
    alloc: Global,
    specs: Tall<List<At<Spec>>>,
    tokens: &'t [Token],
    structure: Structure,
    at: u32,
) -> Result<Turn<'t>, Stop>
    ensures { Gives went_of result (give_specs_of specs tokens.now (MemberFrame structure at)) }
{
    let members = open_members(alloc, structure, at, specs);
    opens(
        alloc,
        Frame::Declr(DeclrFrame::Member(members)),
        Control::Declr,
        tokens,
    )
}

/// Hands specifiers to what waits for them.
fn give_specs<'t>(
    alloc: Global,
    specs: Tall<List<At<Spec>>>,
    tokens: &'t [Token],
    frame: SpecsFrame,
) -> Result<Turn<'t>, Stop>
    ensures { Gives went_of result (give_specs_of specs tokens.now frame) }
{
    match frame {
        SpecsFrame::TypeName(used, at) => opens(
            alloc,
            Frame::Declr(DeclrFrame::TypeName(used, at, specs)),
            Control::Declr,
            tokens,
        ),
        SpecsFrame::Param(function, at) => opens(
            alloc,
            Frame::Declr(DeclrFrame::Param(function, at, specs)),
            Control::Declr,
            tokens,
        ),
        SpecsFrame::Member(structure, at) => specs_of_member(alloc, specs, tokens, structure, at),
        SpecsFrame::Decl(outside, at) => decl_specs(alloc, outside, at, specs, tokens),
    }
}

fn pointed<'t>(
    alloc: Global,
    declr: Node<Declr>,
    tokens: &'t [Token],
    at: u32,
    qualifiers: List<Word>,
) -> Result<Turn<'t>, Stop>
    ensures { Gives went_of result (give_declr_of [] declr tokens.now (PointerFrame at qualifiers)) }
{
    let node = Declr::Pointer(qualifiers, declr.node);
    on(
        alloc,
        Control::HaveDeclr(raised(alloc, at, node, declr.height)?),
        tokens,
    )
}

/// Hands a declarator to what waits for it.
fn give_declr<'t>(
    alloc: Global,
    scope: &Scope,
    declr: Node<Declr>,
    tokens: &'t [Token],
    frame: DeclrFrame,
) -> Result<Turn<'t>, Stop>
    ensures { Gives went_of result (give_declr_of scope.now declr tokens.now frame) }
{
    match frame {
        DeclrFrame::Paren(at) => paren_declr(alloc, at, declr, tokens),
        DeclrFrame::Pointer(at, qualifiers) => pointed(alloc, declr, tokens, at, qualifiers),
        DeclrFrame::TypeName(used, at, specs) => close_type(alloc, used, at, specs, declr, tokens),
        DeclrFrame::Param(function, at, specs) => param(alloc, function, at, specs, declr, tokens),
        DeclrFrame::Member(members) => member_declr(alloc, members, declr, tokens),
        DeclrFrame::Init(declaration) => declr_done(alloc, scope, declaration, declr, tokens),
    }
}

fn give_init<'t>(
    alloc: Global,
    value: Node<Given>,
    tokens: &'t [Token],
    declaration: Declaration,
    declr: Boxed<At<Declr>>,
    attrs: List<At<Attr>>,
) -> Result<Turn<'t>, Stop>
    ensures { Gives went_of result (give_value_of value tokens.now (InitFrame declaration declr attrs)) }
{
    let given = Some(value.node.into_inner());
    let declaration = with_init(declaration, declr, attrs, given, value.height)?;
    on(alloc, Control::Inits(declaration), tokens)
}

/// Hands an initialiser to what waits for it.
fn give_value<'t>(
    alloc: Global,
    value: Node<Given>,
    tokens: &'t [Token],
    frame: ValueFrame,
) -> Result<Turn<'t>, Stop>
    ensures { Gives went_of result (give_value_of value tokens.now frame) }
{
    match frame {
        ValueFrame::Init(declaration, declr, attrs) => give_init(
            alloc,
            value,
            tokens,
            declaration,
            declr,
            attrs,
        ),
        ValueFrame::Many(at, so_far) => values(alloc, at, so_far, value, tokens),
    }
}

/// Hands an expression over.
pub fn to_tree<'t>(
    alloc: Global,
    level: usize,
    tree: Node<Tree>,
    tokens: &'t [Token],
    frame: Boxed<Frame>,
) -> Result<Turn<'t>, Stop>
    ensures { Gives went_of result (to_tree_of level tree tokens.now frame) }
{
    match frame.into_inner() {
        Frame::Tree(frame) => give_tree(alloc, level, tree, tokens, frame),
        Frame::Part(frame) => give_part(alloc, tree, tokens, frame),
        other => Err(refused((other, tree), tokens)),
    }
}

/// Hands specifiers over.
pub fn to_specs<'t>(
    alloc: Global,
    specs: Tall<List<At<Spec>>>,
    tokens: &'t [Token],
    frame: Boxed<Frame>,
) -> Result<Turn<'t>, Stop>
    ensures { Gives went_of result (to_specs_of specs tokens.now frame) }
{
    match frame.into_inner() {
        Frame::Specs(frame) => give_specs(alloc, specs, tokens, frame),
        other => Err(refused((other, specs), tokens)),
    }
}

/// Hands a declarator over.
pub fn to_declr<'t>(
    alloc: Global,
    scope: &Scope,
    declr: Node<Declr>,
    tokens: &'t [Token],
    frame: Boxed<Frame>,
) -> Result<Turn<'t>, Stop>
    ensures { Gives went_of result (to_declr_of scope.now declr tokens.now frame) }
{
    match frame.into_inner() {
        Frame::Declr(frame) => give_declr(alloc, scope, declr, tokens, frame),
        other => Err(refused((other, declr), tokens)),
    }
}

/// Hands an initialiser over.
pub fn to_value<'t>(
    alloc: Global,
    value: Node<Given>,
    tokens: &'t [Token],
    frame: Boxed<Frame>,
) -> Result<Turn<'t>, Stop>
    ensures { Gives went_of result (to_value_of value tokens.now frame) }
{
    match frame.into_inner() {
        Frame::Value(frame) => give_value(alloc, value, tokens, frame),
        other => Err(refused((other, value), tokens)),
    }
}
