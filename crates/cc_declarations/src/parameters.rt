//! Turns on the parameters of functions, and on type names in parentheses (C99 6.7.5.3, 6.7.6).

ghost use Rattle.std.specs.Prelude.{◌≡◌, is_some, suc, Ok as OkOf};
ghost use Rattle.cc_tree.specs.Reading.{Gives, after as after_of};
ghost use Rattle.cc_tree.specs.Scopes.{name_of};
ghost use Rattle.cc_tree.specs.Turns.{went_of, made as made_of};
ghost use Rattle.cc_tree.specs.TurnTypes as types;
ghost use Rattle.cc_tree.specs.declared.tree.Declr.{Func as FuncOf};
ghost use Rattle.cc_lex.specs.declared.token.Mark.TheVariants.{Comma};

use cc_lex::{Mark, Token};
use cc_num::{Boxed, List};
use cc_tree::state::{Control, Frame, Function, Node, SpecsFrame, Tall, TreeFrame, Turn, Use};
use cc_tree::stop::Stop;
use cc_tree::{At, Declr, Param, Params, Spec, Tree, TypeName};
use cc_turns::cursor::{after, offset};
use cc_turns::forms::{has_name, is_only_void};
use cc_turns::operators::{CAST, UNARY};
use cc_turns::turns::{closed, empty, grown, on, opens, raised, refused, tall};
use std::alloc::Global;

/// The parameters of a list, which are none where it is `void` alone.
fn params_of(params: List<At<Param>>) -> Params
    ensures { result ≡ types.params_of params }
{
    if is_only_void(params.all()) {
        return Params::Void;
    }
    Params::Many(params)
}

/// One parameter more.
fn with_param(
    function: Function,
    at: u32,
    specs: Tall<List<At<Spec>>>,
    declr: Node<Declr>,
) -> Result<Function, Stop>
    ensures { Gives (λ f. f) result (OkOf (types.with_param function at specs declr)) }
{
    let height = function.height.max(specs.height.max(declr.height));
    let node = Param {
        specs: specs.node,
        declr: declr.node.into_inner(),
    };
    let (declr, params) = grown(function.declr, function.params, At { at, node })?;
    Ok(Function {
        declr,
        params,
        height,
    })
}

/// The declarator of a function with its parameters.
fn parametrised(alloc: Global, function: Function) -> Result<Node<Declr>, Stop>
    ensures { Gives (λ d. d) result (OkOf (made_of function.declr.at (FuncOf function.declr (types.params_of function.params)) (suc function.height))) }
{
    let at = function.declr.get().at;
    let node = Declr::Func(function.declr, params_of(function.params));
    raised(alloc, at, node, function.height)
}

/// What stands behind a parameter.
fn param_at<'t>(alloc: Global, function: Function, tokens: &'t [Token]) -> Result<Turn<'t>, Stop>
    ensures { Gives went_of result (types.param_at function tokens.now (after_of Comma tokens.now)) }
{
    match after(Mark::Comma, tokens) {
        Some(rest) => {
            let frame = Frame::Specs(SpecsFrame::Param(function, offset(rest)));
            opens(alloc, frame, Control::Specs(tall(empty(alloc), 0)), rest)
        }
        None => {
            let (function, rest) = closed(function, Mark::RParen, tokens)?;
            on(alloc, Control::Suffix(parametrised(alloc, function)?), rest)
        }
    }
}

/// The declarator of a parameter with these specifiers.
pub fn param<'t>(
    alloc: Global,
    function: Function,
    at: u32,
    specs: Tall<List<At<Spec>>>,
    declr: Node<Declr>,
    tokens: &'t [Token],
) -> Result<Turn<'t>, Stop>
    ensures { Gives went_of result (types.param function at specs declr tokens.now) }
{
    let function = with_param(function, at, specs, declr)?;
    param_at(alloc, function, tokens)
}

/// A type name, for what it is read for.
fn use_type<'t>(
    alloc: Global,
    used: Use,
    at: u32,
    name: Tall<Boxed<TypeName>>,
    tokens: &'t [Token],
) -> Result<Turn<'t>, Stop>
    ensures { Gives went_of result (types.use_type used at name tokens.now) }
{
    match used {
        Use::Cast => {
            let frame = Frame::Tree(TreeFrame::Cast(at, name));
            opens(alloc, frame, Control::Expr(CAST), tokens)
        }
        Use::SizeOf => {
            let node = Tree::SizeOfType(name.node);
            on(
                alloc,
                Control::Tree(UNARY, raised(alloc, at, node, name.height)?),
                tokens,
            )
        }
    }
}

/// The declarator of a type name with these specifiers, which has no name.
pub fn close_type<'t>(
    alloc: Global,
    used: Use,
    at: u32,
    specs: Tall<List<At<Spec>>>,
    declr: Node<Declr>,
    tokens: &'t [Token],
) -> Result<Turn<'t>, Stop>
    ensures { Gives went_of result (types.close_type used at specs declr tokens.now (is_some (name_of declr.node.node))) }
{
    if has_name(&declr.node.get().node) {
        return Err(refused((specs, declr), tokens));
    }
    let ((specs, declr), rest) = closed((specs, declr), Mark::RParen, tokens)?;
    let height = specs.height.max(declr.height);
    let node = TypeName {
        specs: specs.node,
        declr: declr.node.into_inner(),
    };
    let node = Boxed::new(alloc, node)?;
    use_type(alloc, used, at, tall(node, height), rest)
}
