//! Calls, intrinsics, assignments: what the expressions of statements do.

ghost use Rattle.std.specs.Prelude.{◌≡◌, OnOk, option_map};
ghost use Rattle.std.specs.Option.{option_copied};
ghost use Rattle.cc_pieces.specs.View.{pieces_of};
ghost use Rattle.cc_bodies.specs.Stmts.{intrinsic_name as intrinsic_name_of, optional_argument, intrinsic, further_arguments, arguments, call, parameters_of as parameters_of_of, taker as taker_of, right_side, assignment, done};
ghost use Rattle.cc_typed.specs.CcSyntax.Programs.{type_of, place_type as place_type_of};
ghost use Rattle.cc_typed.specs.CcSyntax.Sizes.{AreSized};
ghost use Rattle.cc_typed.specs.View.{value_view, place_view};

use crate::exprs::{Context, put_expr, put_place};
use crate::spots::Spot;
use cc_lex::Mark;
use cc_pieces::{Piece, Symbol, mark, name, put, spaced_mark};
use cc_program::num::{Name, NoMemory, at};
use cc_program::{CType, Expr, Intr, Place, Roles};
use cc_typed::{PlaceType, Scope, ValueType};

/// The name by which an intrinsic is called.
pub fn intrinsic_name(roles: &Roles, intr: Intr) -> &Name
    ensures { result.now ≡ intrinsic_name_of roles.now intr }
{
    match intr {
        Intr::Off => &roles.off,
        Intr::On => &roles.on,
        Intr::Save => &roles.save,
        Intr::Restore => &roles.restore,
    }
}

fn put_optional_argument<'p>(
    out: &mut Vec<Symbol>,
    c: Context<'p>,
    a: Option<&'p Expr>,
) -> Result<(), NoMemory>
    requires { AreSized c.program.now.structures c.program.now.target }
    ensures { OnOk result (pieces_of out.new.items ≡ optional_argument c.entry.program.now c.entry.func.now (option_copied a.entry) (pieces_of out.old.items)) }
{
    match a {
        None => Ok(()),
        Some(a) => put_expr(out, c, a, Spot::Whole(None)),
    }
}

fn put_intrinsic<'p>(
    out: &mut Vec<Symbol>,
    c: Context<'p>,
    intr: Intr,
    a: Option<&'p Expr>,
) -> Result<(), NoMemory>
    requires { AreSized c.program.now.structures c.program.now.target }
    ensures { OnOk result (pieces_of out.new.items ≡ intrinsic c.entry.program.now c.entry.func.now intr (option_copied a.entry) (pieces_of out.old.items)) }
{
    mark(out, Mark::RParen)?;
    put_optional_argument(out, c, a)?;
    mark(out, Mark::LParen)?;
    name(out, intrinsic_name(&c.program.roles, intr).all())
}

/// Puts the arguments of a call in front; their nulls are of the types of the parameters.
fn put_arguments<'p>(
    out: &mut Vec<Symbol>,
    c: Context<'p>,
    params: &'p [CType],
    args: &'p [Expr],
) -> Result<(), NoMemory>
    requires { AreSized c.program.now.structures c.program.now.target }
    ensures { OnOk result (pieces_of out.new.items ≡ arguments c.entry.program.now c.entry.func.now params.now args.now (pieces_of out.old.items)) }
{
    if args.is_empty() {
        return Ok(());
    }
    let mut left = args.len();
    while left > 1 {
        left -= 1;
        put_expr(out, c, &args[left], Spot::Whole(at(params, left)))?;
        put(out, Piece::Space)?;
        mark(out, Mark::Comma)?;
    }
    put_expr(out, c, &args[0], Spot::Whole(at(params, 0)))?;
    Ok(())
}

/// The parameters of what is called.
fn parameters_of<'p>(callee: Option<ValueType<'p>>) -> &'p [CType]
    ensures { result.now ≡ parameters_of_of (option_map value_view callee.entry) }
{
    match callee {
        Some(ValueType::ToFunction(sig)) => sig.params.all(),
        None => &[],
        Some(ValueType::NoValue) => &[],
        Some(ValueType::Integer(_)) => &[],
        Some(ValueType::ToObject(_, _, _)) => &[],
    }
}

fn parameters_in<'p>(c: Context<'p>, g: &'p Expr) -> &'p [CType]
    requires { AreSized c.program.now.structures c.program.now.target }
    ensures { result.now ≡ parameters_of_of (type_of c.entry.program.now c.entry.func.now.locals g.now) }
{
    let scope = Scope {
        program: c.program,
        locals: c.func.locals.all(),
    };
    parameters_of(scope.type_of(g))
}

fn put_call<'p>(
    out: &mut Vec<Symbol>,
    c: Context<'p>,
    g: &'p Expr,
    args: &'p [Expr],
) -> Result<(), NoMemory>
    requires { AreSized c.program.now.structures c.program.now.target }
    ensures { OnOk result (pieces_of out.new.items ≡ call c.entry.program.now c.entry.func.now g.now args.now (pieces_of out.old.items)) }
{
    mark(out, Mark::RParen)?;
    put_arguments(out, c, parameters_in(c, g), args)?;
    mark(out, Mark::LParen)?;
    put_expr(out, c, g, Spot::Operand)
}

/// The type of an object that is assigned.
fn taker<'p>(place: Option<PlaceType<'p>>) -> Option<&'p CType>
    ensures { option_copied result ≡ taker_of (option_map place_view place.entry) }
{
    match place {
        Some(PlaceType::Object(_, _, t)) => Some(t),
        None => None,
        Some(PlaceType::Device(_, _)) => None,
        Some(PlaceType::Function(_)) => None,
    }
}

fn taker_in<'p>(c: Context<'p>, a: &'p Place) -> Option<&'p CType>
    requires { AreSized c.program.now.structures c.program.now.target }
    ensures { option_copied result ≡ taker_of (place_type_of c.entry.program.now c.entry.func.now.locals a.now) }
{
    let scope = Scope {
        program: c.program,
        locals: c.func.locals.all(),
    };
    taker(scope.place_type(a))
}

/// Puts what is assigned to an object of the type in front.
fn put_right_side<'p>(
    out: &mut Vec<Symbol>,
    c: Context<'p>,
    to: Option<&'p CType>,
    e: &'p Expr,
) -> Result<(), NoMemory>
    requires { AreSized c.program.now.structures c.program.now.target }
    ensures { OnOk result (pieces_of out.new.items ≡ right_side c.entry.program.now c.entry.func.now (option_copied to.entry) e.now (pieces_of out.old.items)) }
{
    match e {
        Expr::Call(g, args) => put_call(out, c, g.get(), args.all()),
        Expr::Intr(intr, None) => put_intrinsic(out, c, *intr, None),
        Expr::Intr(intr, Some(a)) => put_intrinsic(out, c, *intr, Some(a.get())),
        _ => put_expr(out, c, e, Spot::Whole(to)),
    }
}

fn put_assignment<'p>(
    out: &mut Vec<Symbol>,
    c: Context<'p>,
    a: &'p Place,
    e: &'p Expr,
) -> Result<(), NoMemory>
    requires { AreSized c.program.now.structures c.program.now.target }
    ensures { OnOk result (pieces_of out.new.items ≡ assignment c.entry.program.now c.entry.func.now a.now e.now (pieces_of out.old.items)) }
{
    put_right_side(out, c, taker_in(c, a), e)?;
    spaced_mark(out, Mark::Assign)?;
    put_place(out, c, a, Spot::Operand)
}

/// Puts an expression statement without its `;` in front.
pub fn put_done<'p>(out: &mut Vec<Symbol>, c: Context<'p>, e: &'p Expr) -> Result<(), NoMemory>
    requires { AreSized c.program.now.structures c.program.now.target }
    ensures { OnOk result (pieces_of out.new.items ≡ done c.entry.program.now c.entry.func.now e.now (pieces_of out.old.items)) }
{
    match e {
        Expr::Assign(a, b) => put_assignment(out, c, a.get(), b.get()),
        _ => put_right_side(out, c, None, e),
    }
}
