//! Expressions and places (C99 6.5).

ghost use Rattle.std.specs.Prelude.{◌≡◌, OnOk, option_map};
ghost use Rattle.cc_pieces.specs.View.{pieces_of};
ghost use Rattle.cc_bodies.specs.Exprs.{binary, written, place, expr, place_text};
ghost use Rattle.cc_bodies.specs.View.{spot_of};
ghost use Rattle.cc_typed.specs.CcSyntax.Sizes.{AreSized};
ghost use Rattle.cc_typed.specs.View.{place_view};

use crate::leaves::{
    binary_mark, movement_mark, put_constant_text, put_device, put_null, unary_mark,
};
use crate::names::{func_name, local_name, member_name, object_name, put_named};
use crate::spots::{Spot, wraps_conversion, wraps_operation};
use cc_lex::Mark;
use cc_pieces::{Symbol, close, mark, open, put_cast, put_int_cast, spaced_mark};
use cc_program::num::NoMemory;
use cc_program::{Expr, Func, Place, Program};
use cc_typed::{PlaceType, Scope};

/// Where expressions stand: in a function of a program.
#[derive(Clone, Copy)]
pub struct Context<'p> {
    pub program: &'p Program,
    pub func: &'p Func,
}

/// The type of a place.
#[tactic(auto, using(crate::proofs::Links::of_types))]
pub fn place_type<'p>(c: Context<'p>, a: &'p Place) -> Option<PlaceType<'p>>
    requires { AreSized c.program.now.structures c.program.now.target }
    ensures { option_map place_view result ≡ (place c.entry.program.now c.entry.func.now a.now).ctype }
{
    let scope = Scope {
        program: c.program,
        locals: c.func.locals.all(),
    };
    scope.place_type(a)
}

/// Puts an expression in front.
#[cycle(expressions)]
#[tactic(auto, unfolding(crate::specs::Exprs::written, crate::specs::Exprs::place))]
pub fn put_expr<'p>(
    out: &mut Vec<Symbol>,
    c: Context<'p>,
    e: &'p Expr,
    spot: Spot<'p>,
) -> Result<(), NoMemory>
    requires { AreSized c.program.now.structures c.program.now.target }
    ensures { OnOk result (pieces_of out.new.items ≡ expr c.entry.program.now c.entry.func.now e.now (spot_of spot.entry) (pieces_of out.old.items)) }
{
    match e {
        Expr::Const(n, t) => put_constant_text(out, &c.program.target, *n, *t, spot),
        Expr::Null(t) => put_null(out, c.program.structures.all(), t.get(), spot),
        Expr::FuncAddr(i) => put_named(out, func_name(c.program.funcs.all(), *i)),
        Expr::Load(a) => put_place(out, c, a.get(), spot),
        Expr::AddrOf(a) => {
            close(out, wraps_operation(spot))?;
            put_place(out, c, a.get(), Spot::Operand)?;
            mark(out, Mark::Amp)?;
            open(out, wraps_operation(spot))
        }
        Expr::Un(op, _, a) => {
            close(out, wraps_operation(spot))?;
            put_expr(out, c, a.get(), Spot::Operand)?;
            mark(out, unary_mark(*op))?;
            open(out, wraps_operation(spot))
        }
        Expr::Bin(op, _, a, b) => put_binary(out, c, binary_mark(*op), a.get(), b.get(), spot),
        Expr::Conv(t, a) => {
            close(out, wraps_conversion(spot))?;
            put_expr(out, c, a.get(), Spot::Converted)?;
            put_int_cast(out, *t)?;
            open(out, wraps_conversion(spot))
        }
        Expr::Qualify(t, a) => {
            close(out, wraps_conversion(spot))?;
            put_expr(out, c, a.get(), Spot::Converted)?;
            put_cast(out, c.program.structures.all(), t.get())?;
            open(out, wraps_conversion(spot))
        }
        Expr::Move(a, b, back) => {
            put_binary(out, c, movement_mark(*back), a.get(), b.get(), spot)
        }
        Expr::Gap(a, b) => put_binary(out, c, Mark::Minus, a.get(), b.get(), spot),
        Expr::Compare(op, a, b) => { put_binary(out, c, binary_mark(*op), a.get(), b.get(), spot) }
        Expr::Both(a, b) => put_binary(out, c, Mark::AndAnd, a.get(), b.get(), spot),
        Expr::Either(a, b) => put_binary(out, c, Mark::OrOr, a.get(), b.get(), spot),
        Expr::Choose(d, a, b) => {
            close(out, wraps_operation(spot))?;
            put_expr(out, c, b.get(), Spot::Operand)?;
            spaced_mark(out, Mark::Colon)?;
            put_expr(out, c, a.get(), Spot::Operand)?;
            spaced_mark(out, Mark::Question)?;
            put_expr(out, c, d.get(), Spot::Operand)?;
            open(out, wraps_operation(spot))
        }
        Expr::Assign(_, _) => Ok(()),
        Expr::Change(_, _, _, _) => Ok(()),
        Expr::After(_, _) => Ok(()),
        Expr::Call(_, _) => Ok(()),
        Expr::Intr(_, _) => Ok(()),
        Expr::Seq(_, _) => Ok(()),
    }
}

/// Puts an operation of two operands in front.
#[cycle(expressions)]
fn put_binary<'p>(
    out: &mut Vec<Symbol>,
    c: Context<'p>,
    o: Mark,
    a: &'p Expr,
    b: &'p Expr,
    spot: Spot<'p>,
) -> Result<(), NoMemory>
    requires { AreSized c.program.now.structures c.program.now.target }
    ensures { OnOk result (pieces_of out.new.items ≡ binary o (expr c.entry.program.now c.entry.func.now a.now) (expr c.entry.program.now c.entry.func.now b.now) (spot_of spot.entry) (pieces_of out.old.items)) }
{
    close(out, wraps_operation(spot))?;
    put_expr(out, c, b, Spot::Operand)?;
    spaced_mark(out, o)?;
    put_expr(out, c, a, Spot::Operand)?;
    open(out, wraps_operation(spot))
}

/// Puts a place in front.
#[cycle(expressions)]
#[tactic(auto, unfolding(crate::specs::Exprs::written, crate::specs::Exprs::place))]
pub fn put_place<'p>(
    out: &mut Vec<Symbol>,
    c: Context<'p>,
    a: &'p Place,
    spot: Spot<'p>,
) -> Result<(), NoMemory>
    requires { AreSized c.program.now.structures c.program.now.target }
    ensures { OnOk result (pieces_of out.new.items ≡ place_text c.entry.program.now c.entry.func.now a.now (spot_of spot.entry) (pieces_of out.old.items)) }
{
    match a {
        Place::Local(r) => put_named(out, local_name(c.func.locals.all(), *r)),
        Place::Static(i) => put_named(out, object_name(c.program.objects.all(), *i)),
        Place::Device(d) => put_device(out, c.program.devices.all(), *d),
        Place::Element(a, i) => {
            mark(out, Mark::RBracket)?;
            put_expr(out, c, i.get(), Spot::Operand)?;
            mark(out, Mark::LBracket)?;
            put_place(out, c, a.get(), Spot::Operand)
        }
        Place::Member(a, m) => {
            let t = place_type(c, a.get());
            put_named(out, member_name(c.program.structures.all(), *m, t))?;
            mark(out, Mark::Dot)?;
            put_place(out, c, a.get(), Spot::Operand)
        }
        Place::Deref(e) => {
            close(out, wraps_operation(spot))?;
            put_expr(out, c, e.get(), Spot::Pointed)?;
            mark(out, Mark::Star)?;
            open(out, wraps_operation(spot))
        }
    }
}
