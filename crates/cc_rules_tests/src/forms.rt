//! The forms of expressions by which tests refine.

ghost use Rattle.std.specs.Prelude.{◌≡◌, Some, None, if◌then◌else◌};
ghost use Rattle.cc_rules_flows.specs.CcLattice.Domains.{is_comparison as is_comparison_of};
ghost use Rattle.cc_program.specs.declared.expr.Expr.{out-Expr};
ghost use Rattle.cc_program.specs.declared.expr.Place.{out-Place};
ghost use Rattle.cc_rules_tests.specs.Forms.{local_in as local_in_of, local_read as local_read_of, conversion_in, converted_view, comparison_in, comparison_view};

use cc_program::num::{BinOp, IntType};
use cc_program::{Expr, Place};

/// A conversion.
#[derive(Clone, Copy)]
pub struct Converted<'p> {
    pub to: IntType,
    pub operand: &'p Expr,
}

/// A comparison of integers.
#[derive(Clone, Copy)]
pub struct Comparison<'p> {
    pub op: BinOp,
    pub left: &'p Expr,
    pub right: &'p Expr,
}

/// The local that a place is.
fn local_in(a: &Place) -> Option<u32>
    ensures { result ≡ local_in_of (out-Place a.now) }
{
    match a {
        Place::Local(r) => Some(*r),
        _ => None,
    }
}

/// The local that an expression reads.
pub fn local_read(e: &Expr) -> Option<u32>
    ensures { result ≡ local_read_of (out-Expr e.now) }
{
    match e {
        Expr::Load(a) => local_in(a.get()),
        _ => None,
    }
}

/// The conversion that an expression is.
pub fn conversion_of(e: &Expr) -> Option<Converted<'_>>
    ensures { converted_view result ≡ conversion_in (out-Expr e.now) }
{
    match e {
        Expr::Conv(t, a) => Some(Converted {
            to: *t,
            operand: a.get(),
        }),
        _ => None,
    }
}

fn is_comparison(op: BinOp) -> bool
    ensures { result ≡ is_comparison_of op }
{
    matches!(
        op,
        BinOp::Lt | BinOp::Le | BinOp::Gt | BinOp::Ge | BinOp::Eq | BinOp::Ne
    )
}

/// A comparison with these operands, if it is one.
fn compared<'p>(op: BinOp, left: &'p Expr, right: &'p Expr) -> Option<Comparison<'p>>
    ensures { comparison_view result ≡ (if is_comparison_of op then Some (op, left.now, right.now) else None) }
{
    if is_comparison(op) {
        Some(Comparison { op, left, right })
    } else {
        None
    }
}

/// The comparison that an expression is.
pub fn comparison_of(e: &Expr) -> Option<Comparison<'_>>
    ensures { comparison_view result ≡ comparison_in (out-Expr e.now) }
{
    match e {
        Expr::Bin(op, _, a, b) => compared(*op, a.get(), b.get()),
        _ => None,
    }
}
