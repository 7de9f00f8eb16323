//! Whether an expression reads a local.

ghost use Rattle.std.specs.Prelude.{◌≡◌};
ghost use Rattle.cc_rules_tests.specs.Reads.{place_reads, reads as reads_of};

use cc_program::{Expr, Place};

/// Whether a place is a local.
#[tactic(auto, unfolding(crate::specs::Reads::place_reads))]
fn is_local(a: &Place, r: u32) -> bool
    ensures { result ≡ (place_reads r a.now).is_local }
{
    match a {
        Place::Local(q) => *q == r,
        _ => false,
    }
}

/// Whether a pure expression reads a local.
#[cycle(reads)]
#[tactic(auto, unfolding(crate::specs::Reads::reads, crate::specs::Reads::place_reads))]
pub(crate) fn reads(e: &Expr, r: u32) -> bool
    ensures { result ≡ reads_of r e.now }
{
    match e {
        Expr::Const(_, _) | Expr::Null(_) | Expr::FuncAddr(_) => false,
        Expr::Load(a) => is_local(a.get(), r) || reads_within(a.get(), r),
        Expr::AddrOf(a) => reads_within(a.get(), r),
        Expr::Un(_, _, a) | Expr::Conv(_, a) | Expr::Qualify(_, a) => reads(a.get(), r),
        Expr::Bin(_, _, a, b)
        | Expr::Move(a, b, _)
        | Expr::Gap(a, b)
        | Expr::Compare(_, a, b)
        | Expr::Both(a, b)
        | Expr::Either(a, b) => reads(a.get(), r) || reads(b.get(), r),
        Expr::Choose(c, a, b) => reads(c.get(), r) || reads(a.get(), r) || reads(b.get(), r),
        Expr::Assign(_, _) | Expr::Change(_, _, _, _) | Expr::After(_, _) => true,
        Expr::Call(_, _) | Expr::Intr(_, _) | Expr::Seq(_, _) => true,
    }
}

/// Whether an operand in a place reads a local.
#[cycle(reads)]
#[tactic(auto, unfolding(crate::specs::Reads::reads, crate::specs::Reads::place_reads))]
fn reads_within(a: &Place, r: u32) -> bool
    ensures { result ≡ (place_reads r a.now).reads }
{
    match a {
        Place::Local(_) | Place::Static(_) | Place::Device(_) => false,
        Place::Element(a, i) => reads_within(a.get(), r) || reads(i.get(), r),
        Place::Member(a, _) => reads_within(a.get(), r),
        Place::Deref(e) => reads(e.get(), r),
    }
}
