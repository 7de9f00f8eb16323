//! What an expression is as an integer constant expression (C99 6.6), and whether it is folded.

ghost use Rattle.std.specs.Prelude.{◌≡◌, map};
ghost use Rattle.std.specs.List.{list_all};
ghost use Rattle.cc_syntax.specs.Folding.{has_value as has_value_of, operation as operation_of, variable as variable_of, folding_of as folding_of_of, constant_of, is_folded, is_folded_place as is_folded_place_of};
ghost use Rattle.cc_operands.specs.View.{constant_view};

use cc_operands::Constant;
use cc_program::num::{List, Target};
use cc_syntax::{Expr, Place};

fn has_value(constant: Constant) -> bool
    ensures { result ≡ has_value_of (constant_view constant) }
{
    matches!(constant, Constant::Value(_))
}

/// What an expression is, and whether reading leaves it as it is: no part of it but a constant has a value.
#[derive(Clone, Copy)]
pub struct Folding {
    pub constant: Constant,
    pub is_folded: bool,
}

fn operation(constant: Constant, parts: bool) -> Folding
    ensures constant { constant_view result.constant ≡ (operation_of (constant_view constant) parts).constant }
    ensures folded { result.is_folded ≡ (operation_of (constant_view constant) parts).is_folded }
{
    Folding {
        constant,
        is_folded: parts && !has_value(constant),
    }
}

fn variable(parts: bool) -> Folding
    ensures constant { constant_view result.constant ≡ (variable_of parts).constant }
    ensures folded { result.is_folded ≡ (variable_of parts).is_folded }
{
    Folding {
        constant: Constant::NoConstant,
        is_folded: parts,
    }
}

/// What an expression is as an integer constant expression, and whether it is folded.
#[cycle(folding)]
#[tactic(auto, unfolding(cc_syntax::specs::Folding::folding_of, cc_syntax::specs::Folding::is_folded_place))]
pub fn folding_of(e: &Expr, target: &Target) -> Folding
    ensures constant { constant_view result.constant ≡ constant_of target.now e.now }
    ensures folded { result.is_folded ≡ is_folded target.now e.now }
{
    match e {
        Expr::Const(n, _) => Folding {
            constant: Constant::Value(*n),
            is_folded: true,
        },
        Expr::Null(_) | Expr::FuncAddr(_) => variable(true),
        Expr::Load(a) | Expr::AddrOf(a) | Expr::After(a, _) => variable(is_folded_place(
            a.get(),
            target,
        )),
        Expr::Un(op, t, a) => {
            let a = folding_of(a.get(), target);
            operation(a.constant.unary(*op, *t, target), a.is_folded)
        }
        Expr::Bin(op, t, a, b) => {
            let a = folding_of(a.get(), target);
            let b = folding_of(b.get(), target);
            let constant = a.constant.binary(*op, *t, b.constant, target);
            operation(constant, a.is_folded && b.is_folded)
        }
        Expr::Conv(t, a) => {
            let a = folding_of(a.get(), target);
            operation(a.constant.converted(*t, target), a.is_folded)
        }
        Expr::Qualify(_, a) => variable(folding_of(a.get(), target).is_folded),
        Expr::Move(a, b, _) | Expr::Gap(a, b) | Expr::Compare(_, a, b) | Expr::Seq(a, b) => {
            let first = folding_of(a.get(), target).is_folded;
            let second = folding_of(b.get(), target).is_folded;
            variable(first && second)
        }
        Expr::Both(a, b) => {
            let a = folding_of(a.get(), target);
            let b = folding_of(b.get(), target);
            operation(a.constant.both(b.constant), a.is_folded && b.is_folded)
        }
        Expr::Either(a, b) => {
            let a = folding_of(a.get(), target);
            let b = folding_of(b.get(), target);
            operation(a.constant.either(b.constant), a.is_folded && b.is_folded)
        }
        Expr::Choose(c, a, b) => {
            let c = folding_of(c.get(), target);
            let a = folding_of(a.get(), target);
            let b = folding_of(b.get(), target);
            let parts = c.is_folded && a.is_folded && b.is_folded;
            operation(c.constant.chosen(a.constant, b.constant), parts)
        }
        Expr::Assign(a, b) | Expr::Change(a, _, _, b) => {
            let place = is_folded_place(a.get(), target);
            variable(place && folding_of(b.get(), target).is_folded)
        }
        Expr::Call(f, args) => {
            let callee = folding_of(f.get(), target).is_folded;
            variable(callee && are_folded(args, target))
        }
        Expr::Intr(_, None) => variable(true),
        Expr::Intr(_, Some(a)) => variable(folding_of(a.get(), target).is_folded),
    }
}

#[cycle(folding)]
#[tactic(auto, using(cc_typed::proofs::ListLemmas::of_mapped))]
fn are_folded(args: &List<Expr>, target: &Target) -> bool
    ensures { result ≡ list_all (λ a. a.is_folded) (map (folding_of_of target.now) args.now) }
{
    for arg in args.all() {
        if !folding_of(arg, target).is_folded {
            return false;
        }
    }
    true
}

/// Whether the expressions in a place are folded.
#[cycle(folding)]
#[tactic(auto, unfolding(cc_syntax::specs::Folding::folding_of, cc_syntax::specs::Folding::is_folded_place))]
pub fn is_folded_place(a: &Place, target: &Target) -> bool
    ensures { result ≡ is_folded_place_of target.now a.now }
{
    match a {
        Place::Local(_) | Place::Static(_) | Place::Device(_) => true,
        Place::Element(a, i) => {
            is_folded_place(a.get(), target) && folding_of(i.get(), target).is_folded
        }
        Place::Member(a, _) => is_folded_place(a.get(), target),
        Place::Deref(e) => folding_of(e.get(), target).is_folded,
    }
}
