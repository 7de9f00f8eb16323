//! What operators make of what their operands may be.

ghost use Rattle.std.specs.Prelude.{◌≡◌, IfOk};
ghost use Rattle.cc_places.specs.declared.abs.Abs.TheVariants as abs;
ghost use Rattle.cc_state_operators.specs.Domains.{domain};
ghost use Rattle.cc_state_operators.specs.Operands.{AreInts, AreAddrs, OneFits, OneGives, TwoFit, TwoGive, OneTyped, TwoTyped};

use crate::offsets::Offsets;
use crate::operators::{OneOperand, TwoOperands};
use crate::pairs::{comparisons, differences};
use crate::truths::{both, either};
use cc_lattice::IntDomain;
use cc_places::{Abs, Addrs};
use cc_program::num::{NoMemory, Target};
use std::alloc::Global;

pub fn integers<I>(x: &Abs<I>) -> &I
    requires { AreInts x.now }
    ensures { x.now ≡ abs.Ints result.now }
{
    match x {
        Abs::Ints(numbers) => numbers,
        Abs::Addrs(_) => unreachable!(),
    }
}

fn places<I>(x: &Abs<I>) -> &Addrs
    requires { AreAddrs x.now }
    ensures { x.now ≡ abs.Addrs result.now }
{
    match x {
        Abs::Ints(_) => unreachable!(),
        Abs::Addrs(places) => places,
    }
}

/// What an operator makes of one operand.
pub fn result_of_one<I: IntDomain>(kind: OneOperand, x: &Abs<I>, target: &Target) -> Abs<I>
    requires { OneFits (domain I.Has I.IsBelow I.OpGives I.OpOneGives I.ToGives I.KeepGives I.members_of) target.now kind x.now }
    ensures gives { OneGives (domain I.Has I.IsBelow I.OpGives I.OpOneGives I.ToGives I.KeepGives I.members_of) target.now kind x.now result }
    ensures typed { OneTyped (domain I.Has I.IsBelow I.OpGives I.OpOneGives I.ToGives I.KeepGives I.members_of) target.now kind result }
{
    match x {
        Abs::Addrs(_) => unreachable!(),
        Abs::Ints(numbers) => match kind {
            OneOperand::Operator(op, t) => Abs::Ints(I::op_one(op, numbers, t, target)),
            OneOperand::Conversion(t) => Abs::Ints(numbers.to(t, target)),
        },
    }
}

/// What an operator makes of two operands.
pub fn result_of_two<I: IntDomain>(
    alloc: Global,
    kind: TwoOperands,
    x: &Abs<I>,
    w: &Abs<I>,
    target: &Target,
) -> Result<Abs<I>, NoMemory>
    requires { TwoFit (domain I.Has I.IsBelow I.OpGives I.OpOneGives I.ToGives I.KeepGives I.members_of) target.now kind x.now w.now }
    ensures gives { IfOk result (λ y. TwoGive (domain I.Has I.IsBelow I.OpGives I.OpOneGives I.ToGives I.KeepGives I.members_of) target.now kind x.now w.now y) }
    ensures typed { IfOk result (λ y. TwoTyped (domain I.Has I.IsBelow I.OpGives I.OpOneGives I.ToGives I.KeepGives I.members_of) target.now kind y) }
{
    match kind {
        TwoOperands::Operator(op, t) => {
            Ok(Abs::Ints(I::op(op, integers(x), integers(w), t, target)))
        }
        TwoOperands::Movement(back) => {
            let by = Offsets {
                back,
                by: integers(w),
            };
            Ok(Abs::Addrs(places(x).moved(alloc, &by)?))
        }
        TwoOperands::Difference => {
            Ok(Abs::Ints(differences(alloc, target, places(x), places(w))?))
        }
        TwoOperands::Comparison(op) => {
            Ok(Abs::Ints(comparisons(alloc, op, target, places(x), places(w))?))
        }
        TwoOperands::Both => Ok(Abs::Ints(both(alloc, x, w)?)),
        TwoOperands::Either => Ok(Abs::Ints(either(alloc, x, w)?)),
    }
}
