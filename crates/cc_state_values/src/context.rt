//! Where expressions are worked.

ghost use Rattle.std.specs.Prelude.{◌≡◌, ◌==◌, position};
ghost use Rattle.std.specs.Option.{option_copied};
ghost use Rattle.cc_program.specs.declared.expr.Place.{out-Place};
ghost use Rattle.cc_state_values.specs.Contexts.{set_of, set_at};

use cc_program::num::at;
use cc_program::{Func, Place, Program};
use cc_state_operators::places_crate::Abs;
use cc_state_shared::Shared;

/// A function of a program, and what its registers may hold.
pub struct Context<'p, I> {
    pub program: &'p Program,
    /// The id of the function.
    pub id: u32,
    pub func: &'p Func,
    /// The registers of the function.
    pub registers: &'p [u32],
    /// Their sets, in the same order.
    pub sets: &'p [Shared<Abs<I>>],
}

/// Where a local stands in a list of registers.
fn number_in(registers: &[u32], r: u32) -> Option<usize>
    ensures { result ≡ position (λ q. q == r) registers.now }
{
    registers.iter().position(|register| *register == r)
}

/// The set that stands where a local does in a list of registers.
fn set_of<'p, I>(registers: &[u32], sets: &'p [Shared<Abs<I>>], r: u32) -> Option<&'p Abs<I>>
    ensures { option_copied result ≡ set_of registers.now sets.now r }
{
    let set = at(sets, number_in(registers, r)?)?;
    Some(set.get())
}

/// The set of a place that is a register.
pub(crate) fn set_at<'p, I>(c: &Context<'p, I>, a: &Place) -> Option<&'p Abs<I>>
    ensures { option_copied result ≡ set_at c.now (out-Place a.now) }
{
    match a {
        Place::Local(r) => set_of(c.registers, c.sets, *r),
        _ => None,
    }
}
