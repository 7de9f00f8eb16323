//! Sets without values.

ghost use Rattle.std.specs.Prelude.{◌≡◌};
ghost use Rattle.cc_state_shape.specs.Empty.{holds_addresses as holds_addresses_of, IsNone};

use cc_program::{CType, Shape};
use cc_state_reads::lattice::IntDomain;
use cc_state_reads::places::{Abs, Addrs};
use std::alloc::Global;

/// Whether the scalars of a type are pointers: it is one, or an array of them of any depth.
#[tactic(auto, unfolding(crate::specs::Empty::holds_addresses))]
pub fn holds_addresses(t: &CType) -> bool
    ensures { result ≡ holds_addresses_of t.now }
{
    match &t.shape {
        Shape::Pointer(_) => true,
        Shape::Array(of, _) => holds_addresses(of.get()),
        Shape::Int(_) | Shape::Void | Shape::Struct(_) | Shape::Func(_) => false,
    }
}

/// The empty set of addresses, or of integers.
pub fn none_of<I: IntDomain>(alloc: Global, addresses: bool) -> Abs<I>
    ensures { IsNone I.Has addresses result }
{
    if addresses {
        Abs::Addrs(Addrs::none(alloc))
    } else {
        Abs::Ints(I::none(alloc))
    }
}
