ghost use Rattle.std.specs.Prelude.{◌≡◌, ◌↔◌, IsTrue, IfOk};
ghost use Rattle.cc_lattice.specs.Orders.{IsLeastUpperBound};

use cc_num::NoMemory;
use std::alloc::Global;

/// Values with a partial order, of which each two of one kind have a least upper bound.
///
/// Only values of one kind are compared and joined, and what the laws say of an order they say of
/// values of one kind.
pub trait Lattice: Drop {
    /// Whether two values are of one kind.
    ghost AreAlike: { Self → Self → Type 0 };

    /// The order: the value is below the other, or the same.
    ghost IsBelow: { Self → Self → Type 0 };

    /// Whether the value is below the other, or the same.
    fn below(&self, other: &Self) -> bool
        requires { AreAlike self.now other.now }
        ensures { IsTrue result ↔ IsBelow self.now other.now };

    /// The least value that both are below.
    fn join(&self, alloc: Global, other: &Self) -> Result<Self, NoMemory>
        requires { AreAlike self.now other.now }
        ensures { IfOk result (λ both. IsLeastUpperBound AreAlike IsBelow self.now other.now both) };

    /// A value that is of one kind with another is of one kind with itself.
    ghost alike_itself: { (x y : Self) → AreAlike x y → AreAlike x x };

    /// To be of one kind goes both ways.
    ghost alike_back: { (x y : Self) → AreAlike x y → AreAlike y x };

    /// A value is below itself.
    ghost below_itself: { (x : Self) → AreAlike x x → IsBelow x x };

    /// What is below a value that is below a third is below the third.
    ghost below_through: { (x y z : Self) → AreAlike x y → AreAlike y z → AreAlike x z →
        IsBelow x y → IsBelow y z → IsBelow x z };

    /// Values that are below one another are the same.
    ghost below_both_ways: { (x y : Self) → AreAlike x y → IsBelow x y → IsBelow y x → x ≡ y };
}
