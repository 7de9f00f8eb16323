//! Where an expression is printed.

ghost use Rattle.std.specs.Prelude.{◌≡◌};
ghost use Rattle.cc_bodies.specs.Spots.{wraps_operation as wraps_operation_of, wraps_conversion as wraps_conversion_of, converts_constant as converts_constant_of};
ghost use Rattle.cc_bodies.specs.View.{spot_of};

use cc_program::CType;

/// Where an expression is printed, which decides its parentheses.
#[derive(Clone, Copy)]
pub enum Spot<'p> {
    /// A whole right side, argument or returned value, with the type of what takes it where it has one.
    Whole(Option<&'p CType>),
    /// An operand of an operation, a subscript, a condition.
    Operand,
    /// The operand of a conversion.
    Converted,
    /// Right behind the `*` of an indirection.
    Pointed,
}

/// Whether an operation has parentheses there.
pub fn wraps_operation(spot: Spot) -> bool
    ensures { result ≡ wraps_operation_of (spot_of spot.entry) }
{
    match spot {
        Spot::Whole(_) => false,
        Spot::Operand | Spot::Converted | Spot::Pointed => true,
    }
}

/// Whether a conversion has parentheses there.
pub fn wraps_conversion(spot: Spot) -> bool
    ensures { result ≡ wraps_conversion_of (spot_of spot.entry) }
{
    match spot {
        Spot::Converted => true,
        Spot::Whole(_) | Spot::Operand | Spot::Pointed => false,
    }
}

/// Whether a constant of a narrow type is written as a conversion there.
pub fn converts_constant(spot: Spot) -> bool
    ensures { result ≡ converts_constant_of (spot_of spot.entry) }
{
    match spot {
        Spot::Whole(_) => false,
        Spot::Operand | Spot::Converted | Spot::Pointed => true,
    }
}
