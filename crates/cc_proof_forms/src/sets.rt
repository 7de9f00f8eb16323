ghost use Rattle.std.specs.Prelude.{ℕ, ℤ, Option};
ghost use Rattle.cc_flow_sound.specs.CcEval.declared.spots.Spot.{Spot};
ghost use Rattle.cc_program.specs.declared.expr.Expr.{Expr};
ghost use Rattle.cc_program.specs.declared.expr.Place.{Place};
ghost use Rattle.cc_program.specs.declared.value.Value.{Value};

/// What operands may be at points, as sets.
pub trait OperandView {
    /// The good values of an expression at a point.
    ghost Holds: { ℕ → Expr → Value → Type 0 };

    /// Where a place may lead at a point.
    ghost Leads: { ℕ → Place → Option Spot → Type 0 };

    /// The test at a point may have an outcome: of `if` 0 or 1, of `switch` the number that it chooses by.
    ghost Passes: { ℕ → ℤ → Type 0 };

    /// It may have it with a register at a member of its set, the others being in theirs.
    ghost PassesWith: { ℕ → ℕ → Value → ℤ → Type 0 };
}
