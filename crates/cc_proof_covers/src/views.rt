ghost use Rattle.std.specs.Prelude.{ℕ, Bool};
ghost use Rattle.cc_program.specs.declared.value.Value.{Value};

/// What facts say about all runs of a program, as sets of values, flags and levels.
pub trait FactView {
    /// The static objects that are known by point.
    ghost tracked: { ℕ → Bool };

    /// The values of a scalar of a static object in the whole run, by its position.
    ghost StaticAt: { ℕ → ℕ → Value → Type 0 };

    /// The values of a scalar of a function's local that is no register, in the whole run.
    ghost LocalAt: { ℕ → ℕ → ℕ → Value → Type 0 };

    /// The values that a function gives.
    ghost Result: { ℕ → Value → Type 0 };

    /// A function is reached by main, where no handler runs.
    ghost ByMain: { ℕ → Type 0 };

    /// A function is reached from handlers.
    ghost ByHandler: { ℕ → Type 0 };

    /// The levels of the innermost handlers from which a function is reached.
    ghost ReachedFrom: { ℕ → ℕ → Type 0 };

    /// The levels at which a function runs.
    ghost RunsAt: { ℕ → ℕ → Type 0 };

    /// The levels of the innermost handlers in which a tracked object may be written.
    ghost WrittenBy: { ℕ → ℕ → Type 0 };

    /// A point is reached.
    ghost Reached: { ℕ → Type 0 };

    /// The flag may be so at a point.
    ghost MayBe: { ℕ → Bool → Type 0 };

    /// The values of a register at a point.
    ghost Local: { ℕ → ℕ → Value → Type 0 };

    /// The values of a tracked object at a point.
    ghost Cell: { ℕ → ℕ → Value → Type 0 };

    /// At a point a register and a tracked object are the same.
    ghost Same: { ℕ → ℕ → ℕ → Type 0 };
}
