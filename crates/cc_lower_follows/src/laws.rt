//! The laws of lowered statements.

ghost use Rattle.std.specs.Prelude.{◌≡◌, Some, slice_get};
ghost use Rattle.cc_lower_follows.specs.Fit.{IsFit};
ghost use Rattle.cc_lower_statements.specs.Statements.{lower_program};
ghost use Rattle.cc_program.specs.declared.func.Func.{Func};
ghost use Rattle.cc_program.specs.declared.program.Program.{Program};
ghost use Rattle.cc_steps.specs.Runs.{Follows, Answers};

/// Where no `do` whose test may fail has a `continue` of its own, each run of the lowered program has the trace and the end of a
/// run of its source, and each run of the source with entries at boundaries is matched by a run of the lowered program. The call
/// does nothing.
pub fn statement_laws()
    ensures follows { (p : Program) → IsFit p → (main : Func) → slice_get p.funcs p.main ≡ Some main → Follows (lower_program p) p }
    ensures answers { (p : Program) → IsFit p → (main : Func) → slice_get p.funcs p.main ≡ Some main → Answers (lower_program p) p }
{}
