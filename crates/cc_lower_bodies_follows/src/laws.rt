//! The laws of lowered expressions.

ghost use Rattle.std.specs.Prelude.{◌≡◌, true};
ghost use Rattle.cc_lower_expressions.specs.Programs.{lower_expressions_program};
ghost use Rattle.cc_lower_sound.specs.Statements.{has_plain_statements};
ghost use Rattle.cc_program.specs.declared.program.Program.{Program};
ghost use Rattle.cc_states.specs.CcSteps.Runs.{Follows, Answers};
ghost use Rattle.cc_states.specs.CcSyntax.Sound.{IsTypedProgram};

/// What a typed program does with lowered expressions, where all its loops are `while (1)`, without blocks and without empty
/// statements: each run has the trace and the end of a run of the source, and each run of the source with entries at boundaries is
/// matched by one. The call does nothing.
pub fn expression_laws()
    ensures follows { (p : Program) → IsTypedProgram p → has_plain_statements p ≡ true → Follows (lower_expressions_program p) p }
    ensures answers { (p : Program) → IsTypedProgram p → has_plain_statements p ≡ true → Answers (lower_expressions_program p) p }
{}
