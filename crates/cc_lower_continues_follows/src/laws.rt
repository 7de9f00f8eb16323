//! The laws of lowered loops.

ghost use Rattle.std.specs.Prelude.{All};
ghost use Rattle.cc_lower_continues.specs.Continues.{HasFewLocals, flagged_program};
ghost use Rattle.cc_lower_statements.specs.Statements.{lower_program};
ghost use Rattle.cc_program.specs.declared.program.Program.{Program};
ghost use Rattle.cc_states.specs.CcSteps.Runs.{Follows, Answers};
ghost use Rattle.cc_states.specs.CcSyntax.Sound.{IsTypedProgram};

/// Each run of the program that a typed one becomes, with flags where a `do` has a `continue` of its own and then with lowered
/// statements, has the trace and the end of a run of its source, and each run of the source with entries at boundaries is matched
/// by a run of it. The call does nothing.
pub fn lowering_laws()
    ensures follows { (p : Program) → IsTypedProgram p → Follows (lower_program (flagged_program p)) p }
    ensures answers { (p : Program) → IsTypedProgram p → Answers (lower_program (flagged_program p)) p }

    // It is typed as well, where each local has an id.
    ensures typed { (p : Program) → IsTypedProgram p → All HasFewLocals (flagged_program p).funcs → IsTypedProgram (lower_program (flagged_program p)) }
{}
