ghost use Rattle.std.specs.Prelude.{All};
ghost use Rattle.cc_lower_continues.specs.Continues.{HasFewLocals, flagged_program};
ghost use Rattle.cc_lower_expressions.specs.Programs.{lower_expressions_program};
ghost use Rattle.cc_lower_numbered_follows.specs.Registers.{AreTemporariesRegisters};
ghost use Rattle.cc_lower_numbers.specs.Numbered.{numbered};
ghost use Rattle.cc_lower_statements.specs.Statements.{lower_program};
ghost use Rattle.cc_program.specs.declared.program.Program.{Program};
ghost use Rattle.cc_states.specs.CcSteps.Runs.{Follows, Answers};
ghost use Rattle.cc_states.specs.CcSyntax.Sound.{IsSound, IsTypedProgram};

/// That a typed program does what it did when its temporaries have names and stand in the order of their first writing, and its
/// devices stand in the order of the text. The call does nothing.
pub fn numbered_program_laws()
    // Each run of it has the trace and the end of a run of its source.
    ensures follows { (p : Program) → IsTypedProgram p → AreTemporariesRegisters p → Follows (numbered p) p }

    // Each run of its source with entries at boundaries is matched by a run of it.
    ensures answers { (p : Program) → IsTypedProgram p → AreTemporariesRegisters p → Answers (numbered p) p }
{}

/// That the temporaries of a sound program are registers once its `do`s have flags, its statements are lowered, and then its
/// expressions. Flags are temporaries too. The call does nothing.
pub fn lowered_temporary_laws()
    ensures registers { (p : Program) → IsSound p → All HasFewLocals (flagged_program p).funcs → AreTemporariesRegisters (lower_expressions_program (lower_program (flagged_program p))) }
{}
