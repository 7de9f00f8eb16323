ghost use Rattle.std.specs.Prelude.{List};
ghost use Rattle.cc_lower_numbers_follows.specs.Renaming.{Renaming, IsRenamed, with_parts};
ghost use Rattle.cc_lower_numbers_follows.specs.Shown.{ShowsNoRegister};
ghost use Rattle.cc_program.specs.declared.func.Func.{Func};
ghost use Rattle.cc_program.specs.declared.object.Device.{Device};
ghost use Rattle.cc_program.specs.declared.program.Program.{Program};
ghost use Rattle.cc_states.specs.CcSteps.Runs.{Follows, Answers};
ghost use Rattle.cc_states.specs.CcSyntax.Sound.{IsTypedProgram};

/// That a program whose locals and devices have other numbers, and whose registers may have other names, does what the program
/// does, whatever the names of that are. The call does nothing.
pub fn renaming_laws()
    // No event of a run names a register.
    ensures events { (p : Program) → IsTypedProgram p → ShowsNoRegister p }
    ensures follows { (r : Renaming) (devices : List Device) (funcs : List Func) (p : Program) → IsTypedProgram p → IsRenamed r devices funcs p → Follows (with_parts devices funcs p) p }
    ensures answers { (r : Renaming) (devices : List Device) (funcs : List Func) (p : Program) → IsTypedProgram p → IsRenamed r devices funcs p → Answers (with_parts devices funcs p) p }
{}
