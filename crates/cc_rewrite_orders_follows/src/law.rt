ghost use Rattle.std.specs.Prelude.{ℕ, List};
ghost use Rattle.cc_program.specs.declared.program.Program.{Program};
ghost use Rattle.cc_rewrite_renamed.specs.Objects.{with_objects_ordered};
ghost use Rattle.cc_rewrite_renamed.specs.Orders.{IsOrderOf};
ghost use Rattle.cc_states.specs.CcSteps.Runs.{Follows, Answers};

/// That a program does what it did when its static objects stand in another order, without those that neither its functions nor the first
/// values of the others name. The call does nothing.
pub fn ordered_program_laws()
    // Each run of it has the trace and the end of a run of its source.
    ensures follows { (order : List ℕ) (p : Program) → IsOrderOf order p → Follows (with_objects_ordered order p) p }

    // Each run of its source with entries at boundaries is matched by a run of it.
    ensures answers { (order : List ℕ) (p : Program) → IsOrderOf order p → Answers (with_objects_ordered order p) p }
{}
