//! What an activation does next, by its control.

ghost use Rattle.std.specs.Prelude.{ℕ, Bool, List, [], ◌∷◌, Option, ◌≡◌};
ghost use Rattle.cc_steps.specs.CcEval.declared.action.Action.{Action};
ghost use Rattle.cc_steps.specs.CcEval.declared.mark.Mark.{Mark};
ghost use Rattle.cc_program.specs.declared.func.Func.{Func};
ghost use Rattle.cc_program.specs.declared.program.Program.{Program};
ghost use Rattle.cc_program.specs.declared.value.Value.{Value};
ghost use Rattle.cc_steps.specs.declared.event.End.TheVariants.{Trap};
ghost use Rattle.cc_steps.specs.State.{Active, Memory, State};
ghost use Rattle.cc_steps.specs.Runs.{IsBoundary};
ghost use Rattle.cc_steps.specs.Step.{stopped, marked, activation, returned, fallen, perform, proceed};
ghost use Rattle.cc_meaning_simulations.specs.Continuations.{resume};
ghost use Rattle.cc_steps.specs.Turn.{turn, enters};
ghost use Rattle.cc_meaning_simulations.specs.Positions.{AreEqualButPositions};
ghost use Rattle.cc_meaning_simulations.specs.StepSimulations.{IsSilent, going};
ghost use Rattle.cc_meaning_simulations.specs.Transitions.{ControlState, control_state, control_at, jump_to, marked_control, FallsOff, Performs, Aborts, Jumps, Returns, transition};

/// That a step of a program is the transition of the control of its running activation. Positions of statements play no part.
/// The call does nothing.
pub fn control_laws()
    ensures falls_off { (p : Program) (m : Memory) (a : Active) (below : List Active) (opened : ℕ) → transition p (control_state a) ≡ FallsOff → proceed p (going m (a ∷ below) opened) (a ∷ below) ≡ fallen p (going m (a ∷ below) opened) a below }
    ensures performs { (p : Program) (m : Memory) (a : Active) (below : List Active) (opened : ℕ) (action : Action) → transition p (control_state a) ≡ Performs action →
        proceed p (going m (a ∷ below) opened) (a ∷ below) ≡ perform p (going m (a ∷ below) opened) action }
    ensures aborts { (p : Program) (m : Memory) (a : Active) (below : List Active) (opened : ℕ) → transition p (control_state a) ≡ Aborts → proceed p (going m (a ∷ below) opened) (a ∷ below) ≡ stopped (going m (a ∷ below) opened) Trap }
    ensures returns { (p : Program) (m : Memory) (a : Active) (below : List Active) (opened : ℕ) (v : Value) → transition p (control_state a) ≡ Returns v →
        proceed p (going m (a ∷ below) opened) (a ∷ below) ≡ returned p (going m (a ∷ below) opened) a below v }

    // A jump is silent, and changes the control alone.
    ensures jumps { (p : Program) (m : Memory) (a : Active) (c : ControlState) → transition p (control_state a) ≡ Jumps c → (b : Active) × IsSilent p m a m b × (control_state b ≡ c) × (b.locals ≡ a.locals) }

    // Control after a step of a full expression, and at the beginning of a function.
    ensures marks { (p : Program) (a : Active) (m : Mark) → control_state (marked p a m) ≡ marked_control p (control_state a) m }
    ensures begins { (p : Program) (number id : ℕ) (handler : Bool) (args : List Value) (f : Func) → control_state (activation p number id handler args f) ≡ jump_to p (control_at number id) (resume f.body []) }
{}

/// That states which are equal but for the positions of statements in their lists have equal turns, entries and boundaries. The
/// call does nothing.
pub fn position_laws()
    ensures turns { (p : Program) (s t : State) → AreEqualButPositions s t → (arrival : Option ℕ) → AreEqualButPositions (turn p s arrival) (turn p t arrival) }
    ensures entries { (p : Program) (s t : State) → AreEqualButPositions s t → (arrival : Option ℕ) → enters p s arrival ≡ enters p t arrival }
    ensures boundaries { (p : Program) (s t : State) → AreEqualButPositions s t → IsBoundary s → IsBoundary t }
{}
