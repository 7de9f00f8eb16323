//! Simulations by the control and the locals of activations.

ghost use Rattle.std.specs.Prelude.{ℕ, ℤ, Bool, true, false, List, [], ◌∷◌, length, nat_lt, Option, Some, slice_get, ◌≡◌, ◌⊎◌};
ghost use Rattle.cc_steps.specs.CcEval.declared.action.Action.{Action};
ghost use Rattle.cc_steps.specs.CcEval.declared.mark.Mark.{Mark};
ghost use Rattle.cc_program.specs.declared.func.Func.{Func};
ghost use Rattle.cc_program.specs.declared.program.Program.{Program};
ghost use Rattle.cc_program.specs.declared.stmt.Stmt.{Stmt};
ghost use Rattle.cc_program.specs.declared.value.Value.{Value};
ghost use Rattle.cc_steps.specs.Rows.{rows_of};
ghost use Rattle.cc_steps.specs.Runs.{Follows, Answers};
ghost use Rattle.cc_steps.specs.State.{Active, Memory, State};
ghost use Rattle.cc_steps.specs.Turn.{start, turn};
ghost use Rattle.cc_steps.specs.CcSyntax.Types.{Named};
ghost use Rattle.cc_meaning_simulations.specs.Bodies.{extended, all_extended, AddsScalars};
ghost use Rattle.cc_meaning_simulations.specs.LocalSimulations.{is_action_visible, Approaches, Expects, AreAlike, AreFitting};
ghost use Rattle.cc_meaning_simulations.specs.LocalSteps.{LocalState, local_state_of, begun_state, after_write};
ghost use Rattle.cc_meaning_simulations.specs.StepSimulations.{going};
ghost use Rattle.cc_meaning_simulations.specs.Transitions.{control_state, Performs, transition};

/// Programs, and for each one other bodies of its functions, and more locals, which are scalars. Some locals are hidden: all that
/// are added, and maybe others. Local states of activations match where both make the same transition, and come again to states
/// that match, or to where both trap, by steps that nothing else can see; writes of locals that are not hidden keep that. An
/// action that the old program performs reads and writes no hidden local there. The invariant is one of the runs of the old
/// program; where it holds, only marks that fit are left, and functions are called with arguments that they are opened with.
pub trait LocalSimulation {
    ghost sources: { Program → Type 0 };

    ghost more: { Program → Func → List Named };

    ghost bodies: { Program → Func → List Stmt };

    ghost hidden: { Program → ℕ → ℕ → Bool };

    ghost matches: { Program → LocalState → LocalState → Type 0 };

    ghost invariant: { Program → State → Type 0 };

    ghost fits: { Program → LocalState → Mark → Type 0 };

    ghost opens: { Program → ℕ → ℕ → List Value → Type 0 };

    ghost scalars: { (p : Program) → sources p → AddsScalars (more p) };

    ghost there: { (p : Program) → sources p → (main : Func) × (slice_get p.funcs p.main ≡ Some main) };

    ghost shown: { (p : Program) → sources p → (id : ℕ) (f : Func) → slice_get p.funcs id ≡ Some f → (local : ℕ) → hidden p id local ≡ false → (nat_lt local (length f.locals) ≡ true) ⊎ (more p f ≡ []) };

    ghost written: { (p : Program) → sources p → (a b : LocalState) → matches p a b → a.control.func ≡ b.control.func → (local i : ℕ) (v : Value) → hidden p b.control.func local ≡ false →
        matches p (after_write a local i v) (after_write b local i v) };

    ghost fitting_written: { (p : Program) → sources p → (b : LocalState) (m : Mark) (local i : ℕ) (v : Value) → hidden p b.control.func local ≡ false → fits p b m → fits p (after_write b local i v) m };

    ghost fitting_before: { (p : Program) → sources p → (b : LocalState) (m : Mark) (local i : ℕ) (v : Value) → hidden p b.control.func local ≡ false → fits p (after_write b local i v) m → fits p b m };

    ghost begun: { (p : Program) → sources p → (number id : ℕ) (args : List Value) (f : Func) → slice_get p.funcs id ≡ Some f → opens p number id args →
        Approaches (hidden p) (all_extended (more p) (bodies p) p) p (matches p) false (begun_state (all_extended (more p) (bodies p) p) number id args (extended (more p) (bodies p) f)) (begun_state p number id args f) };

    ghost alike: { (p : Program) → sources p → (m : Memory) (b : Active) (below : List Active) (opened : ℕ) → invariant p (going m (b ∷ below) opened) → (a : LocalState) → matches p a (local_state_of b) →
        AreAlike (hidden p) (Approaches (hidden p) (all_extended (more p) (bodies p) p) p (matches p) false) (Expects (hidden p) (all_extended (more p) (bodies p) p) p (matches p) (fits p)) a (local_state_of b)
        (transition (all_extended (more p) (bodies p) p) a.control) (transition p (control_state b)) };

    ghost seen: { (p : Program) → sources p → (t : State) → invariant p t → rows_of (all_extended (more p) (bodies p) p) t.memory.trace ≡ rows_of p t.memory.trace };

    ghost starts: { (p : Program) → sources p → (inputs : List ℤ) → invariant p (start p inputs) };

    ghost kept: { (p : Program) → sources p → (t : State) → invariant p t → (arrival : Option ℕ) → invariant p (turn p t arrival) };

    ghost visible: { (p : Program) → sources p → (m : Memory) (b : Active) (below : List Active) (opened : ℕ) → invariant p (going m (b ∷ below) opened) → (a : LocalState) → matches p a (local_state_of b) →
        (action : Action) → transition p (control_state b) ≡ Performs action → is_action_visible (hidden p) (b ∷ below) action ≡ true };

    ghost fitting: { (p : Program) → sources p → (m : Memory) (b : Active) (below : List Active) (opened : ℕ) → invariant p (going m (b ∷ below) opened) → AreFitting (fits p) (opens p) p m b below opened };

    ghost nothing_passed: { (p : Program) → sources p → (number id : ℕ) → opens p number id [] };
}

/// Each of the programs is followed by the one with the other bodies.
pub fn follows_by_local_steps<S: LocalSimulation>()
    ensures { (p : Program) → S.sources p → Follows (all_extended (S.more p) (S.bodies p) p) p }
{}

/// Each of the programs is answered by the one with the other bodies.
pub fn answers_by_local_steps<S: LocalSimulation>()
    ensures { (p : Program) → S.sources p → Answers (all_extended (S.more p) (S.bodies p) p) p }
{}
