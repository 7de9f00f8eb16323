ghost use Rattle.std.specs.Prelude.{◌≡◌, ◌<◌, ◌^◌, ℕ, ℤ, List, ◌∷◌, Option, Some, slice_get};
ghost use Rattle.cc_states.specs.CcControl.Control.{path_of};
ghost use Rattle.cc_flow.specs.Points.{count_of};
ghost use Rattle.cc_flow_sound.specs.Moves.{Standing, standings, IsAt, AreAt, IsMove};
ghost use Rattle.cc_flow_sound.specs.Statements.{statement_at};
ghost use Rattle.cc_program.specs.declared.func.Func.{Func};
ghost use Rattle.cc_program.specs.declared.program.Program.{Program};
ghost use Rattle.cc_program.specs.declared.stmt.Stmt.{Stmt};
ghost use Rattle.cc_states.specs.States.{IsActive, IsState};
ghost use Rattle.cc_states.specs.CcSteps.Runs.{Arrivals, run};
ghost use Rattle.cc_states.specs.CcSteps.State.{Active, State};
ghost use Rattle.cc_states.specs.CcSteps.Turn.{start, turn};
ghost use Rattle.cc_states.specs.CcSyntax.Normal.{IsNormal};

/// Where activations of a program in normal form stand among its points, and where turns take them. The call does nothing.
pub fn moves()
    // Each turn leaves the running activation at its point, takes it to a next point, opens one at an entry, or ends it;
    // then its caller stays at its point, or goes to a next one.
    ensures moves { (p : Program) → IsNormal p → count_of p < 2 ^ 32 → (s : State) → IsState p s → (arrival : Option ℕ) → IsMove p (standings s.stack) (standings (turn p s arrival).stack) }

    // In each run each activation stands at a point.
    ensures runs { (p : Program) → IsNormal p → count_of p < 2 ^ 32 → (inputs : List ℤ) (arrivals : Arrivals) → AreAt p (standings (run p (start p inputs) arrivals).stack) }

    // Its path leads to the statement of its next step.
    ensures statements { (p : Program) → IsNormal p → count_of p < 2 ^ 32 → (openings : List ℕ) (a : Active) → IsActive p openings a → (f : Func) → slice_get p.funcs a.func ≡ Some f →
        (s : Stmt) (rest : List Stmt) → a.here.rest ≡ s ∷ rest → statement_at f.body (path_of (a.here, a.around)) ≡ Some s }

    // An activation stands at one point alone.
    ensures one_point { (p : Program) (at : Standing) (m n : ℕ) → IsAt p at m → IsAt p at n → m ≡ n }
{}
