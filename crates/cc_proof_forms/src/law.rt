ghost use Rattle.std.specs.Prelude.{◌≡◌, ◌<◌, ◌^◌, ℕ, ℤ, true, false, List, ◌∷◌, Some};
ghost use Rattle.cc_flow_sound.specs.CcEval.declared.action.Action.{Action};
ghost use Rattle.cc_flow_sound.specs.CcEval.declared.mark.Mark.{Mark};
ghost use Rattle.cc_flow_sound.specs.CcEval.Progress.{Known, Waits};
ghost use Rattle.cc_flow_sound.specs.CcFlow.Points.{count_of};
ghost use Rattle.cc_program.specs.declared.func.Func.{Func};
ghost use Rattle.cc_program.specs.declared.program.Program.{Program};
ghost use Rattle.cc_program.specs.declared.stmt.Stmt.{Stmt, out-Stmt};
ghost use Rattle.cc_program.specs.declared.value.Value.{Value};
ghost use Rattle.cc_proof_covers.specs.Covers.{Lies};
ghost use Rattle.cc_proof_covers.specs.Rules.{Allowed, Goes, Leaves, IsHere, IsClosed};
ghost use Rattle.cc_proof_covers.specs.Views.{view_of};
ghost use Rattle.cc_proof_forms.specs.PointRules.{AreRules};
ghost use Rattle.cc_proof_forms.specs.Sets.{sets_of};
ghost use Rattle.cc_proof_forms.specs.StatementRules.{AreStatementRules};
ghost use Rattle.cc_flow_sound.specs.CcStates.States.{expression_of};
ghost use Rattle.cc_flow_sound.specs.CcSteps.Runs.{Arrivals, run};
ghost use Rattle.cc_flow_sound.specs.CcSteps.State.{Active, Memory};
ghost use Rattle.cc_flow_sound.specs.CcSteps.Step.{progress_of, is_return};
ghost use Rattle.cc_flow_sound.specs.CcSteps.Turn.{start};
ghost use Rattle.cc_flow_sound.specs.CcSyntax.Normal.{IsNormal};

use crate::OperandView;
use cc_proof_covers::FactView;

/// Where facts have what each statement of a program in normal form asks at its point, the running activation keeps to them. The call does nothing.
pub fn statements<V: FactView, O: OperandView>()
    // Each step that it asks for is allowed.
    ensures steps { (p : Program) → IsNormal p → count_of p < 2 ^ 32 → let view = view_of V.tracked V.StaticAt V.LocalAt V.Result V.ByMain V.ByHandler V.ReachedFrom V.RunsAt V.WrittenBy V.Reached V.MayBe V.Local V.Cell V.Same in
        AreStatementRules p view (sets_of O.Holds O.Leads O.Passes O.PassesWith) → (m : Memory) (a : Active) (f : Func) (n : ℕ) → IsHere p view m a f n →
        (action : Action) → progress_of p a (expression_of a) ≡ Waits action → Allowed p view m a f n action }

    // Where the value of its full expression is known it goes to a next point with what registers and memory are, or leaves its function.
    ensures goes { (p : Program) → IsNormal p → count_of p < 2 ^ 32 → let view = view_of V.tracked V.StaticAt V.LocalAt V.Result V.ByMain V.ByHandler V.ReachedFrom V.RunsAt V.WrittenBy V.Reached V.MayBe V.Local V.Cell V.Same in
        AreStatementRules p view (sets_of O.Holds O.Leads O.Passes O.PassesWith) → (m : Memory) (a : Active) (f : Func) (n : ℕ) → IsHere p view m a f n → (s : Stmt) (rest : List Stmt) → a.here.rest ≡ s ∷ rest →
        (w : Value) (ms : List Mark) → progress_of p a (expression_of a) ≡ Known (Some w) ms → is_return (out-Stmt s) ≡ false → Goes p view m a f n (out-Stmt s) w }
    ensures leaves { (p : Program) → IsNormal p → count_of p < 2 ^ 32 → let view = view_of V.tracked V.StaticAt V.LocalAt V.Result V.ByMain V.ByHandler V.ReachedFrom V.RunsAt V.WrittenBy V.Reached V.MayBe V.Local V.Cell V.Same in
        AreStatementRules p view (sets_of O.Holds O.Leads O.Passes O.PassesWith) → (m : Memory) (a : Active) (f : Func) (n : ℕ) → IsHere p view m a f n → (s : Stmt) (rest : List Stmt) → a.here.rest ≡ s ∷ rest →
        (w : Value) (ms : List Mark) → progress_of p a (expression_of a) ≡ Known (Some w) ms → is_return (out-Stmt s) ≡ true → Leaves p view m a f n w }
{}

/// Facts that have what each point of a program in normal form asks are closed, and cover its runs. The call does nothing.
pub fn points<V: FactView, O: OperandView>()
    ensures closed { (p : Program) → IsNormal p → count_of p < 2 ^ 32 → let view = view_of V.tracked V.StaticAt V.LocalAt V.Result V.ByMain V.ByHandler V.ReachedFrom V.RunsAt V.WrittenBy V.Reached V.MayBe V.Local V.Cell V.Same in
        AreRules p view (sets_of O.Holds O.Leads O.Passes O.PassesWith) → IsClosed p view }

    // Each state of each run lies in them, for all inputs, whoever arrives.
    ensures covers { (p : Program) → IsNormal p → count_of p < 2 ^ 32 → let view = view_of V.tracked V.StaticAt V.LocalAt V.Result V.ByMain V.ByHandler V.ReachedFrom V.RunsAt V.WrittenBy V.Reached V.MayBe V.Local V.Cell V.Same in
        AreRules p view (sets_of O.Holds O.Leads O.Passes O.PassesWith) → (inputs : List ℤ) (arrivals : Arrivals) → Lies p view (run p (start p inputs) arrivals) }
{}
