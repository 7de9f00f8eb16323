ghost use Rattle.std.specs.Prelude.{◌<◌, ◌^◌, ℕ, ℤ, List};
ghost use Rattle.cc_flow_sound.specs.CcFlow.Points.{count_of};
ghost use Rattle.cc_program.specs.declared.program.Program.{Program};
ghost use Rattle.cc_proof_covers.specs.Covers.{Lies};
ghost use Rattle.cc_proof_covers.specs.Invariant.{Fits};
ghost use Rattle.cc_proof_covers.specs.Rules.{IsClosed};
ghost use Rattle.cc_proof_covers.specs.Views.{view_of};
ghost use Rattle.cc_flow_sound.specs.CcSteps.Runs.{Arrivals, run};
ghost use Rattle.cc_flow_sound.specs.CcSteps.Turn.{start};
ghost use Rattle.cc_flow_sound.specs.CcSyntax.Normal.{IsNormal};

use crate::FactView;

/// Facts that are closed under the rules of a program in normal form cover its runs. The call does nothing.
pub fn covers<V: FactView>()
    // Each state of each run lies in them, for all inputs, whoever arrives.
    ensures lies { (p : Program) → IsNormal p → count_of p < 2 ^ 32 → let view = view_of V.tracked V.StaticAt V.LocalAt V.Result V.ByMain V.ByHandler V.ReachedFrom V.RunsAt V.WrittenBy V.Reached V.MayBe V.Local V.Cell V.Same in
        IsClosed p view → (inputs : List ℤ) (arrivals : Arrivals) → Lies p view (run p (start p inputs) arrivals) }

    // What else each turn needs to keep that holds too.
    ensures fits { (p : Program) → IsNormal p → let view = view_of V.tracked V.StaticAt V.LocalAt V.Result V.ByMain V.ByHandler V.ReachedFrom V.RunsAt V.WrittenBy V.Reached V.MayBe V.Local V.Cell V.Same in
        IsClosed p view → (inputs : List ℤ) (arrivals : Arrivals) → Fits p view (run p (start p inputs) arrivals) }
{}
