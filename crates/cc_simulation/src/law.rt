//! What holds of simulations, whatever is run.

ghost use Rattle.std.specs.Prelude.{◌≡◌, ℕ, List};
ghost use Rattle.cc_edge.specs.Files.{Files};
ghost use Rattle.cc_simulation.specs.Asked.{Asked};
ghost use Rattle.cc_simulation.specs.Ends.{RunEnds};
ghost use Rattle.cc_simulation.specs.Traces.{IsAsked};
ghost use Rattle.cc_status.specs.declared.status.Status.{Status};

/// Of files that are read without a fault: where a trace is asked for there is no cause for another answer, and all answers
/// that have a cause are one. There is nothing to run.
pub fn laws()
    ensures not_both { (files : Files) (a : Asked) (text : List ℕ) (s : Status) → IsAsked files a text → RunEnds files ⊥ a s → ⊥ }
    ensures one_end { (files : Files) (a : Asked) (s t : Status) → RunEnds files ⊥ a s → RunEnds files ⊥ a t → s ≡ t }
{}
