//! What holds of packing, whatever is packed.

ghost use Rattle.std.specs.Prelude.{◌≡◌, ℕ, List};
ghost use Rattle.cc_edge.specs.Files.{Files};
ghost use Rattle.cc_packing.specs.Asked.{Asked};
ghost use Rattle.cc_packing.specs.Ends.{PackEnds};
ghost use Rattle.cc_packing.specs.Headline.{AreAsked};
ghost use Rattle.cc_status.specs.declared.status.Status.{Status};

/// Of files that are read without a fault: where an output is asked for there is no cause for another answer, and all answers
/// that have a cause are one. There is nothing to run.
pub fn laws()
    ensures not_both { (files : Files) (a : Asked) (bytes rows : List ℕ) (s : Status) → AreAsked files a bytes rows → PackEnds files ⊥ a s → ⊥ }
    ensures one_end { (files : Files) (a : Asked) (s t : Status) → PackEnds files ⊥ a s → PackEnds files ⊥ a t → s ≡ t }
{}
