//! What holds of the sentences and their trees, and of the machine that reads them.

ghost use Rattle.std.specs.Prelude.{◌≡◌, ◌≤◌, ◌<◌, ◌+◌, ℕ, Ok, Err, length};
ghost use Rattle.cc_tree.specs.Depth.{depth};
ghost use Rattle.cc_tree.specs.Faults.{IsRead, HasFault};
ghost use Rattle.cc_tree.specs.Height.{unit_height};
ghost use Rattle.cc_tree.specs.Machine.{State, Leads, start, turn, height_of};
ghost use Rattle.cc_tree.specs.Measure.{measure};
ghost use Rattle.cc_tree.specs.Outside.{first_outside};
ghost use Rattle.cc_tree.specs.Sentences.{IsSentence};
ghost use Rattle.cc_tree.specs.Tokens.{Tokens};
ghost use Rattle.cc_tree.specs.declared.fault.GramFault.{GramFault};
ghost use Rattle.cc_tree.specs.declared.state.Control.TheVariants as control;
ghost use Rattle.cc_tree.specs.declared.state.Tall.{Tall};
ghost use Rattle.cc_tree.specs.declared.stop.Stop.{Stop};
ghost use Rattle.cc_tree.specs.declared.unit.Unit.{Unit as UnitTree};
ghost use Rattle.std.specs.Prelude.{None};

/// Tokens are a sentence of at most one tree.
pub fn tokens_have_one_tree()
    ensures { (ts : Tokens) (u v : UnitTree) → IsSentence ts u → IsSentence ts v → u ≡ v }
{}

/// Tokens that are refused have one fault at most, at one place, and are read as no tree.
pub fn tokens_have_one_fault()
    ensures one_fault { (ts : Tokens) (e f : GramFault) → HasFault ts e → HasFault ts f → e ≡ f }
    ensures not_read { (ts : Tokens) (e : GramFault) (u : UnitTree) → HasFault ts e → IsRead ts u → ⊥ }
{}

/// For the crate that runs the machine. It comes to an end on all tokens. Where none is an outside word, what it ends with is the tree of a
/// sentence, with its height; a sentence ends with its tree. On the way the nodes that wait and what has just been
/// read are together no higher than the whole; and where they are high, as many tokens have been taken.
pub fn the_machine_reads_sentences()
    ensures ends { (s t : State) → turn s ≡ Ok t → measure t < measure s }
    ensures sound { (limit : ℕ) (ts : Tokens) (s : State) (u : Tall UnitTree) → first_outside ts ≡ None → Leads limit (start ts) s → s.control ≡ control.Done u →
        IsSentence ts u.node × (u.height ≡ unit_height u.node) }
    ensures complete { (limit : ℕ) (ts : Tokens) (s : State) (e : Stop) (u : UnitTree) → Leads limit (start ts) s → turn s ≡ Err e → IsSentence ts u →
        s.control ≡ control.Done (record { node = u; height = unit_height u }) }
    ensures low { (limit : ℕ) (ts : Tokens) (s t : State) (u : UnitTree) → Leads limit (start ts) s → turn s ≡ Ok t → IsSentence ts u → unit_height u ≤ limit → depth t.frames + height_of t.control ≤ limit }
    ensures tokens_taken { (limit : ℕ) (ts : Tokens) (s t : State) → Leads limit (start ts) s → turn s ≡ Ok t → limit < depth t.frames + height_of t.control → limit + length s.rest ≤ length ts }
{}
