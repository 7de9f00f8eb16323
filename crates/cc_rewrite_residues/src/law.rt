ghost use Rattle.std.specs.Prelude.{◌≡◌, ◌<◌, ℕ, suc, Bool, List, Option, None};
ghost use Rattle.cc_steps.specs.CcCells.Cells.{with_scalar};
ghost use Rattle.cc_program.specs.declared.program.Program.{Program};
ghost use Rattle.cc_program.specs.declared.value.Value.{Value};
ghost use Rattle.cc_rewrite_residues.specs.Residues.{Agree, AreMet, Does, Doomed, IsSilent, Need, Residue, Turns, alone, locals_after, statics_after};
ghost use Rattle.cc_rewrite_residues.specs.Standing.{Frame, Locals, Rest, Spot, running, standing};
ghost use Rattle.cc_steps.specs.Runs.{run};
ghost use Rattle.cc_steps.specs.Step.{stopped};
ghost use Rattle.cc_steps.specs.Turn.{turn};
ghost use Rattle.cc_steps.specs.declared.event.End.TheVariants.{Trap};

/// What the turns of a residue come to. The call does nothing.
pub fn residues()
    // A silent turn leaves static objects, and the locals in front of the temporaries, as they are.
    ensures silent { (p : Program) (frame : Frame) (base : ℕ) (needs : List Need) (s t : Spot) (step : Does) → IsSilent base step → Turns p frame needs s step t →
        (r : Rest) (flag : Bool) (statics : List (List Value)) (locals : Locals) → AreMet needs locals →
        turn p (running r flag statics (standing frame locals s)) None ≡ running r flag statics (standing frame (locals_after step locals) t) }
    ensures agree { (base : ℕ) (step : Does) (locals : Locals) → IsSilent base step → Agree base (locals_after step locals) locals }

    // All turns, without an arrival: the last one does what it does, and the others are silent.
    ensures runs { (p : Program) (frame : Frame) (own : ℕ → ℕ → Bool) (base n : ℕ) (needs : List Need) (s t : Spot) (does : Does) → Residue p frame own base n needs s does t →
        (r : Rest) (flag : Bool) (statics : List (List Value)) (locals : Locals) → AreMet needs locals →
        (after : Locals) × Agree base after locals ×
        (run p (running r flag statics (standing frame locals s)) (alone (suc n)) ≡ running r flag (statics_after does statics) (standing frame (locals_after does after) t)) }

    // Or the last one traps.
    ensures traps { (p : Program) (frame : Frame) (own : ℕ → ℕ → Bool) (base n : ℕ) (needs : List Need) (s : Spot) → Doomed p frame own base n needs s →
        (r : Rest) (flag : Bool) (statics : List (List Value)) (locals : Locals) → AreMet needs locals →
        (after : Locals) × (t : Spot) × (run p (running r flag statics (standing frame locals s)) (alone (suc n)) ≡ stopped (running r flag statics (standing frame after t)) Trap) }

    // The same write of locals that agree.
    ensures writes { (base i k : ℕ) (v : Option Value) (these those : Locals) → Agree base these those → i < base → Agree base (with_scalar these i k v) (with_scalar those i k v) }
{}
