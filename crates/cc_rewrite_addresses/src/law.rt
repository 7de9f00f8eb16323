ghost use Rattle.std.specs.Prelude.{◌≡◌, ℕ, ℤ, Bool, true, false, List, Option};
ghost use Rattle.cc_states.specs.CcEval.declared.mark.Mark.{Mark};
ghost use Rattle.cc_states.specs.CcEval.Context.{Context};
ghost use Rattle.cc_states.specs.CcEval.Eval.{meaning};
ghost use Rattle.cc_program.specs.declared.expr.Expr.{Expr};
ghost use Rattle.cc_program.specs.declared.func.Func.{Func};
ghost use Rattle.cc_program.specs.declared.object.Object.{Object};
ghost use Rattle.cc_program.specs.declared.program.Program.{Program};
ghost use Rattle.cc_rewrite_addresses.specs.Behind.{StandInFront, is_before, with_objects_behind};
ghost use Rattle.cc_rewrite_addresses.specs.Holds.{Every, HoldsIn, MarkIn, MayIn, ProgressIn};
ghost use Rattle.cc_rewrite_addresses.specs.Takes.{AreAddressesIn, takes_other};
ghost use Rattle.cc_rewrite_renamed.specs.Names.{names_in_expr};
ghost use Rattle.cc_rewrite_renamed.specs.Renaming.{in_program};
ghost use Rattle.cc_states.specs.States.{IsState};
ghost use Rattle.cc_states.specs.CcSteps.Runs.{Arrivals, run};
ghost use Rattle.cc_states.specs.CcSteps.State.{State};
ghost use Rattle.cc_states.specs.CcSteps.Turn.{start, turn};
ghost use Rattle.cc_states.specs.CcSyntax.Effects.{Registers};
ghost use Rattle.cc_states.specs.CcSyntax.Sound.{IsTypedProgram};

/// That runs of a program whose text takes the addresses of static objects only where they pass a test meet no other addresses of static
/// objects. The call does nothing.
pub fn address_laws()
    // What an expression gives and asks for, where its steps have given no others.
    ensures expressions { (test : ℕ → Bool) (c : Context) (e : Expr) → takes_other test e ≡ false → (later : Registers) (ms : List Mark) → Every (MarkIn test) ms → ProgressIn test (MayIn test) ((meaning c e).next later ms) }

    // Where more static objects stand behind those of a program, an expression that names none of them does the same, if its steps have given no
    // address in one.
    ensures behind { (objects : List Object) (p : Program) → StandInFront objects p → (number id : ℕ) (f : Func) (e : Expr) → names_in_expr (is_before p) e ≡ true → (later : Registers) (ms : List Mark) → Every (MarkIn (is_before p)) ms →
        (meaning (in_program (with_objects_behind objects p) number id f) e).next later ms ≡ (meaning (in_program p number id f) e).next later ms }

    // Before the first turn, and after each turn from a state of the program.
    ensures starts { (test : ℕ → Bool) (p : Program) → AreAddressesIn test p → (inputs : List ℤ) → HoldsIn test (start p inputs) }
    ensures turns { (test : ℕ → Bool) (p : Program) → IsTypedProgram p → AreAddressesIn test p → (s : State) → IsState p s → HoldsIn test s → (arrival : Option ℕ) → HoldsIn test (turn p s arrival) }
    ensures runs { (test : ℕ → Bool) (p : Program) → IsTypedProgram p → AreAddressesIn test p → (inputs : List ℤ) (arrivals : Arrivals) → HoldsIn test (run p (start p inputs) arrivals) }
{}
