ghost use Rattle.std.specs.Prelude.{ℕ, List, Option};
ghost use Rattle.cc_state_values.specs.CcEval.Context.{Context};
ghost use Rattle.cc_state_values.specs.CcEval.Eval.{meaning, designation};
ghost use Rattle.cc_state_values.specs.CcEval.Marks.{Works};
ghost use Rattle.cc_state_values.specs.CcPlaces.declared.abs.Abs.{Abs};
ghost use Rattle.cc_state_values.specs.CcPlaces.declared.addrs.Addrs.{Addrs};
ghost use Rattle.cc_program.specs.declared.expr.Expr.{Expr};
ghost use Rattle.cc_program.specs.declared.expr.Place.{Place};
ghost use Rattle.cc_state_values.specs.CcStateOperators.Domains.{domain};
ghost use Rattle.cc_state_values.specs.Values.{IsVal, Designates};
ghost use Rattle.cc_state_values_sound.specs.Steps.{MayGive, IsOwnStep, LeadsInto};
ghost use Rattle.cc_state_values_sound.specs.Typed.{IsTypedAnswer};
ghost use Rattle.cc_states.specs.Answers.{IsActivation, TakesAddressesOf, PlaceTakesAddressesOf};
ghost use Rattle.cc_state_values.specs.CcSyntax.Effects.{Registers};

use cc_state_values::lattice::IntDomain;

/// What holds in an activation whose registers hold values of these sets, where each mark has the type of its step. The call
/// does nothing.
pub fn laws<I: IntDomain>()
    // An expression that has an abstract value gives a value of it, or a bad one, and asks for nothing but reads of registers and branch steps.
    ensures values { (c : Context) (openings : List ℕ) → IsActivation c openings → (register : ℕ → Option (Abs I)) (e : Expr) → TakesAddressesOf c.func e → (y : Abs I) →
        IsVal (domain I.Has I.IsBelow I.OpGives I.OpOneGives I.ToGives I.KeepGives I.members_of) c.program c.id c.func register e y →
        (later : Registers) → Works (IsTypedAnswer I.Has c openings register) (IsOwnStep c) (MayGive I.Has y) ((meaning c e).next later) }

    // A place that has a set of addresses leads to one of them, or nowhere, and asks for nothing else either.
    ensures places { (c : Context) (openings : List ℕ) → IsActivation c openings → (register : ℕ → Option (Abs I)) (a : Place) → PlaceTakesAddressesOf c.func a → (s : Addrs) →
        Designates (domain I.Has I.IsBelow I.OpGives I.OpOneGives I.ToGives I.KeepGives I.members_of) c.program c.id c.func register a s →
        (later : Registers) → Works (IsTypedAnswer I.Has c openings register) (IsOwnStep c) (LeadsInto s) ((designation c a).leads later) }
{}
