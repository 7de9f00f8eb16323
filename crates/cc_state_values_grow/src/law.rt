ghost use Rattle.std.specs.Prelude.{◌≡◌, ℕ, Bool, Option, Some, slice_get};
ghost use Rattle.cc_state_values_sound.specs.CcPlaces.declared.abs.Abs.{Abs};
ghost use Rattle.cc_state_values_sound.specs.CcPlaces.declared.addrs.Addrs.{Addrs};
ghost use Rattle.cc_state_values_sound.specs.CcPlaces.Abstract.{IsBelowAbs};
ghost use Rattle.cc_state_values_sound.specs.CcPlaces.Sets.{IsWithin};
ghost use Rattle.cc_program.specs.declared.expr.Expr.{Expr};
ghost use Rattle.cc_program.specs.declared.expr.Place.{Place};
ghost use Rattle.cc_program.specs.declared.func.Func.{Func};
ghost use Rattle.cc_program.specs.declared.program.Program.{Program};
ghost use Rattle.cc_state_values_sound.specs.CcStateOperators.Domains.{domain, MayBe};
ghost use Rattle.cc_state_values_sound.specs.CcStateValues.Values.{IsVal, Designates};
ghost use Rattle.cc_state_values_grow.specs.Growth.{AreRegistersBelow, LeadSomewhere, RegistersPoint};

use cc_state_values_sound::lattice::IntDomain;

/// What holds over each domain of the sets of the registers of a function, and of greater ones. The call does nothing.
pub fn laws<I: IntDomain>()
    // By registers that have addresses of their types places lead somewhere.
    ensures leads { (p : Program) (id : ℕ) (f : Func) (register : ℕ → Option (Abs I)) → slice_get p.funcs id ≡ Some f → RegistersPoint p f register →
        LeadSomewhere (domain I.Has I.IsBelow I.OpGives I.OpOneGives I.ToGives I.KeepGives I.members_of) p id f register }

    // What an expression may give by the former is below what it may give by the latter.
    ensures values { (p : Program) (id : ℕ) (f : Func) (register more : ℕ → Option (Abs I)) → AreRegistersBelow I.IsBelow register more →
        LeadSomewhere (domain I.Has I.IsBelow I.OpGives I.OpOneGives I.ToGives I.KeepGives I.members_of) p id f register → (e : Expr) (x y : Abs I) →
        IsVal (domain I.Has I.IsBelow I.OpGives I.OpOneGives I.ToGives I.KeepGives I.members_of) p id f register e x →
        IsVal (domain I.Has I.IsBelow I.OpGives I.OpOneGives I.ToGives I.KeepGives I.members_of) p id f more e y → IsBelowAbs I.IsBelow x y }

    // The addresses that a place has by the former it has by the latter.
    ensures places { (p : Program) (id : ℕ) (f : Func) (register more : ℕ → Option (Abs I)) → AreRegistersBelow I.IsBelow register more →
        LeadSomewhere (domain I.Has I.IsBelow I.OpGives I.OpOneGives I.ToGives I.KeepGives I.members_of) p id f register → (a : Place) (r s : Addrs) →
        Designates (domain I.Has I.IsBelow I.OpGives I.OpOneGives I.ToGives I.KeepGives I.members_of) p id f register a r →
        Designates (domain I.Has I.IsBelow I.OpGives I.OpOneGives I.ToGives I.KeepGives I.members_of) p id f more a s → IsWithin r s }

    // A test that may go a way by some value may go it by a greater one.
    ensures tests { (way : Bool) (x y : Abs I) → IsBelowAbs I.IsBelow x y →
        MayBe (domain I.Has I.IsBelow I.OpGives I.OpOneGives I.ToGives I.KeepGives I.members_of) way x →
        MayBe (domain I.Has I.IsBelow I.OpGives I.OpOneGives I.ToGives I.KeepGives I.members_of) way y }
{}
