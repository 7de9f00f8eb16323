ghost use Rattle.std.specs.Prelude.{◌≡◌, ℕ, Option};
ghost use Rattle.cc_state_operators.specs.CcPlaces.declared.abs.Abs.{Abs};
ghost use Rattle.cc_state_operators.specs.CcPlaces.declared.addrs.Addrs.{Addrs};
ghost use Rattle.cc_program.specs.declared.expr.Expr.{Expr};
ghost use Rattle.cc_program.specs.declared.expr.Place.{Place};
ghost use Rattle.cc_program.specs.declared.func.Func.{Func};
ghost use Rattle.cc_program.specs.declared.program.Program.{Program};
ghost use Rattle.cc_state_operators.specs.Domains.{domain};
ghost use Rattle.cc_state_values.specs.Values.{IsVal, Designates};

use cc_state_operators::lattice::IntDomain;

/// What expressions may give is one value, and the addresses of a place are one set, over each domain. The call does nothing.
pub fn laws<I: IntDomain>()
    ensures one_value { (p : Program) (id : ℕ) (f : Func) (register : ℕ → Option (Abs I)) (e : Expr) (x y : Abs I) →
        IsVal (domain I.Has I.IsBelow I.OpGives I.OpOneGives I.ToGives I.KeepGives I.members_of) p id f register e x →
        IsVal (domain I.Has I.IsBelow I.OpGives I.OpOneGives I.ToGives I.KeepGives I.members_of) p id f register e y → x ≡ y }
    ensures one_set { (p : Program) (id : ℕ) (f : Func) (register : ℕ → Option (Abs I)) (a : Place) (r s : Addrs) →
        Designates (domain I.Has I.IsBelow I.OpGives I.OpOneGives I.ToGives I.KeepGives I.members_of) p id f register a r →
        Designates (domain I.Has I.IsBelow I.OpGives I.OpOneGives I.ToGives I.KeepGives I.members_of) p id f register a s → r ≡ s }
{}
