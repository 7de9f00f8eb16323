//! What holds of the typed unit and of the fault of every tree.

ghost use Rattle.std.specs.Prelude.{◌≡◌, ◌≢◌, ◌⊎◌};
ghost use Rattle.cc_program.specs.CcNum.declared.target.Target.{Target};
ghost use Rattle.cc_program.specs.declared.program.Roles.{Roles};
ghost use Rattle.cc_scopes.specs.declared.verdict.Fault.{Fault};
ghost use Rattle.cc_tree.specs.declared.unit.Unit.{Unit as UnitTree};
ghost use Rattle.cc_type.specs.Typed.{IsTyped, IsBroken, Refuses};
ghost use Rattle.cc_type.specs.declared.fault.TypeFault.{TypeFault};
ghost use Rattle.cc_type.specs.declared.fault.TypeFault.TheVariants.{NoMemory};
ghost use Rattle.cc_typed_bodies.specs.CcUnit.declared.unit.TypedUnit.{TypedUnit};

/// A tree has one typed unit, or else it breaks a rule and one fault tells which.
pub fn units_have_types_or_a_fault()
    ensures one_unit { (target : Target) (roles : Roles) (u : UnitTree) (t v : TypedUnit) → IsTyped u target roles t → IsTyped u target roles v → t ≡ v }
    ensures one_fault { (target : Target) (roles : Roles) (u : UnitTree) (e f : TypeFault) → e ≢ NoMemory → f ≢ NoMemory → Refuses target roles u e → Refuses target roles u f → e ≡ f }
    ensures not_both { (target : Target) (roles : Roles) (u : UnitTree) (t : TypedUnit) (e : TypeFault) → e ≢ NoMemory → IsTyped u target roles t → Refuses target roles u e → ⊥ }
    ensures either { (target : Target) (roles : Roles) (u : UnitTree) → ((t : TypedUnit) × IsTyped u target roles t) ⊎ ((f : Fault) × IsBroken u target roles f) }
{}
