//! The law of the first fault, for translation units.

ghost use Rattle.std.specs.Prelude.{◌≡◌, ℕ};
ghost use Rattle.cc_program.specs.CcNum.declared.target.Target.{Target};
ghost use Rattle.cc_type.specs.CcOperands.RuleNumbers.{number_of};
ghost use Rattle.cc_program.specs.declared.program.Roles.{Roles};
ghost use Rattle.cc_type.specs.CcScopes.declared.verdict.Fault.{Fault};
ghost use Rattle.cc_tree.specs.declared.unit.Unit.{Unit as UnitTree};
ghost use Rattle.cc_type.specs.Typed.{IsTyped, Refuses};
ghost use Rattle.cc_type.specs.declared.fault.TypeFault.TheVariants as told;
ghost use Rattle.cc_type.specs.CcUnit.declared.unit.TypedUnit.{TypedUnit};
ghost use Rattle.cc_unit_faults.specs.FirstFault.{IsFirstFault, BreaksNoRule};

/// A refusal names the rule and the place of the first fault: of a construct that breaks the rule, begins at the place, and
/// has parts that break none, where nothing that is read in front of it breaks one. There is no other such fault. A unit has
/// a typed unit exactly where no construct in it breaks a rule. The call does nothing.
pub fn a_refusal_names_the_first_fault()
    ensures first { (target : Target) (roles : Roles) (u : UnitTree) (rule at : ℕ) → Refuses target roles u (told.Broken rule at) →
        (f : Fault) × IsFirstFault target roles u f × (rule ≡ number_of f.rule) × (at ≡ f.at) }
    ensures alone { (target : Target) (roles : Roles) (u : UnitTree) (f : Fault) → IsFirstFault target roles u f → Refuses target roles u (told.Broken (number_of f.rule) f.at) }
    ensures typed { (target : Target) (roles : Roles) (u : UnitTree) (t : TypedUnit) → IsTyped u target roles t → BreaksNoRule target roles u }
    ensures whole { (target : Target) (roles : Roles) (u : UnitTree) → BreaksNoRule target roles u → (t : TypedUnit) × IsTyped u target roles t }
{}
