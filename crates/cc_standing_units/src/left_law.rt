ghost use Rattle.std.specs.Prelude.{◌≡◌, ℕ, true};
ghost use Rattle.cc_program.specs.CcNum.declared.target.Target.{Target};
ghost use Rattle.cc_numbering.specs.Units.{ids_of, unit_left};
ghost use Rattle.cc_standing_units.specs.Views.{view_of};
ghost use Rattle.cc_relocated_units.specs.Renumbering.{Renumbers};
ghost use Rattle.cc_terms.specs.CcScopes.State.{State};
ghost use Rattle.cc_relocated_units.specs.Units.{unit_view};
ghost use Rattle.cc_sound_terms.specs.Ordered.{IsOrdered};
ghost use Rattle.cc_standing_units.specs.Laid.{AreLaid};

/// Where structures of a state stand in the order of their closing braces, and each lies as its members do, the view of the unit that is left has what the
/// state's own view has, by the unit's numbers (C99 6.2.5, 6.7.2.1). The call does nothing.
pub fn left_unit_laws()
    ensures renumbers { (target : Target) (s : State) → IsOrdered s → AreLaid target s → Renumbers (view_of target s) (unit_view target (unit_left s)) (ids_of s) (λ (i : ℕ). true) }
{}
