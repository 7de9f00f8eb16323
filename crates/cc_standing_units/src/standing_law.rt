ghost use Rattle.cc_relocated_units.specs.Linked.{AreStanding};
ghost use Rattle.cc_program.specs.CcNum.declared.target.Target.{Target};
ghost use Rattle.cc_numbering.specs.Units.{unit_left};
ghost use Rattle.cc_terms.specs.CcScopes.State.{State};
ghost use Rattle.cc_relocated_units.specs.Units.{IsOfText};
ghost use Rattle.cc_sound_terms.specs.Ordered.{IsOrdered};
ghost use Rattle.cc_standing_units.specs.Closed.{AreClosed};

/// Where structures of a state stand in the order of their closing braces, each as its brace closed it, those of the unit that is left stand as those of a
/// sound program do (C99 6.7.2.1). The call does nothing.
pub fn standing_unit_laws()
    ensures standing { (target : Target) (s : State) → IsOrdered s → AreClosed target s → IsOfText (unit_left s) → AreStanding target (unit_left s) }
{}
