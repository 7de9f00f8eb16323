ghost use Rattle.std.specs.Prelude.{[]};
ghost use Rattle.cc_program.specs.CcNum.declared.target.Target.{Target};
ghost use Rattle.cc_terms.specs.CcScopes.State.{State, at_first};
ghost use Rattle.cc_sound_terms.specs.Behind.{Behind};
ghost use Rattle.cc_sound_terms.specs.Ordered.{IsOrdered};
ghost use Rattle.cc_sound_terms.specs.Typing.{Knows, KnowsTypes};
ghost use Rattle.cc_standing_units.specs.Views.{view_of};

/// What a state's own view knows (C99 6.2.1 to 6.2.5). The call does nothing.
pub fn own_view()
    // Types: structures with their bytes, and nothing else in front of a unit.
    ensures types { (target : Target) (s : State) → KnowsTypes (view_of target s) at_first s }

    // All, where behind the unit what is declared stands over that view.
    ensures all { (target : Target) (s : State) → (KnowsTypes (view_of target s) at_first s → Behind (view_of target s) at_first s) → Knows (view_of target s) [] at_first s }

    // In front of a unit structures stand in the order of their closing braces.
    ensures order { IsOrdered at_first }
{}
