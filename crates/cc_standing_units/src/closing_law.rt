ghost use Rattle.std.specs.Prelude.{◌≡◌, ℕ, true, nat_lt, List, length};
ghost use Rattle.cc_sound_terms.specs.Closings.{Closings};
ghost use Rattle.cc_program.specs.CcNum.declared.target.Target.{Target};
ghost use Rattle.cc_terms.specs.CcScopes.State.{State, at_first};
ghost use Rattle.cc_sound_terms.specs.Ordered.{HasMembers, IsOrdered};
ghost use Rattle.cc_standing_units.specs.Closed.{AreClosed};
ghost use Rattle.cc_terms.specs.CcSyntax.Names.{local_names};
ghost use Rattle.cc_terms.specs.CcSyntax.Types.{Named};
ghost use Rattle.cc_terms.specs.CcSyntax.Views.{View};
ghost use Rattle.cc_program.specs.CcWords.Names.{are_distinct};

/// Where each complete structure of a state has members, no two of one name, and over every view each was closed by a brace, over what was known in front of it,
/// structures are as their closing braces left them (C99 6.7.2.1). The call does nothing.
pub fn closing_laws()
    ensures closed { (target : Target) (t : State) → IsOrdered t → ((i : ℕ) (ms : List Named) → HasMembers t.structures i ms → nat_lt 0 (length ms) ≡ true) →
        ((i : ℕ) (ms : List Named) → HasMembers t.structures i ms → are_distinct (local_names ms) ≡ true) → ((v : View) → v.target ≡ target → Closings v (Unit {0}) at_first t) → AreClosed target t }
{}
