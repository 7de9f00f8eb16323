//! What needs, slots and points keep.

ghost use Rattle.std.specs.Prelude.{◌≡◌, ◌↔◌, ◌⊎◌, ◌<◌, ℕ, Some, None, true, length};
ghost use Rattle.cc_lattice.specs.Systems.{IsRaised};
ghost use Rattle.cc_rules_needs.specs.Flowing.{of_fact, needs_at};
ghost use Rattle.cc_rules_needs.specs.Needs.{Slot, Part, Needs, Has, HasAll, IsBelow};
ghost use Rattle.cc_rules_needs.specs.Points.{ArePointsAlike, IsFactOf, AreWellFormed, IsPointBelow, HasFlow, IsRaisedAt};
ghost use Rattle.cc_rules_needs.specs.Raised.{MayGet, IsPut};
ghost use Rattle.cc_state_facts.specs.declared.facts.Facts.{Facts};
ghost use Rattle.cc_state_facts.specs.declared.facts.PointFact.{PointFact};
ghost use Rattle.cc_state_facts.specs.Facts.{fact_at};
ghost use Rattle.cc_state_facts.specs.Orders.{AreAlike, IsBelow as IsBelowByParts};

use crate::needs::Part;
use cc_lattice::IntDomain;

impl<I: IntDomain> Part<I> {
    /// Laws over each domain. The call does nothing.
    pub fn laws()
        // Facts are ordered by their slots, and have all that those below them have.
        ensures itself { (f : Facts I) → IsBelow I.IsBelow f f }
        ensures through { (f g h : Facts I) → IsBelow I.IsBelow f g → IsBelow I.IsBelow g h → IsBelow I.IsBelow f h }
        ensures has_more { (f g : Facts I) (needs : Needs I) → IsBelow I.IsBelow f g → HasAll I.IsBelow needs f → HasAll I.IsBelow needs g }

        // Facts that get a part are the least ones above the old ones that have it.
        ensures put_above { (slot : Slot) (more : Part I) (f g : Facts I) → MayGet slot more f → IsPut I.IsBelow slot more f g → IsBelow I.IsBelow f g }
        ensures put_has { (slot : Slot) (more : Part I) (f g : Facts I) → MayGet slot more f → IsPut I.IsBelow slot more f g → Has I.IsBelow g (slot, more) }
        ensures put_least { (slot : Slot) (more : Part I) (f g h : Facts I) → MayGet slot more f → IsPut I.IsBelow slot more f g →
            IsBelow I.IsBelow f h → Has I.IsBelow h (slot, more) → IsBelow I.IsBelow g h }

        // A point that is reached has what flows there exactly where it has all that is needed of it; one that is not reached has not.
        ensures point_has { (facts : Facts I) (point registers cells : ℕ) (flow fact : PointFact I) → fact_at facts point ≡ Some fact →
            IsPointBelow I.IsBelow flow fact → HasAll I.IsBelow (needs_at point registers cells (of_fact flow)) facts }
        ensures point_needs { (facts : Facts I) (point registers cells : ℕ) (flow fact : PointFact I) → fact_at facts point ≡ Some fact →
            IsFactOf registers cells flow → IsFactOf registers cells fact → ArePointsAlike flow fact →
            HasAll I.IsBelow (needs_at point registers cells (of_fact flow)) facts → IsPointBelow I.IsBelow flow fact }
        ensures unreached { (facts : Facts I) (point registers cells : ℕ) (flow : PointFact I) → fact_at facts point ≡ None →
            (flow.off ≡ true) ⊎ (flow.on ≡ true) → HasAll I.IsBelow (needs_at point registers cells (of_fact flow)) facts → ⊥ }

        // A point that is raised by what flows there: the least facts above the old ones that have it.
        ensures raised_above { (f g : Facts I) (point : ℕ) (flow : PointFact I) → point < length f.at → IsRaisedAt I.IsBelow f point flow g → IsBelow I.IsBelow f g }
        ensures raised_has { (f g : Facts I) (point : ℕ) (flow : PointFact I) → point < length f.at → IsRaisedAt I.IsBelow f point flow g →
            HasFlow I.IsBelow flow (fact_at g point) }
        ensures raised_least { (f g h : Facts I) (point : ℕ) (flow : PointFact I) → point < length f.at → IsRaisedAt I.IsBelow f point flow g →
            IsBelow I.IsBelow f h → HasFlow I.IsBelow flow (fact_at h point) → IsBelow I.IsBelow g h }

        // The order by slots is the order part by part, in which facts are a lattice, where facts are of one kind. So the least facts above others that
        // have what is needed are the same in both.
        ensures slots { (f g : Facts I) → IsBelowByParts I.IsBelow f g → IsBelow I.IsBelow f g }
        ensures parts { (f g : Facts I) → AreAlike f g → AreWellFormed f → IsBelow I.IsBelow f g → IsBelowByParts I.IsBelow f g }
        ensures least { (needs : Needs I) (f g : Facts I) → AreAlike f g → AreWellFormed f → AreWellFormed g →
            (IsRaised (λ h. AreAlike f h × AreAlike g h) (IsBelow I.IsBelow) (λ _ h. HasAll I.IsBelow needs h) f g ↔
            IsRaised (λ h. AreAlike f h × AreAlike g h) (IsBelowByParts I.IsBelow) (λ _ h. HasAll I.IsBelow needs h) f g) }
    {}
}
