ghost use Rattle.cc_rules_grow.specs.CcFlow.Points.{count_of};
ghost use Rattle.cc_rules_grow.specs.CcLattice.Systems.{IsRaised};
ghost use Rattle.cc_program.specs.declared.program.Program.{Program};
ghost use Rattle.cc_rules_grow.specs.CcRules.Constraints.{Constraint, constraints};
ghost use Rattle.cc_rules_grow.specs.CcRules.Rules.{IsAsked, Asks};
ghost use Rattle.cc_rules_again.specs.Again.{number_of, again_of};
ghost use Rattle.cc_rules_again.specs.Things.{Thing, thing_of, Raises, ReadsThing, IsSame};
ghost use Rattle.cc_rules_grow.specs.CcRulesNeeds.Needs.{Needs};
ghost use Rattle.cc_rules_reads.specs.Reads.{AreSameFor};
ghost use Rattle.cc_rules_grow.specs.CcPlaces.Abstract.{AreOfOneKind};
ghost use Rattle.cc_rules_grow.specs.CcState.Shape.{HaveShape};
ghost use Rattle.cc_rules_grow.specs.CcStateFacts.declared.facts.Facts.{Facts};
ghost use Rattle.cc_rules_grow.specs.CcStateFacts.Orders.{AreAlike, IsBelow};
ghost use Rattle.cc_rules_grow.specs.CcStateOperators.Domains.{domain};
ghost use Rattle.std.specs.Prelude.{◌⊎◌, ◌+◌, ◌*◌, ◌<◌, ℕ, All};
ghost use Rattle.std.specs.List.{AllZip, Contains};

use cc_rules_grow::lattice::IntDomain;

/// Which constraints are asked again. The call does nothing.
pub fn laws<I: IntDomain>()
    // What a constraint asks for is of the things that it raises, by the form of its statement alone.
    ensures raises { (p : Program) (facts : Facts I) (c : Constraint) (ns : Needs I) →
        IsAsked (domain I.Has I.IsBelow I.OpGives I.OpOneGives I.ToGives I.KeepGives I.members_of) p facts c ns → All (λ need. Raises p c (thing_of need.0)) ns }

    // Facts that are the same in each thing that a constraint reads by one of them are asked the same.
    ensures reads { (p : Program) (facts others : Facts I) (c : Constraint) → AllZip AreOfOneKind facts.whole others.whole →
        ((t : Thing) → ReadsThing p others c t → IsSame p facts others t) → AreSameFor p facts others c }

    // Things that a constraint does not raise stay.
    ensures stays { (p : Program) (facts others : Facts I) (c : Constraint) → AreAlike facts others →
        HaveShape (domain I.Has I.IsBelow I.OpGives I.OpOneGives I.ToGives I.KeepGives I.members_of) p facts →
        HaveShape (domain I.Has I.IsBelow I.OpGives I.OpOneGives I.ToGives I.KeepGives I.members_of) p others →
        IsRaised (HaveShape (domain I.Has I.IsBelow I.OpGives I.OpOneGives I.ToGives I.KeepGives I.members_of) p) (IsBelow I.IsBelow) (Asks (domain I.Has I.IsBelow I.OpGives I.OpOneGives I.ToGives I.KeepGives I.members_of) p c) facts others →
        (t : Thing) → (Raises p c t → ⊥) → IsSame p facts others t }

    // Each constraint that reads a thing which another one raises is listed.
    ensures listed { (p : Program) (facts : Facts I) (c e : Constraint) (t : Thing) → Contains (constraints p) e → Raises p c t → ReadsThing p facts e t → Contains (again_of p facts c) (number_of e) }

    // So a constraint that facts met before another one raised them is met, or is listed.
    ensures again_lists { (p : Program) (facts others : Facts I) (c e : Constraint) → AreAlike facts others →
        HaveShape (domain I.Has I.IsBelow I.OpGives I.OpOneGives I.ToGives I.KeepGives I.members_of) p facts →
        HaveShape (domain I.Has I.IsBelow I.OpGives I.OpOneGives I.ToGives I.KeepGives I.members_of) p others →
        Contains (constraints p) e →
        IsRaised (HaveShape (domain I.Has I.IsBelow I.OpGives I.OpOneGives I.ToGives I.KeepGives I.members_of) p) (IsBelow I.IsBelow) (Asks (domain I.Has I.IsBelow I.OpGives I.OpOneGives I.ToGives I.KeepGives I.members_of) p c) facts others →
        Asks (domain I.Has I.IsBelow I.OpGives I.OpOneGives I.ToGives I.KeepGives I.members_of) p e facts facts →
        Asks (domain I.Has I.IsBelow I.OpGives I.OpOneGives I.ToGives I.KeepGives I.members_of) p e others others ⊎ Contains (again_of p others c) (number_of e) }

    // And each number that is listed is that of a constraint.
    ensures again_counts { (p : Program) (facts : Facts I) (c : Constraint) → All (λ number. number < 1 + count_of p * 9) (again_of p facts c) }
{}
