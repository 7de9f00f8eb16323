ghost use Rattle.cc_program.specs.declared.program.Program.{Program};
ghost use Rattle.cc_rules.specs.Constraints.{Constraint, constraints};
ghost use Rattle.cc_rules.specs.Rules.{IsAsked, Asks, IsSolution};
ghost use Rattle.cc_rules_grow.specs.Grown.{IsWorked};
ghost use Rattle.cc_rules.specs.CcRulesNeeds.Needs.{Needs, HasAll, IsBelow};
ghost use Rattle.cc_state_points.specs.CcState.Shape.{HaveShape};
ghost use Rattle.cc_rules.specs.CcStateFacts.declared.facts.Facts.{Facts};
ghost use Rattle.cc_rules.specs.CcStateOperators.Domains.{domain};
ghost use Rattle.cc_rules.specs.CcSyntax.Normal.{IsNormal};
ghost use Rattle.std.specs.List.{Contains};

use cc_rules::lattice::IntDomain;

/// What constraints ask of facts, and of greater ones. The call does nothing.
pub fn laws<I: IntDomain>()
    // What has all that a constraint asks of greater facts has all that it asks of lesser ones.
    ensures asked { (p : Program) → IsNormal p → (facts others : Facts I) → HaveShape (domain I.Has I.IsBelow I.OpGives I.OpOneGives I.ToGives I.KeepGives I.members_of) p facts →
        HaveShape (domain I.Has I.IsBelow I.OpGives I.OpOneGives I.ToGives I.KeepGives I.members_of) p others → IsBelow I.IsBelow facts others → (c : Constraint) →
        IsWorked (domain I.Has I.IsBelow I.OpGives I.OpOneGives I.ToGives I.KeepGives I.members_of) p facts c → (ns ms : Needs I) →
        IsAsked (domain I.Has I.IsBelow I.OpGives I.OpOneGives I.ToGives I.KeepGives I.members_of) p facts c ns →
        IsAsked (domain I.Has I.IsBelow I.OpGives I.OpOneGives I.ToGives I.KeepGives I.members_of) p others c ms → (h : Facts I) → HasAll I.IsBelow ms h → HasAll I.IsBelow ns h }

    // So what a constraint asks of facts is determined.
    ensures determined { (p : Program) → IsNormal p → (facts : Facts I) → HaveShape (domain I.Has I.IsBelow I.OpGives I.OpOneGives I.ToGives I.KeepGives I.members_of) p facts → (c : Constraint) →
        IsWorked (domain I.Has I.IsBelow I.OpGives I.OpOneGives I.ToGives I.KeepGives I.members_of) p facts c → (ns ms : Needs I) →
        IsAsked (domain I.Has I.IsBelow I.OpGives I.OpOneGives I.ToGives I.KeepGives I.members_of) p facts c ns →
        IsAsked (domain I.Has I.IsBelow I.OpGives I.OpOneGives I.ToGives I.KeepGives I.members_of) p facts c ms → (h : Facts I) → HasAll I.IsBelow ms h → HasAll I.IsBelow ns h }

    // And what is asked of lesser facts, greater ones that meet the constraint have.
    ensures grows { (p : Program) → IsNormal p → (facts others : Facts I) → HaveShape (domain I.Has I.IsBelow I.OpGives I.OpOneGives I.ToGives I.KeepGives I.members_of) p facts →
        HaveShape (domain I.Has I.IsBelow I.OpGives I.OpOneGives I.ToGives I.KeepGives I.members_of) p others → IsBelow I.IsBelow facts others → (c : Constraint) →
        IsWorked (domain I.Has I.IsBelow I.OpGives I.OpOneGives I.ToGives I.KeepGives I.members_of) p facts c → (ns : Needs I) →
        IsAsked (domain I.Has I.IsBelow I.OpGives I.OpOneGives I.ToGives I.KeepGives I.members_of) p facts c ns →
        Asks (domain I.Has I.IsBelow I.OpGives I.OpOneGives I.ToGives I.KeepGives I.members_of) p c others others → HasAll I.IsBelow ns others }

    // So each solution above facts has all that is asked of these.
    ensures solutions { (p : Program) → IsNormal p → (facts others : Facts I) → HaveShape (domain I.Has I.IsBelow I.OpGives I.OpOneGives I.ToGives I.KeepGives I.members_of) p facts →
        HaveShape (domain I.Has I.IsBelow I.OpGives I.OpOneGives I.ToGives I.KeepGives I.members_of) p others → IsBelow I.IsBelow facts others →
        IsSolution (domain I.Has I.IsBelow I.OpGives I.OpOneGives I.ToGives I.KeepGives I.members_of) p others → (c : Constraint) → Contains (constraints p) c →
        IsWorked (domain I.Has I.IsBelow I.OpGives I.OpOneGives I.ToGives I.KeepGives I.members_of) p facts c → (ns : Needs I) →
        IsAsked (domain I.Has I.IsBelow I.OpGives I.OpOneGives I.ToGives I.KeepGives I.members_of) p facts c ns → HasAll I.IsBelow ns others }
{}
