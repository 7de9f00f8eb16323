ghost use Rattle.cc_program.specs.declared.program.Program.{Program};
ghost use Rattle.cc_rules.specs.Constraints.{Constraint};
ghost use Rattle.cc_rules.specs.Rules.{IsAsked};
ghost use Rattle.cc_rules.specs.CcRulesNeeds.Needs.{Needs};
ghost use Rattle.cc_rules_reads.specs.Reads.{AreSameFor};
ghost use Rattle.cc_rules.specs.CcStateFacts.declared.facts.Facts.{Facts};
ghost use Rattle.cc_rules.specs.CcStateOperators.Domains.{domain};

use cc_rules::lattice::IntDomain;

/// What constraints read of facts. The call does nothing.
pub fn laws<I: IntDomain>()
    // Facts that are the same in what a constraint reads are asked the same by it.
    ensures asked { (p : Program) (facts others : Facts I) (c : Constraint) (ns : Needs I) → AreSameFor p facts others c →
        IsAsked (domain I.Has I.IsBelow I.OpGives I.OpOneGives I.ToGives I.KeepGives I.members_of) p facts c ns →
        IsAsked (domain I.Has I.IsBelow I.OpGives I.OpOneGives I.ToGives I.KeepGives I.members_of) p others c ns }
{}
