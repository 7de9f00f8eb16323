//! Facts are taken where they meet each constraint of their program.

ghost use Rattle.std.specs.Prelude.{◌≡◌, IfOk, IfErr};
ghost use Rattle.cc_proof.specs.Denied.{IsDenied};
ghost use Rattle.cc_rules_grow.specs.CcRules.Rules.{IsSolution};
ghost use Rattle.cc_rules_grow.specs.CcState.Covered.{Covers, IsInLimits};
ghost use Rattle.cc_rules_grow.specs.CcState.Shape.{HaveShape};
ghost use Rattle.cc_rules_grow.specs.CcStateOperators.Domains.{domain};

use crate::broken::first_broken;
use crate::denied::Denied;
use cc_program::Program;
use cc_program::num::NoMemory;
use cc_proof_rules::solutions;
use cc_rules_grow::lattice::IntDomain;
use cc_rules_grow::state::covered;
use cc_rules_grow::state::kinds::Covered;
use cc_rules_grow::state_facts::Facts;
use std::alloc::Global;

/// Facts of a program's shape, kept where they meet each of its constraints: then they cover it. Else the first constraint
/// that they break. The only other error is want of memory.
pub fn accept<I: IntDomain>(
    alloc: Global,
    p: &Program,
    facts: Facts<I>,
) -> Result<Covered<'_, I>, Denied>
    requires limits { IsInLimits (domain I.Has I.IsBelow I.OpGives I.OpOneGives I.ToGives I.KeepGives I.members_of) p.now facts }
    requires shape { HaveShape (domain I.Has I.IsBelow I.OpGives I.OpOneGives I.ToGives I.KeepGives I.members_of) p.now facts }
    ensures program { IfOk result (λ kept. kept.program.now ≡ p.now) }
    ensures facts { IfOk result (λ kept. kept.facts ≡ facts) }
    ensures solution { IfOk result (λ _. IsSolution (domain I.Has I.IsBelow I.OpGives I.OpOneGives I.ToGives I.KeepGives I.members_of) p.now facts) }
    ensures covers { IfOk result (λ _. Covers (domain I.Has I.IsBelow I.OpGives I.OpOneGives I.ToGives I.KeepGives I.members_of) p.now facts) }
    ensures denied { IfErr result (λ denied. IsDenied (domain I.Has I.IsBelow I.OpGives I.OpOneGives I.ToGives I.KeepGives I.members_of) I.bounds_of p.now facts denied) }
{
    solutions::<I>();
    match first_broken(alloc, p, &facts) {
        Err(NoMemory) => Err(Denied::NoMemory),
        Ok(Some(broken)) => Err(Denied::Broken(broken)),
        Ok(None) => Ok(covered(p, facts)),
    }
}
