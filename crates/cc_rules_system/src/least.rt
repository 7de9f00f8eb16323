//! The least facts about a program.

ghost use Rattle.std.specs.Prelude.{◌≡◌, ◌≤◌, ◌<◌, ◌⊎◌, ◌^◌, ◌-◌, ℕ, Err, min, IfOk};
ghost use Rattle.cc_rules_asked.specs.CcFlow.Points.{count_of, flow_of};
ghost use Rattle.cc_rules_asked.specs.CcRules.Rules.{IsSolution};
ghost use Rattle.cc_rules_system.specs.declared.least.LeastEnd.TheVariants as LeastEndOf;
ghost use Rattle.cc_rules_system.specs.System.{IsReady};
ghost use Rattle.cc_rules_grow.specs.CcState.Covered.{Covers};
ghost use Rattle.cc_rules_grow.specs.CcState.Shape.{HaveShape};
ghost use Rattle.cc_rules_asked.specs.CcStateFacts.declared.facts.Facts.{Facts as FactsOf};
ghost use Rattle.cc_rules_asked.specs.CcStateFacts.Orders.{IsBelow};
ghost use Rattle.cc_rules_asked.specs.CcStateKeys.Counts.{fact_count};
ghost use Rattle.cc_state_limits.specs.Held.{AreHeld};
ghost use Rattle.cc_rules_asked.specs.CcStateOperators.Domains.{domain};
ghost use Rattle.cc_rules_asked.specs.CcSyntax.Normal.{IsNormal};

use crate::system::ConstraintSystem;
use cc_fix::least;
use cc_program::Program;
use cc_program::num::NoMemory;
use cc_proof_rules::solutions;
use cc_rules_asked::flow::Flow;
use cc_rules_asked::lattice::IntDomain;
use cc_rules_asked::state_facts::Facts;
use cc_rules_asked::state_keys::count_facts;
use cc_rules_made::rules_of;
use cc_rules_readers::index_of;
use cc_state_values_fit::wholes;
use std::alloc::Global;
use std::marker::PhantomData;

/// How many facts there may be about a program: of keys, and of tracked cells and registers at points.
const FACT_LIMIT: u128 = 4_194_304;

/// Why there are no facts about a program.
#[derive(Clone, Copy, Debug, PartialEq, Eq)]
pub enum LeastEnd {
    /// There would be more than 4,194,304: so many, up to the end of the type.
    Limit(u64),
    /// Memory ran out.
    NoMemory,
}

/// The constraints of a program within the limits.
fn system_of<'p, I: IntDomain>(
    alloc: Global,
    p: &'p Program,
    flow: &'p Flow,
) -> Result<ConstraintSystem<'p, I>, NoMemory>
    requires normal { IsNormal p.now }
    requires flow { flow.now ≡ flow_of p.now }
    requires few_points { count_of p.now ≤ 65536 }
    requires few_facts { fact_count p.now ≤ 4194304 }
    ensures ready { IfOk result (λ system. IsReady (domain I.Has I.IsBelow I.OpGives I.OpOneGives I.ToGives I.KeepGives I.members_of) system.rules system.index) }
    ensures program { IfOk result (λ system. system.rules.program.now ≡ p.now) }
{
    wholes::<I>(alloc, &p.target);
    let rules = rules_of(alloc, p, flow)?;
    let index = index_of(alloc, &rules)?;
    Ok(ConstraintSystem {
        alloc,
        rules,
        index,
        numbers: PhantomData,
    })
}

/// The least facts that meet all constraints of a program within the limits.
fn solved<I: IntDomain>(alloc: Global, p: &Program, flow: &Flow) -> Result<Facts<I>, NoMemory>
    requires normal { IsNormal p.now }
    requires flow { flow.now ≡ flow_of p.now }
    requires few_points { count_of p.now ≤ 65536 }
    requires few_facts { fact_count p.now ≤ 4194304 }
    ensures shape { IfOk result (λ facts. HaveShape (domain I.Has I.IsBelow I.OpGives I.OpOneGives I.ToGives I.KeepGives I.members_of) p.now facts) }
    ensures solution { IfOk result (λ facts. IsSolution (domain I.Has I.IsBelow I.OpGives I.OpOneGives I.ToGives I.KeepGives I.members_of) p.now facts) }
    ensures least { IfOk result (λ facts. (others : FactsOf I) → HaveShape (domain I.Has I.IsBelow I.OpGives I.OpOneGives I.ToGives I.KeepGives I.members_of) p.now others → AreHeld others → IsSolution (domain I.Has I.IsBelow I.OpGives I.OpOneGives I.ToGives I.KeepGives I.members_of) p.now others → IsBelow I.IsBelow facts others) }
{
    let system = system_of::<I>(alloc, p, flow)?;
    least(alloc, &system)
}

/// The least facts about all runs of a program in normal form, whose points these are: they meet all constraints of the
/// program, so that they cover its runs, and are below all others of its shape that do. Limit comes exactly where there would be more
/// than 4,194,304 facts, with their number, up to the end of its type; the only other error is want of memory.
pub fn least_facts<I: IntDomain>(
    alloc: Global,
    p: &Program,
    flow: &Flow,
) -> Result<Facts<I>, LeastEnd>
    requires normal { IsNormal p.now }
    requires flow { flow.now ≡ flow_of p.now }
    requires few_points { count_of p.now ≤ 65536 }
    ensures shape { IfOk result (λ facts. HaveShape (domain I.Has I.IsBelow I.OpGives I.OpOneGives I.ToGives I.KeepGives I.members_of) p.now facts) }
    ensures few { IfOk result (λ _. fact_count p.now ≤ 4194304) }
    ensures solution { IfOk result (λ facts. IsSolution (domain I.Has I.IsBelow I.OpGives I.OpOneGives I.ToGives I.KeepGives I.members_of) p.now facts) }
    ensures covers { IfOk result (λ facts. Covers (domain I.Has I.IsBelow I.OpGives I.OpOneGives I.ToGives I.KeepGives I.members_of) p.now facts) }
    ensures least { IfOk result (λ facts. (others : FactsOf I) → HaveShape (domain I.Has I.IsBelow I.OpGives I.OpOneGives I.ToGives I.KeepGives I.members_of) p.now others → AreHeld others → IsSolution (domain I.Has I.IsBelow I.OpGives I.OpOneGives I.ToGives I.KeepGives I.members_of) p.now others → IsBelow I.IsBelow facts others) }
    ensures limit { (count : ℕ) → result ≡ Err (LeastEndOf.Limit count) → (4194304 < fact_count p.now) × (count ≡ min (fact_count p.now) (2 ^ 64 - 1)) }
    ensures above { 4194304 < fact_count p.now → (result ≡ Err (LeastEndOf.Limit (min (fact_count p.now) (2 ^ 64 - 1)))) ⊎ (result ≡ Err LeastEndOf.NoMemory) }
{
    solutions::<I>();
    let Ok(count) = count_facts(alloc, p, flow) else {
        return Err(LeastEnd::NoMemory);
    };
    if count > FACT_LIMIT {
        return Err(LeastEnd::Limit(u64::try_from(count).unwrap_or(u64::MAX)));
    }
    match solved(alloc, p, flow) {
        Ok(facts) => Ok(facts),
        Err(NoMemory) => Err(LeastEnd::NoMemory),
    }
}
