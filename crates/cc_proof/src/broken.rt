//! The first constraint that facts break, as reports have it.

ghost use Rattle.std.specs.Prelude.{◌≡◌, ◌≤◌, IfOk};
ghost use Rattle.cc_rules_grow.specs.CcFlow.Points.{count_of, flow_of};
ghost use Rattle.cc_proof.specs.Broken.{IsTold, IsFirstOrNone};
ghost use Rattle.cc_rules_grow.specs.CcRules.Constraints.{rule_number};
ghost use Rattle.cc_rules_numbered.specs.Numbered.{rule_view, constraint_view};
ghost use Rattle.cc_rules_texts.specs.Names.{AreNames};
ghost use Rattle.cc_rules_grow.specs.CcState.Covered.{IsInLimits};
ghost use Rattle.cc_rules_grow.specs.CcState.Shape.{HaveShape};
ghost use Rattle.cc_rules_grow.specs.CcStateOperators.Domains.{domain};

use cc_program::Program;
use cc_program::num::NoMemory;
use cc_rules_constraints::{Broken as Lacking, first_broken as first_lacking};
use cc_rules_grow::flow::{Flow, FlowEnd, points};
use cc_rules_grow::lattice::IntDomain;
use cc_rules_grow::state_facts::Facts;
use cc_rules_made::rules_of;
use cc_rules_numbered::Rule;
use cc_rules_texts::{Names, had_text, part_text};
use std::alloc::Global;

/// A constraint that facts break.
#[derive(Drop)]
pub struct Broken {
    /// The number of its rule, from 1 to 10.
    pub rule: u8,
    /// Its point. That of first values has 0.
    pub point: u32,
    /// What facts have in the first slot where they have too little.
    pub have: Vec<u8>,
    /// What the constraint needs there.
    pub need: Vec<u8>,
}

/// The points of a program that has no more than 65,536.
fn points_of(alloc: Global, p: &Program) -> Result<Flow, NoMemory>
    requires { count_of p.now ≤ 65536 }
    ensures { IfOk result (λ flow. flow ≡ flow_of p.now) }
{
    match points(alloc, p) {
        Ok(flow) => Ok(flow),
        Err(FlowEnd::NoMemory) => Err(NoMemory),
        Err(FlowEnd::Limit(_)) => unreachable!(),
    }
}

/// The number of a rule.
fn number_of(rule: Rule) -> u8
    ensures { result ≡ rule_number (rule_view rule) }
{
    match rule {
        Rule::Initial => 1,
        Rule::Start => 2,
        Rule::Flow => 3,
        Rule::Write => 4,
        Rule::Touch => 5,
        Rule::Call => 6,
        Rule::Back => 7,
        Rule::Return => 8,
        Rule::Handler => 9,
        Rule::Stability => 10,
    }
}

/// A constraint with what facts have and what it needs, as texts.
fn told<I: IntDomain>(
    alloc: Global,
    names: &Names<'_>,
    facts: &Facts<I>,
    lacking: &Lacking<I>,
) -> Result<Broken, NoMemory>
    requires { AreNames names.now }
    ensures { IfOk result (λ broken. IsTold (domain I.Has I.IsBelow I.OpGives I.OpOneGives I.ToGives I.KeepGives I.members_of) I.bounds_of names.now.program.now facts.now (constraint_view lacking.now.constraint) lacking.now.slot lacking.now.part broken) }
{
    let have = had_text(alloc, names, facts, lacking.slot)?;
    let need = part_text(alloc, names, lacking.slot, &lacking.part)?;
    Ok(Broken {
        rule: number_of(lacking.constraint.rule),
        point: lacking.constraint.point,
        have,
        need,
    })
}

/// The first constraint of a program that facts of its shape break, with the first slot that has too little, as texts. None
/// exactly where they meet all. The only error is want of memory.
pub fn first_broken<I: IntDomain>(
    alloc: Global,
    p: &Program,
    facts: &Facts<I>,
) -> Result<Option<Broken>, NoMemory>
    requires limits { IsInLimits (domain I.Has I.IsBelow I.OpGives I.OpOneGives I.ToGives I.KeepGives I.members_of) p.now facts.now }
    requires shape { HaveShape (domain I.Has I.IsBelow I.OpGives I.OpOneGives I.ToGives I.KeepGives I.members_of) p.now facts.now }
    ensures { IfOk result (λ broken. IsFirstOrNone (domain I.Has I.IsBelow I.OpGives I.OpOneGives I.ToGives I.KeepGives I.members_of) I.bounds_of p.now facts.now broken) }
{
    let flow = points_of(alloc, p)?;
    let rules = rules_of(alloc, p, &flow)?;
    let found = first_lacking(alloc, &rules, facts)?;
    match found {
        None => Ok(None),
        Some(lacking) => {
            let names = Names {
                program: p,
                flow: &flow,
                tracked: rules.tracked.all(),
            };
            Ok(Some(told(alloc, &names, facts, &lacking)?))
        }
    }
}
