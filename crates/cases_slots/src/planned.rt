//! What is planned for a program.

ghost use Rattle.std.specs.Prelude.{◌≡◌, ◌≤◌, IfSome};
ghost use Rattle.cc_flow.specs.Points.{count_of, flow_of};
ghost use Rattle.cc_layout.specs.Seats.{ram as ram_of};
ghost use Rattle.cc_slots.specs.Domain.{vals_domain};
ghost use Rattle.cc_state.specs.Covered.{IsInLimits};
ghost use Rattle.cc_state.specs.Shape.{HaveShape};
ghost use Rattle.cc_syntax.specs.Normal.{IsNormal};

use crate::changed::plan_of;
use crate::listed::write_slots;
use cases_script::{Page, split};
use cc_cost::Profile;
use cc_flow::{Flow, points};
use cc_layout::ram;
use cc_normal::is_normal;
use cc_plan::{legal, plan, table};
use cc_plan_legal::Illegal;
use cc_program::Program;
use cc_rules_system::least_facts;
use cc_sets::Vals;
use cc_slots::slots;
use cc_state_facts::Facts;
use std::alloc::Global;

/// The most bytes of RAM that slots are asked of.
const RAM_LIMIT: u64 = 65_536;

/// Writes the table of the plan, where the packed program takes so many bytes.
fn write_table(
    alloc: Global,
    page: &mut Page,
    after: &str,
    p: &Program,
    flow: &Flow,
    facts: &Facts<Vals>,
    profile: &Profile,
) -> Option<()>
    requires limits { IsInLimits vals_domain p.now facts.now }
    requires shape { HaveShape vals_domain p.now facts.now }
    requires low { ram_of p.now ≤ 65536 }
    requires flow { flow.now ≡ flow_of p.now }
{
    let after = after.parse().ok()?;
    let plan = plan(alloc, p, flow, facts, profile).ok()?;
    let text = table(alloc, p, flow, facts, &plan, profile, after).ok()?;
    page.put(String::from_utf8(text).ok()?.as_str());
    Some(())
}

/// Writes which slot breaks which rule.
fn write_breach(page: &mut Page, breach: Option<Illegal>) {
    match breach {
        None => page.put("legal\n"),
        Some(breach) => {
            page.put_with("slot ", breach.slot);
            page.put_with(" breaks rule ", breach.rule);
            page.put_with(": has ", breach.have);
            page.put_with(", needs ", breach.need);
            page.put("\n");
        }
    }
}

/// Writes whether a plan with these items is legal.
fn write_judgement(
    alloc: Global,
    page: &mut Page,
    items: &str,
    p: &Program,
    flow: &Flow,
    facts: &Facts<Vals>,
) -> Option<()>
    requires limits { IsInLimits vals_domain p.now facts.now }
    requires shape { HaveShape vals_domain p.now facts.now }
    requires low { ram_of p.now ≤ 65536 }
    requires flow { flow.now ≡ flow_of p.now }
{
    let plan = plan_of(alloc, items)?;
    write_breach(page, legal(alloc, p, flow, facts, &plan).ok()?);
    Some(())
}

/// Writes what a question asks of a program by facts about it. None where the question has no meaning.
fn write_asked(
    alloc: Global,
    page: &mut Page,
    question: &str,
    p: &Program,
    flow: &Flow,
    facts: &Facts<Vals>,
    profile: &Profile,
) -> Option<()>
    requires limits { IsInLimits vals_domain p.now facts.now }
    requires shape { HaveShape vals_domain p.now facts.now }
    requires low { ram_of p.now ≤ 65536 }
    requires flow { flow.now ≡ flow_of p.now }
{
    let (word, rest) = split(question);
    match word {
        "table" => write_table(alloc, page, rest, p, flow, facts, profile),
        "legal" => write_judgement(alloc, page, rest, p, flow, facts),
        _ => {
            write_slots(page, &slots(alloc, p, flow, facts).ok()?);
            Some(())
        }
    }
}

/// The points of a program, where they are not too many.
fn flow_for(alloc: Global, p: &Program) -> Option<Flow>
    ensures flow { IfSome result (λ flow. flow ≡ flow_of p.now) }
    ensures few { IfSome result (λ _. count_of p.now ≤ 65536) }
{
    match points(alloc, p) {
        Ok(flow) => Some(flow),
        Err(_) => None,
    }
}

/// The least facts about a program, where they are not too many.
fn facts_about(alloc: Global, p: &Program, flow: &Flow) -> Option<Facts<Vals>>
    requires normal { IsNormal p.now }
    requires flow { flow.now ≡ flow_of p.now }
    requires few { count_of p.now ≤ 65536 }
    ensures limits { IfSome result (λ facts. IsInLimits vals_domain p.now facts) }
    ensures shape { IfSome result (λ facts. HaveShape vals_domain p.now facts) }
{
    match least_facts::<Vals>(alloc, p, flow) {
        Ok(facts) => Some(facts),
        Err(_) => None,
    }
}

/// Writes what a question asks of a lowered program. None where it is past a limit, or the question has no meaning.
pub fn write_answer(
    alloc: Global,
    page: &mut Page,
    question: &str,
    p: &Program,
    profile: &Profile,
) -> Option<()> {
    if !is_normal(p) || ram(p) > RAM_LIMIT {
        return None;
    }
    let flow = flow_for(alloc, p)?;
    let facts = facts_about(alloc, p, &flow)?;
    write_asked(alloc, page, question, p, &flow, &facts, profile)
}
