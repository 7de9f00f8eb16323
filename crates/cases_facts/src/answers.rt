//! The answers to questions about facts.

ghost use Rattle.std.specs.Prelude.{◌≡◌, ◌≤◌, IfSome};
ghost use Rattle.cc_flow.specs.Points.{count_of, flow_of};
ghost use Rattle.cc_state.specs.Covered.{IsInLimits};
ghost use Rattle.cc_state.specs.Shape.{HaveShape};
ghost use Rattle.cc_state_keys.specs.Counts.{fact_count};
ghost use Rattle.cc_state_operators.specs.Domains.{domain};
ghost use Rattle.cc_syntax.specs.Normal.{IsNormal};

use crate::changes::change_all;
use crate::runs::write_run;
use crate::sources::lowered_program;
use crate::written::write_facts;
use cases_script::{Page, split};
use cc_discard::discard_program;
use cc_flow::{Flow, points};
use cc_lattice::IntDomain;
use cc_normal::is_normal;
use cc_program::Program;
use cc_proof::{Denied, accept, first_broken};
use cc_ranges::Span;
use cc_rules_system::least_facts;
use cc_sets::Vals;
use cc_state::kinds::Covered;
use cc_state_facts::Facts;
use cc_state_shaped::has_shape;
use std::alloc::Global;
use std::mem;

/// Writes whether facts are taken, and the rule that they break.
fn write_acceptance<I: IntDomain>(
    alloc: Global,
    page: &mut Page,
    p: &Program,
    facts: Facts<I>,
) -> Option<()>
    requires limits { IsInLimits (domain I.Has I.IsBelow I.OpGives I.OpOneGives I.ToGives I.KeepGives I.members_of) p.now facts }
    requires shape { HaveShape (domain I.Has I.IsBelow I.OpGives I.OpOneGives I.ToGives I.KeepGives I.members_of) p.now facts }
{
    match accept(alloc, p, facts) {
        Ok(kept) => {
            let Covered { program: _, facts } = kept;
            mem::drop(facts);
            page.put("taken");
        }
        Err(Denied::Broken(broken)) => page.put_with("denied by rule ", broken.rule),
        Err(Denied::NoMemory) => return None,
    }
    Some(())
}

/// Writes the first constraint that facts break, and whether they are taken.
fn write_judgement<I: IntDomain>(
    alloc: Global,
    page: &mut Page,
    p: &Program,
    facts: Facts<I>,
) -> Option<()>
    requires limits { IsInLimits (domain I.Has I.IsBelow I.OpGives I.OpOneGives I.ToGives I.KeepGives I.members_of) p.now facts }
    requires shape { HaveShape (domain I.Has I.IsBelow I.OpGives I.OpOneGives I.ToGives I.KeepGives I.members_of) p.now facts }
{
    match first_broken(alloc, p, &facts).ok()? {
        None => page.put("none; "),
        Some(broken) => {
            page.put_with("rule ", broken.rule);
            page.put_with(" at ", broken.point);
            page.put(" has {");
            page.bytes(&broken.have);
            page.put("} needs {");
            page.bytes(&broken.need);
            page.put("}; ");
        }
    }
    write_acceptance(alloc, page, p, facts)
}

/// Writes the answer to a question about facts that have the shape of a program's.
fn write_asked<I: IntDomain>(
    alloc: Global,
    page: &mut Page,
    p: &Program,
    flow: &Flow,
    facts: Facts<I>,
    question: &str,
) -> Option<()>
    requires normal { IsNormal p.now }
    requires flow { flow.now ≡ flow_of p.now }
    requires limits { IsInLimits (domain I.Has I.IsBelow I.OpGives I.OpOneGives I.ToGives I.KeepGives I.members_of) p.now facts }
    requires shape { HaveShape (domain I.Has I.IsBelow I.OpGives I.OpOneGives I.ToGives I.KeepGives I.members_of) p.now facts }
{
    let (word, rest) = split(question);
    match word {
        "facts" => write_facts(alloc, page, p, &facts),
        "judge" => write_judgement(alloc, page, p, facts),
        "hold" => write_run(alloc, page, p, flow, &facts, rest),
        _ => None,
    }
}

/// Writes the answer to a question about changed facts.
fn write_changed<I: IntDomain>(
    alloc: Global,
    page: &mut Page,
    p: &Program,
    flow: &Flow,
    facts: Facts<I>,
    question: &str,
) -> Option<()>
    requires normal { IsNormal p.now }
    requires flow { flow.now ≡ flow_of p.now }
    requires few_points { count_of p.now ≤ 65536 }
    requires few_facts { fact_count p.now ≤ 4194304 }
{
    match has_shape(alloc, p, flow, &facts) {
        Ok(true) => write_asked(alloc, page, p, flow, facts, question),
        Ok(false) => {
            page.put("of another shape");
            Some(())
        }
        Err(_) => None,
    }
}

/// Writes the answer to a question about the least facts of a program, with what the case changes of them.
fn write_of<I: IntDomain>(
    alloc: Global,
    page: &mut Page,
    p: &Program,
    flow: &Flow,
    case: &str,
) -> Option<()>
    requires normal { IsNormal p.now }
    requires flow { flow.now ≡ flow_of p.now }
    requires few_points { count_of p.now ≤ 65536 }
{
    let (question, changes) = case.split_once(" : ").unwrap_or((case, ""));
    match least_facts::<I>(alloc, p, flow) {
        Err(_) => None,
        Ok(mut facts) => {
            change_all(alloc, &mut facts, changes)?;
            write_changed(alloc, page, p, flow, facts, question)
        }
    }
}

/// The points of a program, where they are not too many.
fn flow_for(alloc: Global, p: &Program) -> Option<Flow>
    ensures flow { IfSome result (λ flow. flow ≡ flow_of p.now) }
    ensures few { IfSome result (λ _. count_of p.now ≤ 65536) }
{
    match points(alloc, p) {
        Ok(flow) => Some(flow),
        Err(_) => None,
    }
}

/// Writes the answer to a question about facts of a program.
fn write_about(alloc: Global, page: &mut Page, p: &Program, case: &str) -> Option<()> {
    if !is_normal(p) {
        return None;
    }
    let flow = flow_for(alloc, p)?;
    match case.strip_prefix("span ") {
        Some(case) => write_of::<Span>(alloc, page, p, &flow, case),
        None => write_of::<Vals>(alloc, page, p, &flow, case),
    }
}

/// Writes the answer to a question about facts of the program of a source.
pub fn write_answer(alloc: Global, page: &mut Page, source: &str, case: &str) {
    match lowered_program(alloc, source) {
        None => page.put("refused"),
        Some(p) => {
            if write_about(alloc, page, &p, case).is_none() {
                page.put("unclear");
            }
            discard_program(p);
        }
    }
}
