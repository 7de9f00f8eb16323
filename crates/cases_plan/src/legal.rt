//! Plans that are legal or not.

use crate::written::written_of;
use cases_script::Page;
use cc_plan_legal::{Candidate, Illegal, Parts, first_illegal};
use std::alloc::Global;

/// Writes which slot breaks which rule.
fn write_breach(page: &mut Page, breach: Illegal) {
    page.put_with("slot ", breach.slot);
    page.put_with(" breaks rule ", breach.rule);
    page.put_with(": has ", breach.have);
    page.put_with(", needs ", breach.need);
}

/// Writes whether lists are those of a plan that is legal.
pub fn write_judgement(alloc: Global, page: &mut Page, slots: &[Candidate], parts: Parts) {
    if slots.len() > 1_000_000 {
        page.put("too many slots");
        return;
    }
    match parts.into_plan() {
        None => page.put("no plan"),
        Some(plan) => match first_illegal(alloc, slots, &plan) {
            Ok(None) => page.put("legal"),
            Ok(Some(breach)) => write_breach(page, breach),
            Err(_) => page.put("no memory"),
        },
    }
}

/// Writes whether the plan of a case is legal.
pub fn write_outcome(alloc: Global, page: &mut Page, case: &str) {
    match written_of(alloc, case) {
        Ok(Some((slots, parts))) => write_judgement(alloc, page, &slots, parts),
        Ok(None) => page.put("unclear"),
        Err(_) => page.put("no memory"),
    }
}
