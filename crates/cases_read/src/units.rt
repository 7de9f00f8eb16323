//! What the type rules make of a translation unit: its typed unit, as `cases_units` writes it, or the rule that is broken and
//! its place.

use cases_script::{Page, bytes_of};
use cases_units::write_unit;
use cc_cost::{Profile, read_profile};
use cc_gram::{Unit, parse};
use cc_type::lex::lex;
use cc_type::{TypeFault, elaborate};
use std::alloc::Global;

/// The tree of a case; None where it has none, or memory runs out.
fn tree_of(alloc: Global, case: &str) -> Option<Unit> {
    let text = bytes_of(alloc, case).ok()?;
    if text.len() >= 1 << 32 {
        return None;
    }
    let tokens = lex(alloc, &text).ok()?;
    parse(alloc, &tokens).ok()
}

fn write_elaborated(alloc: Global, page: &mut Page, profile: &Profile, unit: &Unit) {
    match elaborate(alloc, unit, &profile.target, &profile.roles) {
        Ok(typed) => write_unit(page, &typed),
        Err(TypeFault::Broken { rule, at }) => page.show(format_args!("broken {rule} at {at}")),
        Err(TypeFault::NoMemory) => page.put("no memory"),
    }
}

/// The profile of these rows; None where they are none.
fn profile_of(alloc: Global, rows: &str) -> Option<Profile> {
    if rows.len() >= 1 << 32 {
        return None;
    }
    read_profile(alloc, rows.as_bytes()).ok()
}

/// Writes what a case gives at the target of a profile.
pub fn write_outcome(alloc: Global, page: &mut Page, rows: &str, case: &str) {
    let Some(profile) = profile_of(alloc, rows) else {
        return page.put("no profile");
    };
    match tree_of(alloc, case) {
        None => page.put("no tree"),
        Some(unit) => write_elaborated(alloc, page, &profile, &unit),
    }
}
