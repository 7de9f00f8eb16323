//! How a profile is written: what it has other than 2 bytes for `int` and pointers, a signed `char`, the alignment and
//! the atomic width 1, no handlers, levels and counts, `irq_off` and its like, the weights 1 and no budget.

use cases_script::{Page, bytes_of};
use cc_cost::{Profile, ProfileFault, default_profile, read_profile};
use cc_program::Roles;
use cc_program::num::Target;
use std::alloc::Global;

/// A word with a blank on each side.
fn write_word(page: &mut Page, word: &str) {
    page.put(" ");
    page.put(word);
    page.put(" ");
}

/// A number that is not the one that is usual.
fn write_number(page: &mut Page, word: &str, number: u64, usual: u64) {
    if number != usual {
        write_word(page, word);
        page.show(number);
    }
}

fn write_budget(page: &mut Page, word: &str, budget: Option<u64>) {
    if let Some(most) = budget {
        write_word(page, word);
        page.show(most);
    }
}

/// A name that is not the one that is usual.
fn write_name(page: &mut Page, word: &str, name: &[u8], usual: &str) {
    if name != usual.as_bytes() {
        write_word(page, word);
        page.bytes(name);
    }
}

fn write_target(page: &mut Page, target: &Target) {
    write_number(page, "int", u64::from(target.int_bytes), 2);
    write_number(page, "pointer", u64::from(target.pointer_bytes), 2);
    if !target.char_signed {
        page.put(" unsigned");
    }
    write_number(page, "align", u64::from(target.align_max), 1);
    write_number(page, "atomic", u64::from(target.atomic_bytes), 1);
}

fn write_roles(page: &mut Page, roles: &Roles) {
    for name in roles.handlers.all() {
        write_name(page, "handler", name.all(), "");
    }
    write_name(page, "off", roles.off.all(), "irq_off");
    write_name(page, "on", roles.on.all(), "irq_on");
    write_name(page, "save", roles.save.all(), "irq_save");
    write_name(page, "restore", roles.restore.all(), "irq_restore");
    for (name, level) in roles.levels.all() {
        write_name(page, "level", name.all(), "");
        page.put_with(" ", *level);
    }
}

fn write_profile(page: &mut Page, profile: &Profile) {
    write_target(page, &profile.target);
    write_roles(page, &profile.roles);
    for (name, count) in profile.counts.all() {
        write_name(page, "count", name.all(), "");
        page.put_with(" ", *count);
    }
    write_number(page, "weight_code", profile.weight_code, 1);
    write_number(page, "weight_time", profile.weight_time, 1);
    write_budget(page, "budget_code", profile.budget_code);
    write_budget(page, "budget_time", profile.budget_time);
}

fn write_fault(page: &mut Page, fault: ProfileFault) {
    match fault {
        ProfileFault::Row { row, rule } => {
            page.put_with("broken ", rule);
            page.put_with(" in row ", row);
        }
        ProfileFault::NoMemory => page.put("no memory"),
    }
}

/// Writes what a text gives.
pub fn write_read(alloc: Global, page: &mut Page, case: &str) {
    let Ok(text) = bytes_of(alloc, case) else {
        return page.put("no memory");
    };
    if text.len() >= 0xffff_ffff {
        return page.put("too long");
    }
    match read_profile(alloc, text.as_slice()) {
        Ok(profile) => {
            page.put("ok");
            write_profile(page, &profile);
        }
        Err(fault) => write_fault(page, fault),
    }
}

/// Writes the profile of no rows.
pub fn write_default(alloc: Global, page: &mut Page) {
    match default_profile(alloc) {
        Ok(profile) => {
            page.put("ok");
            write_profile(page, &profile);
        }
        Err(_) => page.put("no memory"),
    }
}
