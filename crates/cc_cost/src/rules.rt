//! The rules of a profile, and the first row that breaks one.

ghost use Rattle.std.specs.Prelude.{◌≡◌, ◌<◌, ◌^◌, ◌++◌, ◌∷◌, [], ℕ, IfOk, None as NoneOf, length, map, filter_map};
ghost use Rattle.std.specs.Option.{option_copied, option_map, is_some, option_to_list};
ghost use Rattle.cc_cost.specs.Keys.{spelling};
ghost use Rattle.cc_cost.specs.Rules.{rule_of as rule_of_setting, line_rule as rule_of_line, name_rule, defaults, first_from};
ghost use Rattle.cc_cost.specs.Settings.{given as given_in, role_of as role_of_setting, settings_of, thing_of};
ghost use Rattle.cc_cost.specs.Sets.{insert_default, names_of, things_of};

use crate::field::{ends_early, has_names, is_allowed, is_for, role_of};
use crate::key::Key;
use crate::names::{Names, Things, add_name, add_thing};
use crate::setting::{Line, Setting};
use cc_program::num::NoMemory;
use indexmap::IndexSet;
use std::alloc::Global;

/// A row that breaks a rule, from 1, and the least rule that it breaks.
#[derive(Clone, Copy)]
pub struct Fault {
    pub row: u32,
    pub rule: u8,
}

/// What rows in front have: what they are for, and the names of roles.
#[derive(Drop)]
struct Met<'t> {
    things: Things<'t>,
    names: Names<'t>,
}

/// The first row for a key, and where that is given once for each second field, for that field.
#[tactic(auto, using(crate::proofs::LineLemmas::of_given))]
pub fn given<'l>(lines: &'l [Line], key: Key, second: &str) -> Option<&'l Setting>
    ensures { option_copied result ≡ given_in (spelling key) second.now (settings_of lines.now) }
{
    for line in lines {
        if let Line::Says(setting) = line {
            if is_for(setting, key, second) {
                return Some(setting);
            }
        }
    }
    None
}

/// Adds the name of an intrinsic to which no row gives one.
fn add_default<'t>(
    names: &mut Names<'t>,
    lines: &[Line],
    intrinsic: &str,
    name: &'t str,
) -> Result<(), NoMemory>
    ensures { IfOk result (λ _. names_of names.new ≡ insert_default (is_some (given_in (spelling Key.Intrinsic) intrinsic.now (settings_of lines.now))) name.now (names_of names.old)) }
{
    if given(lines, Key::Intrinsic, intrinsic).is_none() {
        add_name(names, name.as_bytes())?;
    }
    Ok(())
}

/// Adds the names of the intrinsics to which no row gives one.
fn add_defaults<'t>(names: &mut Names<'t>, lines: &[Line]) -> Result<(), NoMemory>
    requires { names_of names.old ≡ [] }
    ensures { IfOk result (λ _. names_of names.new ≡ defaults (settings_of lines.now)) }
{
    add_default(names, lines, "off", "irq_off")?;
    add_default(names, lines, "on", "irq_on")?;
    add_default(names, lines, "save", "irq_save")?;
    add_default(names, lines, "restore", "irq_restore")
}

/// The least rule that the names of a row break.
fn rule_of_names<'t>(names: &mut Names<'t>, setting: &'t Setting) -> Result<Option<u8>, NoMemory>
    ensures rule { IfOk result (λ r. r ≡ name_rule (names_of names.old) setting.now) }
    ensures names { IfOk result (λ r. r ≡ NoneOf → names_of names.new ≡ names_of names.old ++ option_to_list (role_of_setting setting.now)) }
{
    if !has_names(setting) {
        return Ok(Some(6));
    }
    let Some(name) = role_of(setting) else {
        return Ok(None);
    };
    if add_name(names, name)? {
        Ok(None)
    } else {
        Ok(Some(6))
    }
}

/// The least rule that a row breaks, behind the rows that were met.
fn rule_of<'t>(met: &mut Met<'t>, setting: &'t Setting) -> Result<Option<u8>, NoMemory>
    ensures rule { IfOk result (λ r. r ≡ rule_of_setting (things_of met.old.things) (names_of met.old.names) setting.now) }
    ensures things { IfOk result (λ r. r ≡ NoneOf → things_of met.new.things ≡ things_of met.old.things ++ thing_of setting.now ∷ []) }
    ensures names { IfOk result (λ r. r ≡ NoneOf → names_of met.new.names ≡ names_of met.old.names ++ option_to_list (role_of_setting setting.now)) }
{
    if !is_allowed(setting) {
        return Ok(Some(3));
    }
    if !add_thing(&mut met.things, setting)? {
        return Ok(Some(4));
    }
    if ends_early(setting.key) && !setting.third.all().is_empty() {
        return Ok(Some(5));
    }
    rule_of_names(&mut met.names, setting)
}

/// The least rule that a row breaks, where it is a setting or is none.
fn rule_of_row<'t>(met: &mut Met<'t>, line: &'t Line) -> Result<Option<u8>, NoMemory>
    ensures rule { IfOk result (λ r. r ≡ rule_of_line (things_of met.old.things) (names_of met.old.names) line.now) }
    ensures things { IfOk result (λ r. r ≡ NoneOf → things_of met.new.things ≡ things_of met.old.things ++ map thing_of (settings_of (line.now ∷ []))) }
    ensures names { IfOk result (λ r. r ≡ NoneOf → names_of met.new.names ≡ names_of met.old.names ++ filter_map role_of_setting (settings_of (line.now ∷ []))) }
{
    match line {
        Line::Breaks(rule) => Ok(Some(*rule)),
        Line::Says(setting) => rule_of(met, setting),
    }
}

/// The first row that breaks a rule, where nothing was met in front of the rows.
#[tactic(auto, using(crate::proofs::FaultLemmas::of_faults))]
fn first_fault_behind<'t>(met: &mut Met<'t>, lines: &'t [Line]) -> Result<Option<Fault>, NoMemory>
    requires few { length lines.now < 2 ^ 32 }
    requires things { things_of met.old.things ≡ [] }
    requires names { names_of met.old.names ≡ [] }
    ensures { IfOk result (λ fault. option_map (λ f. (f.row, f.rule)) fault ≡ first_from (settings_of lines.now) [] lines.now) }
{
    add_defaults(&mut met.names, lines)?;
    let mut row: u32 = 0;
    for line in lines {
        row += 1;
        if let Some(rule) = rule_of_row(met, line)? {
            return Ok(Some(Fault { row, rule }));
        }
    }
    Ok(None)
}

/// The first row that breaks a rule.
pub fn first_fault(alloc: Global, lines: &[Line]) -> Result<Option<Fault>, NoMemory>
    requires { length lines.now < 2 ^ 32 }
    ensures { IfOk result (λ fault. option_map (λ f. (f.row, f.rule)) fault ≡ first_from (settings_of lines.now) [] lines.now) }
{
    let mut met = Met {
        things: IndexSet::new(alloc),
        names: IndexSet::new(alloc),
    };
    first_fault_behind(&mut met, lines)
}
