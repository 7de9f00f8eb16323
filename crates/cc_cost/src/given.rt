//! The profile that rows give.

ghost use Rattle.std.specs.Prelude.{◌≡◌, ◌||◌, ◌&&◌, ◌≤◌, ◌^◌, ◌-◌, [], ◌∷◌, nat_eq, nat_le, map, not, IfOk, IfSome, IsTrue, None as NoneOf, codes, true};
ghost use Rattle.std.specs.List.{list_all};
ghost use Rattle.std.specs.Option.{option_copied, option_map, option_map_or, option_to_list, unwrap_or};
ghost use Rattle.cc_rows.specs.Numbers.{number_in as number_in_field};
ghost use Rattle.std.specs.Str.{bytes_eq};
ghost use Rattle.cc_cost.specs.Given.{second_for as second_in, third_for as third_in, two_or_four as two_or_four_bytes, one_to_four as one_to_four_bytes, handlers_in, levels_in, counts_in, intrinsic_for as intrinsic_in, weight_for as weight_in, budget_for as budget_in, GivesTarget, GivesRoles, GivesProfile};
ghost use Rattle.cc_cost.specs.Keys.{spelling};
ghost use Rattle.cc_cost.specs.Rules.{first_from};
ghost use Rattle.cc_cost.specs.Settings.{settings_of};

use crate::field::is;
use crate::key::Key;
use crate::profile::Profile;
use crate::rules::given;
use crate::setting::Line;
use cc_program::num::{List, Name, NoMemory, Target};
use cc_program::{Roles, copy_list};
use cc_rows::number_in;
use std::alloc::Global;

/// The second field of the row for a key; no field where there is no such row.
fn second_for<'l>(lines: &'l [Line], key: Key) -> &'l [u8]
    ensures { result.now ≡ second_in (spelling key) (settings_of lines.now) }
{
    match given(lines, key, "") {
        None => b"",
        Some(setting) => setting.second.all(),
    }
}

/// The third field of the row for a key and its second field; no field where there is no such row.
fn third_for<'l>(lines: &'l [Line], key: Key, second: &str) -> &'l [u8]
    ensures { result.now ≡ third_in (spelling key) second.now (settings_of lines.now) }
{
    match given(lines, key, second) {
        None => b"",
        Some(setting) => setting.third.all(),
    }
}

/// A width of 2 or 4 bytes, 2 by default.
fn two_or_four(field: &[u8]) -> u8
    ensures value { result ≡ two_or_four_bytes field.now }
    ensures width { IsTrue (nat_eq result 2 || nat_eq result 4) }
{
    if is(field, "4") { 4 } else { 2 }
}

/// A width of 1, 2 or 4 bytes, 1 by default.
fn one_to_four(field: &[u8]) -> u8
    ensures value { result ≡ one_to_four_bytes field.now }
    ensures width { IsTrue (nat_eq result 1 || nat_eq result 2 || nat_eq result 4) }
{
    if is(field, "4") {
        4
    } else if is(field, "2") {
        2
    } else {
        1
    }
}

/// The target that rows give.
fn target_of(lines: &[Line]) -> Target
    ensures { GivesTarget (settings_of lines.now) result }
{
    Target {
        int_bytes: two_or_four(second_for(lines, Key::Int)),
        pointer_bytes: two_or_four(second_for(lines, Key::Pointer)),
        char_signed: !is(second_for(lines, Key::Char), "unsigned"),
        align_max: one_to_four(second_for(lines, Key::Align)),
        atomic_bytes: one_to_four(second_for(lines, Key::Atomic)),
    }
}

/// The handler that a row names.
fn handler_in(line: &Line) -> Option<&Name>
    ensures { option_to_list (option_copied result) ≡ handlers_in (settings_of (line.now ∷ [])) }
{
    let Line::Says(setting) = line else {
        return None;
    };
    match setting.key {
        Key::Handler => Some(&setting.second),
        Key::Int
        | Key::Pointer
        | Key::Char
        | Key::Align
        | Key::Atomic
        | Key::Intrinsic
        | Key::Count
        | Key::Weight
        | Key::Budget
        | Key::Level => None,
    }
}

/// The handlers that rows name.
#[tactic(auto, using(crate::proofs::LineLemmas::of_lists))]
fn handlers_of(alloc: Global, lines: &[Line]) -> Result<List<Name>, NoMemory>
    ensures { IfOk result (λ names. names ≡ handlers_in (settings_of lines.now)) }
{
    let mut names = Vec::new(alloc);
    for line in lines {
        let Some(name) = handler_in(line) else {
            continue;
        };
        names.push(copy_list(alloc, name)?)?;
    }
    Ok(List::of(names))
}

/// A level from 1 to 7, 1 by default.
fn level_in(field: &[u8]) -> u8
    ensures { result ≡ unwrap_or (number_in_field 1 7 field.now) 1 }
{
    match number_in(1, 7, field) {
        None => 1,
        Some(level) => level as u8,
    }
}

/// The level that a row gives, with the name of the handler.
fn levelled_in(line: &Line) -> Option<(&Name, u8)>
    ensures { option_to_list (option_map (λ p. (p.0.now, p.1)) result) ≡ levels_in (settings_of (line.now ∷ [])) }
{
    let Line::Says(setting) = line else {
        return None;
    };
    match setting.key {
        Key::Level => Some((&setting.second, level_in(setting.third.all()))),
        Key::Int
        | Key::Pointer
        | Key::Char
        | Key::Align
        | Key::Atomic
        | Key::Handler
        | Key::Intrinsic
        | Key::Count
        | Key::Weight
        | Key::Budget => None,
    }
}

/// The levels that rows give.
#[tactic(auto, using(crate::proofs::LineLemmas::of_lists))]
fn levels_of(alloc: Global, lines: &[Line]) -> Result<List<(Name, u8)>, NoMemory>
    ensures { IfOk result (λ levels. levels ≡ levels_in (settings_of lines.now)) }
{
    let mut levels = Vec::new(alloc);
    for line in lines {
        let Some((name, level)) = levelled_in(line) else {
            continue;
        };
        levels.push((copy_list(alloc, name)?, level))?;
    }
    Ok(List::of(levels))
}

/// How often a function runs, as a row tells.
fn counted_in(line: &Line) -> Option<(&Name, u64)>
    ensures { option_to_list (option_map (λ p. (p.0.now, p.1)) result) ≡ counts_in (settings_of (line.now ∷ [])) }
{
    let Line::Says(setting) = line else {
        return None;
    };
    match setting.key {
        Key::Count => {
            let count = number_in(0, 1_000_000_000, setting.third.all()).unwrap_or(0);
            Some((&setting.second, count))
        }
        Key::Int
        | Key::Pointer
        | Key::Char
        | Key::Align
        | Key::Atomic
        | Key::Handler
        | Key::Intrinsic
        | Key::Weight
        | Key::Budget
        | Key::Level => None,
    }
}

/// How often functions run, as rows tell.
#[tactic(auto, using(crate::proofs::LineLemmas::of_lists))]
fn counts_of(alloc: Global, lines: &[Line]) -> Result<List<(Name, u64)>, NoMemory>
    ensures { IfOk result (λ counts. counts ≡ counts_in (settings_of lines.now)) }
{
    let mut counts = Vec::new(alloc);
    for line in lines {
        let Some((name, count)) = counted_in(line) else {
            continue;
        };
        counts.push((copy_list(alloc, name)?, count))?;
    }
    Ok(List::of(counts))
}

/// The name of an intrinsic.
fn intrinsic_for(
    alloc: Global,
    lines: &[Line],
    intrinsic: &str,
    other: &str,
) -> Result<Name, NoMemory>
    ensures { IfOk result (λ name. name ≡ intrinsic_in intrinsic.now other.now (settings_of lines.now)) }
{
    match given(lines, Key::Intrinsic, intrinsic) {
        None => Ok(List::of(Vec::from_slice(alloc, other.as_bytes())?)),
        Some(setting) => Ok(List::of(Vec::from_slice(alloc, setting.third.all())?)),
    }
}

/// The roles that rows give, none of which breaks a rule.
fn roles_of(alloc: Global, lines: &[Line]) -> Result<Roles, NoMemory>
    requires { first_from (settings_of lines.now) [] lines.now ≡ NoneOf }
    ensures { IfOk result (λ roles. GivesRoles (settings_of lines.now) roles) }
{
    let handlers = handlers_of(alloc, lines)?;
    let off = intrinsic_for(alloc, lines, "off", "irq_off")?;
    let on = intrinsic_for(alloc, lines, "on", "irq_on")?;
    let save = intrinsic_for(alloc, lines, "save", "irq_save")?;
    let restore = intrinsic_for(alloc, lines, "restore", "irq_restore")?;
    let levels = levels_of(alloc, lines)?;
    Ok(Roles {
        handlers,
        off,
        on,
        save,
        restore,
        levels,
    })
}

/// What a unit of code or of time costs, 1 by default.
fn weight_for(lines: &[Line], measure: &str) -> u64
    ensures value { result ≡ weight_in measure.now (settings_of lines.now) }
    ensures bound { IsTrue (nat_le result 1000) }
{
    match number_in(0, 1000, third_for(lines, Key::Weight, measure)) {
        None => 1,
        Some(weight) => weight,
    }
}

/// How much code or time codings may cost, without a bound by default.
fn budget_for(lines: &[Line], measure: &str) -> Option<u64>
    ensures value { result ≡ budget_in measure.now (settings_of lines.now) }
    ensures bound { IsTrue (option_map_or (λ most. nat_le most (2 ^ 32 - 1)) result true) }
{
    number_in(0, 0xffff_ffff, third_for(lines, Key::Budget, measure))
}

/// The profile that rows give, none of which breaks a rule.
pub fn profile_of(alloc: Global, lines: &[Line]) -> Result<Profile, NoMemory>
    requires { first_from (settings_of lines.now) [] lines.now ≡ NoneOf }
    ensures { IfOk result (λ profile. GivesProfile (settings_of lines.now) profile) }
{
    let counts = counts_of(alloc, lines)?;
    let roles = roles_of(alloc, lines)?;
    Ok(Profile {
        target: target_of(lines),
        roles,
        counts,
        weight_code: weight_for(lines, "code"),
        weight_time: weight_for(lines, "time"),
        budget_code: budget_for(lines, "code"),
        budget_time: budget_for(lines, "time"),
    })
}
