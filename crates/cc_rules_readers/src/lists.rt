//! Constraints by their numbers, put behind others in a list.

ghost use Rattle.std.specs.List.{filter, All};
ghost use Rattle.std.specs.Prelude.{◌≡◌, ◌≤◌, ◌<◌, ◌++◌, map, length, take, drop, slice_get, OnOk};
ghost use Rattle.cc_rules_asked.specs.CcRules.Constraints.{Flow};
ghost use Rattle.cc_rules_again.specs.Again.{place_of as place_of_rule, number_at as number_at_of};
ghost use Rattle.cc_rules_numbered.specs.Numbered.{rule_view};
ghost use Rattle.cc_rules_readers.specs.Points.{on, reads_in, own_numbers, count_below, merged};

use crate::deeds::Deed;
use crate::naming::Named;
use crate::picked::{Test, passes_at};
use cc_program::num::NoMemory;
use cc_rules_numbered::Rule;

/// The position of a rule among those of a point.
fn place_of(rule: Rule) -> u32
    ensures is { result ≡ place_of_rule (rule_view rule) }
    ensures low { result ≤ 8 }
{
    match rule {
        Rule::Initial => 0,
        Rule::Start => 0,
        Rule::Flow => 1,
        Rule::Write => 2,
        Rule::Touch => 3,
        Rule::Call => 4,
        Rule::Back => 5,
        Rule::Return => 6,
        Rule::Handler => 7,
        Rule::Stability => 8,
    }
}

/// The number of the constraint of a rule at a point.
fn number_at(rule: Rule, point: u32) -> u32
    requires { point ≤ 65536 }
    ensures { result ≡ number_at_of (rule_view rule) point }
{
    1 + (point * 9 + place_of(rule))
}

/// Puts all constraints of a point, but for that of the start.
pub(crate) fn put_own(list: &mut Vec<u32>, point: u32) -> Result<(), NoMemory>
    requires { point ≤ 65536 }
    ensures { OnOk result (list.new.items ≡ list.old.items ++ own_numbers point) }
{
    let numbers = [
        number_at(Rule::Flow, point),
        number_at(Rule::Write, point),
        number_at(Rule::Touch, point),
        number_at(Rule::Call, point),
        number_at(Rule::Back, point),
        number_at(Rule::Return, point),
        number_at(Rule::Handler, point),
        number_at(Rule::Stability, point),
    ];
    list.extend_from_slice(&numbers)?;
    Ok(())
}

/// Puts the constraint of a rule at each of some points.
pub(crate) fn put_rule(list: &mut Vec<u32>, rule: Rule, points: &[u32]) -> Result<(), NoMemory>
    requires { All (λ n. n ≤ 65536) points.now }
    ensures { OnOk result (list.new.items ≡ list.old.items ++ map (number_at_of (rule_view rule)) points.now) }
{
    for point in points {
        list.push(number_at(rule, *point))?;
    }
    Ok(())
}

/// How many of some points stand before one.
fn count_before(points: &[u32], point: u32) -> usize
    ensures is { result ≡ count_below point points.now }
    ensures within { result ≤ length points.now }
{
    for (i, other) in points.iter().enumerate() {
        if *other >= point {
            return i;
        }
    }
    points.len()
}

/// So many of some points.
fn front(points: &[u32], count: usize) -> &[u32]
    requires { count ≤ length points.now }
    ensures { result.now ≡ take count points.now }
{
    &points[..count]
}

/// Those behind them.
fn behind(points: &[u32], count: usize) -> &[u32]
    requires { count ≤ length points.now }
    ensures { result.now ≡ drop count points.now }
{
    &points[count..]
}

/// Puts the constraint of a rule at each point of two lists that ascend, in the order of the points.
pub(crate) fn put_merged(
    list: &mut Vec<u32>,
    rule: Rule,
    these: &[u32],
    those: &[u32],
) -> Result<(), NoMemory>
    requires these { All (λ n. n ≤ 65536) these.now }
    requires those { All (λ n. n ≤ 65536) those.now }
    ensures { OnOk result (list.new.items ≡ list.old.items ++ map (number_at_of (rule_view rule)) (merged these.now those.now)) }
{
    let mut left = those;
    for point in these {
        let before = count_before(left, *point);
        put_rule(list, rule, front(left, before))?;
        list.push(number_at(rule, *point))?;
        left = behind(left, before);
    }
    put_rule(list, rule, left)
}

/// Puts the constraint of what flows on at those of some points whose statements read one of some keys without a pointer.
pub(crate) fn put_reads(
    list: &mut Vec<u32>,
    deeds: &[Deed],
    points: &[u32],
    keys: Named,
) -> Result<(), NoMemory>
    requires { All (λ n. n ≤ 65536) points.now }
    ensures { OnOk result (list.new.items ≡ list.old.items ++ map (number_at_of Flow) (filter (λ n. on (reads_in keys) (slice_get deeds.now n)) points.now)) }
{
    for point in points {
        if passes_at(Test::Reads(keys), deeds, *point) {
            list.push(number_at(Rule::Flow, *point))?;
        }
    }
    Ok(())
}
