//! The tests of a statement, each with the point to which control goes where it passes.

ghost use Rattle.std.specs.Prelude.{◌≡◌, ◌<◌, ◌+◌, ◌^◌, ◌++◌, ◌∷◌, [], ℤ, Option, length, map, is_none, if◌then◌else◌, IfOk, OnOk};
ghost use Rattle.std.specs.List.{list_any};
ghost use Rattle.cc_flow.specs.View.{total_of_cases};
ghost use Rattle.cc_rules_choices.specs.Choices.{choices_of};
ghost use Rattle.cc_rules_flows.specs.Nexts.{all_constants as all_constants_of, case_tests, choices as tests_of_switch, constants, has_default as has_default_of, label_test as label_test_of};
ghost use Rattle.cc_rules_flows.specs.Tests.{Differs};
ghost use Rattle.cc_rules_tests.specs.Tested.{test_of};

use crate::counts::size_of_cases;
use crate::starts::{behind_in, starts};
use cc_program::Case;
use cc_program::num::NoMemory;
use cc_rules_tests::Test;
use std::alloc::Global;

/// A test, and the point to which control goes where it passes.
#[derive(Clone, Copy)]
pub struct Choice<'a> {
    pub test: Test<'a>,
    pub point: u32,
}

/// Puts the constant of a label behind others, if it has one.
fn put_constant(all: &mut Vec<i128>, label: &Option<i128>) -> Result<(), NoMemory>
    ensures { OnOk result (all.new.items ≡ all.old.items ++ constants (label.now ∷ [])) }
{
    match label {
        None => Ok(()),
        Some(n) => {
            all.push(*n)?;
            Ok(())
        }
    }
}

/// Puts the constants of labels behind others.
fn put_constants(all: &mut Vec<i128>, labels: &[Option<i128>]) -> Result<(), NoMemory>
    ensures { OnOk result (all.new.items ≡ all.old.items ++ constants labels.now) }
{
    for label in labels {
        put_constant(all, label)?;
    }
    Ok(())
}

/// The constants of all labels of a `switch`.
pub(crate) fn all_constants(alloc: Global, cases: &[Case]) -> Result<Vec<i128>, NoMemory>
    ensures { IfOk result (λ all. all.items ≡ all_constants_of cases.now) }
{
    let mut all = Vec::new(alloc);
    for case in cases {
        put_constants(&mut all, case.labels.all())?;
    }
    Ok(all)
}

/// The test with which control goes to a label: that the value equals its constant, or, for `default`, none of all.
fn label_test<'a>(constants: &'a [i128], label: &Option<i128>) -> Test<'a>
    ensures { test_of result ≡ label_test_of constants.now label.now }
{
    match label {
        None => Test::Differs(constants),
        Some(n) => Test::Equals(*n),
    }
}

/// Puts the tests of labels behind others, all of one case, that starts at this point.
fn put_labels<'a>(
    all: &mut Vec<Choice<'a>>,
    constants: &'a [i128],
    labels: &[Option<i128>],
    point: u32,
) -> Result<(), NoMemory>
    ensures { OnOk result (choices_of all.new.items ≡ choices_of all.old.items ++ map (λ (label : Option ℤ). (label_test_of constants.now label, point)) labels.now) }
{
    for label in labels {
        let test = label_test(constants, label);
        all.push(Choice { test, point })?;
    }
    Ok(())
}

/// The tests of the labels of cases that start at these points.
fn label_choices<'a>(
    alloc: Global,
    constants: &'a [i128],
    cases: &[Case],
    starts: &[u32],
) -> Result<Vec<Choice<'a>>, NoMemory>
    requires { length starts.now ≡ length cases.now }
    ensures { IfOk result (λ all. choices_of all.items ≡ case_tests constants.now cases.now starts.now) }
{
    let mut all = Vec::new(alloc);
    for (at, case) in cases.iter().enumerate() {
        put_labels(&mut all, constants, case.labels.all(), starts[at])?;
    }
    Ok(all)
}

/// Whether `default` is among the labels of a case.
fn is_default(case: &Case) -> bool
    ensures { result ≡ list_any is_none case.now.labels }
{
    case.labels.all().iter().any(|label| label.is_none())
}

/// Whether `default` is among the labels of cases.
fn has_default(cases: &[Case]) -> bool
    ensures { result ≡ has_default_of cases.now }
{
    for case in cases {
        if is_default(case) {
            return true;
        }
    }
    false
}

/// Puts the test of no label behind others, for the point behind a `switch` that has no `default`.
fn put_behind<'a>(
    all: &mut Vec<Choice<'a>>,
    constants: &'a [i128],
    cases: &[Case],
    behind: u32,
) -> Result<(), NoMemory>
    ensures { OnOk result (choices_of all.new.items ≡ choices_of all.old.items ++ (if has_default_of cases.now then [] else (Differs constants.now, behind) ∷ [])) }
{
    if has_default(cases) {
        return Ok(());
    }
    let test = Test::Differs(constants);
    all.push(Choice {
        test,
        point: behind,
    })?;
    Ok(())
}

/// The tests of a `switch`. Without `default` control goes on behind it where no label fits.
pub(crate) fn choices<'a>(
    alloc: Global,
    constants: &'a [i128],
    number: u32,
    cases: &[Case],
    next: &[u32],
) -> Result<Vec<Choice<'a>>, NoMemory>
    requires few { number + (1 + total_of_cases cases.now) < 2 ^ 32 }
    requires constants { constants.now ≡ all_constants_of cases.now }
    ensures { IfOk result (λ all. choices_of all.items ≡ tests_of_switch number cases.now next.now) }
{
    let size = 1 + size_of_cases(cases);
    let behind = behind_in(number, size, next);
    let starts = starts(alloc, number + 1, behind, cases)?;
    let mut all = label_choices(alloc, constants, cases, &starts)?;
    put_behind(&mut all, constants, cases, behind)?;
    Ok(all)
}
