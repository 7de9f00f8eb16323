//! Whether a set has a value with which a test passes.

ghost use Rattle.std.specs.Prelude.{◌≡◌, ◌↔◌, ℤ, IsTrue};
ghost use Rattle.std.specs.List.{Contains};
ghost use Rattle.cc_rules_flows.specs.CcLattice.Domains.{IsInReach, IsIntValue};
ghost use Rattle.cc_rules_flows.specs.CcPlaces.declared.abs.Abs.TheVariants as abs;
ghost use Rattle.cc_rules_flows.specs.Tests.{Differs, Equals};
ghost use Rattle.cc_rules_tests.specs.Passing.{MayPassIn, IsNext, IsBehind, HasOther, HasOtherBetween};
ghost use Rattle.cc_rules_tests.specs.Tested.{labels_of, test_of};
ghost use Rattle.cc_rules_flows.specs.CcStateOperators.Domains.{domain};

use crate::tested::Test;
use cc_rules_flows::lattice::IntDomain;
use cc_rules_flows::places::Abs;
use cc_rules_flows::state_operators::may_be;

/// The number behind those of a list that follow one another from a number on, each where it comes in the list.
fn behind(first: i128, numbers: &[i128]) -> i128
    requires start { IsNext first }
    requires numbers { (n : ℤ) → Contains numbers.now n → IsIntValue n }
    ensures next { IsNext result }
    ensures behind { IsBehind first numbers.now result }
{
    let mut next = first;
    for n in numbers {
        if *n == next {
            next += 1;
        }
    }
    next
}

/// Whether a number from `low` to `high` is not among some others.
fn has_other_between(low: i128, high: i128, others: &[i128]) -> bool
    requires start { IsNext low }
    requires end { IsInReach high }
    requires numbers { (n : ℤ) → Contains others.now n → IsIntValue n }
    ensures { IsTrue result ↔ HasOtherBetween low high others.now }
{
    let mut next = low;
    while next <= high {
        let end = behind(next, others);
        if end == next {
            return true;
        }
        next = end;
    }
    false
}

/// Whether one of some numbers is not among others.
fn has_other(numbers: &[i128], others: &[i128]) -> bool
    ensures { IsTrue result ↔ HasOther (Contains numbers.now) others.now }
{
    for n in numbers {
        if !others.contains(n) {
            return true;
        }
    }
    false
}

/// Whether a set of numbers has one that is not among others.
fn has_other_number<I: IntDomain>(x: &I, others: &[i128]) -> bool
    requires { (n : ℤ) → Contains others.now n → IsIntValue n }
    ensures { IsTrue result ↔ HasOther (I.Has x.now) others.now }
{
    match x.members() {
        Some(members) => has_other(members, others),
        None => match x.bounds() {
            None => false,
            Some((low, high)) => has_other_between(low, high, others),
        },
    }
}

/// Whether a set has a value that equals a label.
fn has_label<I: IntDomain>(y: &Abs<I>, n: i128) -> bool
    ensures { IsTrue result ↔ MayPassIn (domain I.Has I.IsBelow I.OpGives I.OpOneGives I.ToGives I.KeepGives I.members_of) (Equals n) y.now }
{
    match y {
        Abs::Ints(x) => x.has(n),
        Abs::Addrs(_) => false,
    }
}

/// Whether a set has a value that equals none of some labels.
fn has_other_value<I: IntDomain>(y: &Abs<I>, labels: &[i128]) -> bool
    requires { (n : ℤ) → Contains labels.now n → IsIntValue n }
    ensures { IsTrue result ↔ MayPassIn (domain I.Has I.IsBelow I.OpGives I.OpOneGives I.ToGives I.KeepGives I.members_of) (Differs labels.now) y.now }
{
    match y {
        Abs::Ints(x) => has_other_number(x, labels),
        Abs::Addrs(s) => !s.members.all().is_empty(),
    }
}

/// Whether a set has a value with which a test passes.
pub fn passes<I: IntDomain>(test: Test<'_>, y: &Abs<I>) -> bool
    requires { (n : ℤ) → Contains (labels_of (test_of test)) n → IsIntValue n }
    ensures { IsTrue result ↔ MayPassIn (domain I.Has I.IsBelow I.OpGives I.OpOneGives I.ToGives I.KeepGives I.members_of) (test_of test.entry) y.now }
{
    match test {
        Test::Is(b) => may_be(b, y),
        Test::Equals(n) => has_label(y, n),
        Test::Differs(labels) => has_other_value(y, labels),
    }
}
