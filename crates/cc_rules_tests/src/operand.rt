//! Whether an operand of a test is a register, whose set is cut by it.

ghost use Rattle.std.specs.Prelude.{◌≡◌, ◌↔◌, IsTrue, true};
ghost use Rattle.cc_rules_tests.specs.Tested.{IsOperandIn, ReadsLocal};
ghost use Rattle.cc_rules_flows.specs.CcStateOperators.Domains.{domain, AllOf};
ghost use Rattle.cc_rules_flows.specs.CcStateOperators.Types.{AreOf};
ghost use Rattle.cc_rules_flows.specs.CcSyntax.Registers.{is_register};
ghost use Rattle.cc_rules_flows.specs.CcTyped.View.{value_view};

use crate::forms::{conversion_of, local_read};
use crate::tested::Tested;
use cc_program::Expr;
use cc_program::num::{IntType, Target};
use cc_rules_flows::lattice::IntDomain;
use cc_rules_flows::places::Abs;
use cc_rules_flows::typed::ValueType;

/// Whether an expression reads a local.
fn is_read(r: u32, a: &Expr) -> bool
    ensures { IsTrue result ↔ ReadsLocal r a.now }
{
    match local_read(a) {
        None => false,
        Some(q) => q == r,
    }
}

/// Whether all members of a set are values of a type.
fn are_values<I: IntDomain>(x: &I, t: IntType, target: &Target) -> bool
    ensures { IsTrue result ↔ AllOf (domain I.Has I.IsBelow I.OpGives I.OpOneGives I.ToGives I.KeepGives I.members_of) t target.now x.now }
{
    match x.bounds() {
        None => true,
        Some((low, high)) => t.contains(low, target) && t.contains(high, target),
    }
}

/// Whether all values of a set are of a type.
pub fn are_of<I: IntDomain>(y: &Abs<I>, t: ValueType<'_>, target: &Target) -> bool
    ensures { IsTrue result ↔ AreOf (domain I.Has I.IsBelow I.OpGives I.OpOneGives I.ToGives I.KeepGives I.members_of) target.now (value_view t.entry) y.now }
{
    match t {
        ValueType::NoValue => false,
        ValueType::Integer(t) => match y {
            Abs::Ints(x) => are_values(x, t, target),
            Abs::Addrs(_) => false,
        },
        ValueType::ToObject(_, _, _) | ValueType::ToFunction(_) => matches!(y, Abs::Addrs(_)),
    }
}

/// Whether an expression is a register with this set, or a conversion of it to a type that has all members.
pub fn is_operand<I: IntDomain>(t: &Tested<'_, I>, r: u32, x: &I, a: &Expr) -> bool
    requires { is_register t.now.context.now.func.now r ≡ true }
    ensures { IsTrue result ↔ IsOperandIn (domain I.Has I.IsBelow I.OpGives I.OpOneGives I.ToGives I.KeepGives I.members_of) t.now r x.now a.now }
{
    match conversion_of(a) {
        None => is_read(r, a),
        Some(c) => is_read(r, c.operand) && are_values(x, c.to, &t.context.program.target),
    }
}
