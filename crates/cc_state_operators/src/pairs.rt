//! What two pointers give, of the members of two sets (C99 6.5.6, 9; 6.5.8, 6.5.9).

ghost use Rattle.std.specs.Prelude.{◌≡◌, ◌&&◌, ℤ, IfOk};
ghost use Rattle.std.specs.List.{list_all};
ghost use Rattle.cc_program.specs.CcNum.declared.int_type.IntType.{IntType};
ghost use Rattle.cc_program.specs.CcNum.declared.int_type.IntType.TheVariants as int;
ghost use Rattle.cc_program.specs.CcNum.declared.target.Target.{Target};
ghost use Rattle.cc_program.specs.CcNum.Integers.{IsValueOf};
ghost use Rattle.cc_program.specs.declared.value.Value.TheVariants.{Int};
ghost use Rattle.cc_lattice.specs.Domains.{IsIntValue};
ghost use Rattle.cc_eval.specs.CcSyntax.Operators.{difference_type as difference_type_of};
ghost use Rattle.cc_state_operators.specs.Domains.{domain, IsHull, IsHullFrom, AllOf};
ghost use Rattle.cc_state_operators.specs.Operands.{related as related_of, related_type, GiveEach, GiveAll};
ghost use Rattle.cc_state_operators.specs.Results.{is_static as is_static_of, is_told as is_told_of, IsGap, IsComparison};

use crate::operators::Relation;
use crate::truths::truths;
use cc_eval::values::{comparison, gap};
use cc_lattice::IntDomain;
use cc_places::Addrs;
use cc_program::num::{BinOp, IntType, NoMemory, Target};
use cc_program::{Address, Root, Value};
use std::alloc::Global;

fn is_static(a: &Address) -> bool
    ensures { result ≡ is_static_of a.now }
{
    !matches!(
        a,
        Address::At {
            object: Root::Auto { .. },
            ..
        }
    )
}

fn are_static(members: &[Address]) -> bool
    ensures { result ≡ list_all is_static_of members.now }
{
    members.iter().all(|member| is_static(member))
}

/// Whether a set tells each of its addresses.
fn is_told(s: &Addrs) -> bool
    ensures { result ≡ is_told_of s.now }
{
    s.is_exact && are_static(s.members.all())
}

/// Whether both sets tell each of their addresses.
fn are_told(s: &Addrs, t: &Addrs) -> bool
    ensures { result ≡ is_told_of s.now && is_told_of t.now }
{
    is_told(s) && is_told(t)
}

/// What two pointers give.
fn related(
    relation: Relation,
    target: &Target,
    p: &Option<Value>,
    q: &Option<Value>,
) -> Option<Value>
    ensures { result ≡ related_of relation target.now p.now q.now }
{
    match relation {
        Relation::Difference => gap(target, p, q),
        Relation::Comparison(op) => comparison(op, p, q),
    }
}

/// A set with a number more, where there is one.
fn with_number<I: IntDomain>(alloc: Global, set: I, v: &Option<Value>) -> Result<I, NoMemory>
    requires { (n : ℤ) → v.now ≡ Some (Int n) → IsIntValue n }
    ensures hull { IfOk result (λ r. IsHullFrom (domain I.Has I.IsBelow I.OpGives I.OpOneGives I.ToGives I.KeepGives I.members_of) set (λ n. v.now ≡ Some (Int n)) r) }
    ensures typed { IfOk result (λ r. (t : IntType) (c : Target) → AllOf (domain I.Has I.IsBelow I.OpGives I.OpOneGives I.ToGives I.KeepGives I.members_of) t c set → ((n : ℤ) → v.now ≡ Some (Int n) → IsValueOf t c n) → AllOf (domain I.Has I.IsBelow I.OpGives I.OpOneGives I.ToGives I.KeepGives I.members_of) t c r) }
{
    match v {
        None => Ok(set),
        Some(value) => match value {
            Value::Place(_) => Ok(set),
            Value::Int(n) => set.join(alloc, &I::one(alloc, *n)),
        },
    }
}

/// A set with what a pointer gives with each of some others.
fn with_each<I: IntDomain>(
    alloc: Global,
    relation: Relation,
    target: &Target,
    set: I,
    p: &Option<Value>,
    others: &[Address],
) -> Result<I, NoMemory>
    ensures hull { IfOk result (λ r. IsHullFrom (domain I.Has I.IsBelow I.OpGives I.OpOneGives I.ToGives I.KeepGives I.members_of) set (GiveEach relation target.now p.now others.now) r) }
    ensures typed { IfOk result (λ r. AllOf (domain I.Has I.IsBelow I.OpGives I.OpOneGives I.ToGives I.KeepGives I.members_of) (related_type relation target.now) target.now set → AllOf (domain I.Has I.IsBelow I.OpGives I.OpOneGives I.ToGives I.KeepGives I.members_of) (related_type relation target.now) target.now r) }
{
    let mut all = set;
    for other in others {
        let q = Some(Value::Place(other.copy(alloc)?));
        all = with_number(alloc, all, &related(relation, target, p, &q))?;
    }
    Ok(all)
}

/// What each of some pointers gives with each of some others.
fn image<I: IntDomain>(
    alloc: Global,
    relation: Relation,
    target: &Target,
    members: &[Address],
    others: &[Address],
) -> Result<I, NoMemory>
    ensures hull { IfOk result (λ r. IsHull (domain I.Has I.IsBelow I.OpGives I.OpOneGives I.ToGives I.KeepGives I.members_of) (GiveAll relation target.now members.now others.now) r) }
    ensures typed { IfOk result (λ r. AllOf (domain I.Has I.IsBelow I.OpGives I.OpOneGives I.ToGives I.KeepGives I.members_of) (related_type relation target.now) target.now r) }
{
    let mut all = I::none(alloc);
    for member in members {
        let p = Some(Value::Place(member.copy(alloc)?));
        all = with_each(alloc, relation, target, all, &p, others)?;
    }
    Ok(all)
}

fn difference_type(target: &Target) -> IntType
    ensures { result ≡ difference_type_of target.now }
{
    if target.pointer_bytes <= target.int_bytes {
        IntType::Int
    } else {
        IntType::Long
    }
}

/// The differences of the pointers of two sets.
pub(crate) fn differences<I: IntDomain>(
    alloc: Global,
    target: &Target,
    s: &Addrs,
    t: &Addrs,
) -> Result<I, NoMemory>
    ensures gap { IfOk result (λ x. IsGap (domain I.Has I.IsBelow I.OpGives I.OpOneGives I.ToGives I.KeepGives I.members_of) target.now s.now t.now (is_told_of s.now && is_told_of t.now) x) }
    ensures typed { IfOk result (λ x. AllOf (domain I.Has I.IsBelow I.OpGives I.OpOneGives I.ToGives I.KeepGives I.members_of) (difference_type_of target.now) target.now x) }
{
    if are_told(s, t) {
        image(
            alloc,
            Relation::Difference,
            target,
            s.members.all(),
            t.members.all(),
        )
    } else {
        Ok(I::whole(alloc, difference_type(target), target))
    }
}

/// What a comparison of the pointers of two sets gives.
pub(crate) fn comparisons<I: IntDomain>(
    alloc: Global,
    op: BinOp,
    target: &Target,
    s: &Addrs,
    t: &Addrs,
) -> Result<I, NoMemory>
    ensures comparison { IfOk result (λ x. IsComparison (domain I.Has I.IsBelow I.OpGives I.OpOneGives I.ToGives I.KeepGives I.members_of) op s.now t.now (is_told_of s.now && is_told_of t.now) x) }
    ensures typed { IfOk result (λ x. AllOf (domain I.Has I.IsBelow I.OpGives I.OpOneGives I.ToGives I.KeepGives I.members_of) int.Int target.now x) }
{
    if are_told(s, t) {
        image(
            alloc,
            Relation::Comparison(op),
            target,
            s.members.all(),
            t.members.all(),
        )
    } else {
        truths(alloc, true, true)
    }
}
