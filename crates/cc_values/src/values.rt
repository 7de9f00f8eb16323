//! What operators give (C99 6.5). A bad value, by which a trap is put off to a later step, is none.

ghost use Rattle.std.specs.Prelude.{◌≡◌, IfOk, IsTrue, ◌+ℤ◌, pos, option_map, option_and_then, Some};
ghost use Rattle.std.specs.Option.{option_copied};
ghost use Rattle.cc_program.specs.CcNum.Integers.{IsValueOf, is_value_of};
ghost use Rattle.cc_program.specs.CcNum.Promotions.{promoted};
ghost use Rattle.cc_program.specs.CcNum.Results.{is_shift as is_shift_of, one_if as one_if_of};
ghost use Rattle.cc_syntax.specs.Operators.{is_promoted as is_promoted_of, difference_type as difference_type_of};
ghost use Rattle.cc_program.specs.declared.value.Value.TheVariants.{Int, Place};
ghost use Rattle.cc_values.specs.Values.{integer as integer_of, address_in as address_in_of, unary as unary_of, binary as binary_of, unary_result as unary_result_of, binary_result as binary_result_of, conversion as conversion_of, is_true as is_true_of, truth as truth_of, of_truth as of_truth_of, index_in as index_in_of, offset, moved_address as moved_address_of, movement as movement_of, element_at as element_at_of, same_part as same_part_of, same_path as same_path_of, same_object as same_object_of, same_address as same_address_of, same_array as same_array_of, in_one_array as in_one_array_of, difference as difference_of, gap as gap_of, compared as compared_of, comparison as comparison_of};

use cc_program::num::{
    BinOp, IntType, List, NoMemory, Target, UnOp, apply, apply_one, convert, promote,
};
use cc_program::{Address, Part, Root, Value, copy_list};
use std::alloc::Global;

/// The integer that a value is, if it is one.
pub fn integer(v: &Option<Value>) -> Option<i128>
    ensures { result ≡ integer_of v.now }
{
    match v {
        None => None,
        Some(Value::Int(n)) => Some(*n),
        Some(Value::Place(_)) => None,
    }
}

/// The address that a value is, if it is one.
pub fn address_in(v: &Option<Value>) -> Option<&Address>
    ensures { option_copied result ≡ address_in_of v.now }
{
    match v {
        None => None,
        Some(Value::Int(_)) => None,
        Some(Value::Place(a)) => Some(a),
    }
}

fn integer_value(n: Option<i128>) -> Option<Value>
    ensures { result ≡ option_map Int n }
{
    match n {
        None => None,
        Some(n) => Some(Value::Int(n)),
    }
}

/// Whether the integer promotions leave a type as it is (C99 6.3.1.1, 2).
#[tactic(auto, unfolding(cc_syntax::specs::SameTypes::same_int))]
fn is_promoted(t: IntType, target: &Target) -> bool
    ensures value { result ≡ is_promoted_of target.now t }
    ensures same { IsTrue result → promoted t target.now ≡ t }
{
    promote(t, target) == t
}

fn is_value(t: IntType, target: &Target, v: i128) -> bool
    ensures value { result ≡ is_value_of t target.now v }
    ensures lies { IsTrue result → IsValueOf t target.now v }
{
    t.contains(v, target)
}

fn is_shift(op: BinOp) -> bool
    ensures { result ≡ is_shift_of op }
{
    match op {
        BinOp::Shl | BinOp::Shr => true,
        _ => false,
    }
}

fn unary_result(op: UnOp, t: IntType, target: &Target, a: i128) -> Option<i128>
    ensures { result ≡ unary_result_of op t target.now a }
{
    if is_promoted(t, target) && is_value(t, target, a) {
        apply_one(op, a, t, target)
    } else {
        None
    }
}

fn binary_result(op: BinOp, t: IntType, target: &Target, a: i128, b: i128) -> Option<i128>
    ensures { result ≡ binary_result_of op t target.now a b }
{
    if is_promoted(t, target)
        && is_value(t, target, a)
        && (is_shift(op) || is_value(t, target, b))
    {
        apply(op, a, b, t, target)
    } else {
        None
    }
}

/// An operator of one operand in a type.
pub fn unary(op: UnOp, t: IntType, target: &Target, a: &Option<Value>) -> Option<Value>
    ensures { result ≡ unary_of op t target.now a.now }
{
    match integer(a) {
        None => None,
        Some(a) => integer_value(unary_result(op, t, target, a)),
    }
}

/// An operator of two operands in a type.
pub fn binary(
    op: BinOp,
    t: IntType,
    target: &Target,
    a: &Option<Value>,
    b: &Option<Value>,
) -> Option<Value>
    ensures { result ≡ binary_of op t target.now a.now b.now }
{
    match (integer(a), integer(b)) {
        (Some(a), Some(b)) => integer_value(binary_result(op, t, target, a, b)),
        _ => None,
    }
}

/// An integer in a type (C99 6.3.1.2, 6.3.1.3).
pub fn conversion(t: IntType, target: &Target, a: &Option<Value>) -> Option<Value>
    ensures { result ≡ conversion_of t target.now a.now }
{
    match integer(a) {
        None => None,
        Some(a) => Some(Value::Int(convert(a, t, target))),
    }
}

/// Whether a value is neither 0 nor a null pointer (C99 6.5.13 to 6.5.15, 6.8.4.1).
pub fn is_true(v: &Value) -> bool
    ensures { result ≡ is_true_of v.now }
{
    match v {
        Value::Int(n) => *n != 0,
        Value::Place(Address::Null) => false,
        Value::Place(_) => true,
    }
}

/// Whether a value is so; none of a bad one.
pub fn truth(v: &Option<Value>) -> Option<bool>
    ensures { result ≡ truth_of v.now }
{
    match v {
        None => None,
        Some(v) => Some(is_true(v)),
    }
}

fn one_if(b: bool) -> i128
    ensures { result ≡ one_if_of b }
{
    if b { 1 } else { 0 }
}

/// 1 for what is so, else 0.
pub fn of_truth(b: Option<bool>) -> Option<Value>
    ensures { result ≡ of_truth_of b }
{
    match b {
        None => None,
        Some(b) => Some(Value::Int(one_if(b))),
    }
}

/// An index into an array of so many elements, or that of one past the last.
fn index_in(index: i128, count: u32) -> Option<u32>
    ensures { result ≡ index_in_of index count }
{
    if 0 <= index && index <= i128::from(count) {
        Some(index as u32)
    } else {
        None
    }
}

/// An index that is moved by so many elements, back where it is a difference.
#[tactic(auto, using(crate::proofs::IndexLemmas::of_indices))]
fn moved_index(back: bool, by: i128, index: u32, count: u32) -> Option<u32>
    ensures { result ≡ index_in_of (pos index +ℤ offset back by) count }
{
    let moved = if back {
        i128::from(index).checked_sub(by)
    } else {
        i128::from(index).checked_add(by)
    };
    match moved {
        None => None,
        Some(moved) => index_in(moved, count),
    }
}

/// An element of an array of so many elements, or what is one past the last of them.
pub fn element_at(
    alloc: Global,
    object: Root,
    path: &List<Part>,
    index: i128,
    count: u32,
) -> Result<Option<Address>, NoMemory>
    ensures { IfOk result (λ r. r ≡ element_at_of object path.now index count) }
{
    match index_in(index, count) {
        None => Ok(None),
        Some(index) => Ok(Some(Address::At {
            object,
            path: copy_list(alloc, path)?,
            index,
            count,
        })),
    }
}

fn moved_address(
    alloc: Global,
    back: bool,
    by: i128,
    a: &Address,
) -> Result<Option<Address>, NoMemory>
    ensures { IfOk result (λ r. r ≡ moved_address_of back by a.now) }
{
    match a {
        Address::Null => Ok(None),
        Address::Func(_) => Ok(None),
        Address::At {
            object,
            path,
            index,
            count,
        } => match moved_index(back, by, *index, *count) {
            None => Ok(None),
            Some(index) => Ok(Some(Address::At {
                object: *object,
                path: copy_list(alloc, path)?,
                index,
                count: *count,
            })),
        },
    }
}

fn place_value(a: Option<Address>) -> Option<Value>
    ensures { result ≡ option_map Place a }
{
    match a {
        None => None,
        Some(a) => Some(Value::Place(a)),
    }
}

/// A pointer moved by so many elements, back where it is a difference (C99 6.5.6, 8).
pub fn movement(
    alloc: Global,
    back: bool,
    a: &Option<Value>,
    b: &Option<Value>,
) -> Result<Option<Value>, NoMemory>
    ensures { IfOk result (λ r. r ≡ movement_of back a.now b.now) }
{
    match (address_in(a), integer(b)) {
        (Some(a), Some(by)) => Ok(place_value(moved_address(alloc, back, by, a)?)),
        _ => Ok(None),
    }
}

fn same_part(a: Part, b: Part) -> bool
    ensures { result ≡ same_part_of a b }
{
    match a {
        Part::Member(m) => match b {
            Part::Member(n) => m == n,
            Part::Index(_) => false,
        },
        Part::Index(i) => match b {
            Part::Index(j) => i == j,
            Part::Member(_) => false,
        },
    }
}

#[tactic(auto, using(crate::proofs::PathLemmas::of_paths))]
fn same_path(path: &[Part], others: &[Part]) -> bool
    ensures { result ≡ same_path_of path.now others.now }
{
    if path.len() != others.len() {
        return false;
    }
    for (i, part) in path.iter().enumerate() {
        if !same_part(*part, others[i]) {
            return false;
        }
    }
    true
}

fn same_object(a: Root, b: Root) -> bool
    ensures { result ≡ same_object_of a b }
{
    match a {
        Root::Static(i) => match b {
            Root::Static(j) => i == j,
            Root::Auto { .. } => false,
        },
        Root::Auto {
            activation: n,
            func: f,
            local: i,
        } => match b {
            Root::Auto {
                activation,
                func,
                local,
            } => n == activation && f == func && i == local,
            Root::Static(_) => false,
        },
    }
}

/// Whether two pointers compare equal (C99 6.5.9, 6).
fn same_address(a: &Address, b: &Address) -> bool
    ensures { result ≡ same_address_of a.now b.now }
{
    match a {
        Address::Null => matches!(b, Address::Null),
        Address::Func(f) => match b {
            Address::Func(g) => *f == *g,
            _ => false,
        },
        Address::At {
            object: o,
            path: p,
            index: i,
            count: _,
        } => match b {
            Address::At {
                object,
                path,
                index,
                count: _,
            } => same_object(*o, *object) && same_path(p.all(), path.all()) && *i == *index,
            _ => false,
        },
    }
}

/// The positions to which two pointers into one array point (C99 6.5.6, 9; 6.5.8, 5).
fn in_one_array(a: &Address, b: &Address) -> Option<(u32, u32)>
    ensures { result ≡ in_one_array_of a.now b.now }
{
    match a {
        Address::At {
            object: o,
            path: p,
            index: i,
            count: n,
        } => match b {
            Address::At {
                object,
                path,
                index,
                count,
            } => {
                if same_object(*o, *object) && same_path(p.all(), path.all()) && *n == *count {
                    Some((*i, *index))
                } else {
                    None
                }
            }
            _ => None,
        },
        _ => None,
    }
}

/// ptrdiff_t: `int` where it is as wide as a pointer, else `long`.
fn difference_type(target: &Target) -> IntType
    ensures { result ≡ difference_type_of target.now }
{
    if target.pointer_bytes <= target.int_bytes {
        IntType::Int
    } else {
        IntType::Long
    }
}

fn difference(target: &Target, i: u32, j: u32) -> Option<Value>
    ensures { result ≡ difference_of target.now i j }
{
    let d = i128::from(i) - i128::from(j);
    if difference_type(target).contains(d, target) {
        Some(Value::Int(d))
    } else {
        None
    }
}

fn address_gap(target: &Target, a: &Address, b: &Address) -> Option<Value>
    ensures { result ≡ option_and_then (λ o. difference_of target.now o.0 o.1) (in_one_array_of a.now b.now) }
{
    match in_one_array(a, b) {
        None => None,
        Some((i, j)) => difference(target, i, j),
    }
}

/// The difference of two pointers (C99 6.5.6, 9).
pub fn gap(target: &Target, a: &Option<Value>, b: &Option<Value>) -> Option<Value>
    ensures { result ≡ gap_of target.now a.now b.now }
{
    match (address_in(a), address_in(b)) {
        (Some(a), Some(b)) => address_gap(target, a, b),
        _ => None,
    }
}

fn test_value(b: bool) -> Option<Value>
    ensures { result ≡ Some (Int (one_if_of b)) }
{
    Some(Value::Int(one_if(b)))
}

fn compared(op: BinOp, a: &Address, b: &Address) -> Option<Value>
    ensures { result ≡ compared_of op a.now b.now }
{
    match op {
        BinOp::Eq => test_value(same_address(a, b)),
        BinOp::Ne => test_value(!same_address(a, b)),
        BinOp::Lt => match in_one_array(a, b) {
            None => None,
            Some((i, j)) => test_value(i < j),
        },
        BinOp::Le => match in_one_array(a, b) {
            None => None,
            Some((i, j)) => test_value(i <= j),
        },
        BinOp::Gt => match in_one_array(a, b) {
            None => None,
            Some((i, j)) => test_value(j < i),
        },
        BinOp::Ge => match in_one_array(a, b) {
            None => None,
            Some((i, j)) => test_value(j <= i),
        },
        _ => None,
    }
}

/// The comparison of two pointers (C99 6.5.8, 6.5.9).
pub fn comparison(op: BinOp, a: &Option<Value>, b: &Option<Value>) -> Option<Value>
    ensures { result ≡ comparison_of op a.now b.now }
{
    match (address_in(a), address_in(b)) {
        (Some(a), Some(b)) => compared(op, a, b),
        _ => None,
    }
}
