//! Whether types are the same one.

ghost use Rattle.std.specs.Prelude.{◌≡◌, ◌&&◌, map};
ghost use Rattle.cc_program.specs.declared.types.Sig.{out-Sig};
ghost use Rattle.cc_syntax.specs.Pairs.{all_pairs};
ghost use Rattle.cc_syntax.specs.SameTypes.{same_flag as same_flag_of, same_int as same_int_of, same_type as same_type_of, same_shape as same_shape_of, same_sig as same_sig_of, comparison_of, alike as alike_of};

use cc_program::num::IntType;
use cc_syntax::{CType, Shape, Sig};

/// Whether two integer types are the same one.
#[tactic(auto, unfolding(cc_syntax::specs::SameTypes::same_int))]
pub fn same_int(s: IntType, t: IntType) -> bool
    ensures { result ≡ same_int_of s t }
{
    s == t
}

/// Whether both flags are set, or neither is.
pub fn same_flag(a: bool, b: bool) -> bool
    ensures { result ≡ same_flag_of a b }
{
    if a { b } else { !b }
}

/// Whether two types are the same one, with their qualifiers.
#[cycle(same)]
#[tactic(auto, unfolding(cc_syntax::specs::SameTypes::comparison_of, cc_syntax::specs::SameTypes::shape_comparison))]
fn same_type(t: &CType, u: &CType) -> bool
    ensures { result ≡ same_type_of t.now u.now }
{
    same_flag(t.constant, u.constant)
        && same_flag(t.volatile, u.volatile)
        && same_shape(&t.shape, &u.shape)
}

/// Whether two types without their qualifiers are the same one.
#[cycle(same)]
#[tactic(auto, unfolding(cc_syntax::specs::SameTypes::comparison_of, cc_syntax::specs::SameTypes::shape_comparison, cc_syntax::specs::SameTypes::same_sig))]
pub fn same_shape(s: &Shape, t: &Shape) -> bool
    ensures { result ≡ same_shape_of s.now t.now }
{
    match s {
        Shape::Void => matches!(t, Shape::Void),
        Shape::Int(i) => match t {
            Shape::Int(j) => same_int(*i, *j),
            _ => false,
        },
        Shape::Pointer(to) => match t {
            Shape::Pointer(other) => same_type(to.get(), other.get()),
            _ => false,
        },
        Shape::Array(of, n) => match t {
            Shape::Array(other, m) => *n == *m && same_type(of.get(), other.get()),
            _ => false,
        },
        Shape::Struct(i) => match t {
            Shape::Struct(j) => *i == *j,
            _ => false,
        },
        Shape::Func(sig) => match t {
            Shape::Func(other) => same_sig(sig.get(), other.get()),
            _ => false,
        },
    }
}

/// Whether two types of functions are the same one.
#[cycle(same)]
#[tactic(auto, unfolding(cc_syntax::specs::SameTypes::same_sig, cc_syntax::specs::SameTypes::comparison_of))]
pub fn same_sig(s: &Sig, t: &Sig) -> bool
    ensures { result ≡ same_sig_of s.now t.now }
{
    same_type(&s.result, &t.result) && same_params(s, t)
}

#[cycle(same)]
#[tactic(auto, using(crate::proofs::PairLemmas::of_mapped_pairs))]
fn same_params(s: &Sig, t: &Sig) -> bool
    ensures { result ≡ all_pairs (λ c u. c.same u) (map comparison_of (out-Sig s.now).params) (out-Sig t.now).params }
{
    let others = t.params.all();
    if s.params.all().len() != others.len() {
        return false;
    }
    for (i, param) in s.params.all().iter().enumerate() {
        if !same_type(param, &others[i]) {
            return false;
        }
    }
    true
}

/// Whether two types are the same one, their outermost qualifiers aside.
#[tactic(auto, unfolding(cc_syntax::specs::SameTypes::comparison_of, cc_syntax::specs::SameTypes::shape_comparison))]
pub fn alike(t: &CType, u: &CType) -> bool
    ensures { result ≡ alike_of t.now u.now }
{
    match &t.shape {
        Shape::Array(of, n) => match &u.shape {
            Shape::Array(other, m) => *n == *m && alike(of.get(), other.get()),
            _ => false,
        },
        _ => same_shape(&t.shape, &u.shape),
    }
}
