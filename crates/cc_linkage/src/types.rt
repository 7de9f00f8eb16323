//! Which types a declaration of a name may have beside another.

ghost use Rattle.std.specs.Prelude.{◌≡◌};
ghost use Rattle.cc_program.specs.declared.types.Shape.{out-Shape};
ghost use Rattle.cc_syntax.specs.SameTypes.{same_type as same_type_of};
ghost use Rattle.cc_syntax.specs.Sound.{is_plain_int as is_plain_int_of, is_plain_void as is_plain_void_of};
ghost use Rattle.cc_linkage.specs.Linkage.{same_element as same_element_of, may_be as may_be_of, is_main_result as is_main_result_of, is_main_shape as is_main_shape_of};

use cc_program::num::IntType;
use cc_scopes::typed::{is_unqualified, is_void, same_flag, same_int, same_shape};
use cc_syntax::{CType, Shape};

/// Whether two types are the same one, with their qualifiers.
#[tactic(auto, unfolding(cc_syntax::specs::SameTypes::comparison_of, cc_syntax::specs::SameTypes::shape_comparison))]
fn same_type(t: &CType, u: &CType) -> bool
    ensures { result ≡ same_type_of t.now u.now }
{
    same_flag(t.constant, u.constant)
        && same_flag(t.volatile, u.volatile)
        && same_shape(&t.shape, &u.shape)
}

/// Whether a type is an array of elements of the other one.
fn same_element(of: &CType, u: &CType) -> bool
    ensures { result ≡ same_element_of of.now (out-Shape u.now.shape) }
{
    match &u.shape {
        Shape::Array(t, _) => same_type(of, t.get()),
        _ => false,
    }
}

/// Whether a declaration of the first type may stand beside one of the second: they are the same, or the first is an
/// array whose bound its initialiser will give.
pub fn may_be(t: &CType, u: &CType) -> bool
    ensures { result ≡ may_be_of t.now u.now }
{
    match &t.shape {
        Shape::Array(of, n) => {
            if *n == 0 {
                same_element(of.get(), u)
            } else {
                same_type(t, u)
            }
        }
        _ => same_type(t, u),
    }
}

fn is_plain_void(t: &CType) -> bool
    ensures { result ≡ is_plain_void_of t.now }
{
    is_unqualified(t) && is_void(t)
}

fn is_plain_int(t: &CType) -> bool
    ensures { result ≡ is_plain_int_of t.now }
{
    is_unqualified(t)
        && match &t.shape {
            Shape::Int(t) => same_int(IntType::Int, *t),
            _ => false,
        }
}

fn is_main_result(t: &CType) -> bool
    ensures { result ≡ is_main_result_of t.now }
{
    is_plain_int(t) || is_plain_void(t)
}

/// Whether a type is that of `int main(void)` or `void main(void)` (C99 5.1.2.2.1).
pub fn is_main_shape(t: &CType) -> bool
    ensures { result ≡ is_main_shape_of (out-Shape t.now.shape) }
{
    match &t.shape {
        Shape::Func(sig) => {
            let sig = sig.get();
            sig.params.all().is_empty() && is_main_result(&sig.result)
        }
        _ => false,
    }
}
