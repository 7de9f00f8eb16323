//! Which types objects, members and elements may have, and how many bytes these take.

ghost use Rattle.std.specs.Prelude.{◌≡◌, ◌≤◌, IfSome};
ghost use Rattle.std.specs.Option.{option_copied};
ghost use Rattle.cc_specifiers.specs.Objects.{small as small_of, array_size as array_size_of, object_size as object_size_of, is_object as is_object_of};
ghost use Rattle.cc_syntax.specs.Types.{has_members as has_members_of};

use cc_program::num::{Target, at};
use cc_syntax::{CType, Layout, Shape, Structure};

/// As many bytes as an object may have at most.
fn small(n: u64) -> Option<u64>
    ensures value { result ≡ small_of n }
    ensures most { IfSome result (λ n. n ≤ 4294967295) }
{
    if n <= 4294967295 { Some(n) } else { None }
}

/// The bytes of an array of so many elements.
fn array_size(n: u32, size: Option<u64>) -> Option<u64>
    requires { IfSome size (λ s. s ≤ 4294967295) }
    ensures value { result ≡ array_size_of n size }
    ensures most { IfSome result (λ n. n ≤ 4294967295) }
{
    match size {
        None => None,
        Some(size) => {
            if 0 < n {
                small(u64::from(n) * size)
            } else {
                None
            }
        }
    }
}

/// Whether a structure has a content.
fn has_members(structure: Option<&Structure>) -> bool
    ensures { result ≡ has_members_of (option_copied structure.entry) }
{
    match structure {
        None => false,
        Some(s) => 0 < s.members.all().len(),
    }
}

/// The bytes of an object, a member or an element of the type, over structures whose layouts are known: none where
/// the type is no complete object type or has more than 4,294,967,295.
#[tactic(auto, using(crate::proofs::Sizes::of_sizes), unfolding(cc_syntax::specs::Types::is_complete, cc_syntax::specs::Layout::type_layout))]
pub fn object_size(
    t: &CType,
    structures: &[Structure],
    layouts: &[Layout],
    target: &Target,
) -> Option<u64>
    ensures value { result ≡ object_size_of target.now structures.now layouts.now t.now }
    ensures most { IfSome result (λ n. n ≤ 4294967295) }
{
    match &t.shape {
        Shape::Int(i) => small(u64::from(i.bytes(target))),
        Shape::Pointer(_) => small(u64::from(target.pointer_bytes)),
        Shape::Array(of, n) => array_size(*n, object_size(of.get(), structures, layouts, target)),
        Shape::Struct(id) => {
            if has_members(at(structures, *id as usize)) {
                match at(layouts, *id as usize) {
                    None => small(0),
                    Some(layout) => small(layout.size),
                }
            } else {
                None
            }
        }
        Shape::Void => None,
        Shape::Func(_) => None,
    }
}

/// Whether an object, a member or an element may have the type.
#[tactic(auto, using(crate::proofs::Sizes::of_sizes))]
pub fn is_object(t: &CType, structures: &[Structure], layouts: &[Layout], target: &Target) -> bool
    ensures { result ≡ is_object_of target.now structures.now layouts.now t.now }
{
    object_size(t, structures, layouts, target).is_some()
}
