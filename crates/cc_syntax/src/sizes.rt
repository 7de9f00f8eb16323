//! Sizes and alignments of types.

ghost use Rattle.std.specs.Prelude.{◌≡◌, ◌≤◌, ◌<◌, ◌^◌, ◌+◌, length};
ghost use Rattle.std.specs.List.{All};
ghost use Rattle.cc_syntax.specs.Layout.{scalar as scalar_of, aligned as aligned_of, structure as structure_of, layout_of as layout_is, size_of as size_is, align_of as align_is, member_layouts, IsAlign, HasSize, IsSmall};

use cc_program::num::{Name, Target};
use cc_program::{CType, Shape, Structure};

/// How many bytes an object takes, and what divides the addresses at which it may stand (C99 3.2): 1, 2
/// or 4.
#[derive(Clone, Copy)]
pub struct Layout {
    pub size: u64,
    pub align: u64,
}

impl Layout {
    /// Where such an object stands behind others that end at `end`.
    pub fn place_behind(self, end: u64) -> u64
        requires align { IsAlign self.align }
        requires fits { end + 4 ≤ 2 ^ 64 }
        ensures { result ≡ aligned_of self.align end }
    {
        aligned(self.align, end)
    }
}

/// The first place from `n` on that the alignment divides.
#[tactic(auto, using(crate::proofs::Alignment::of_places), unfolding(crate::specs::Layout::aligned))]
fn aligned(align: u64, n: u64) -> u64
    requires align { IsAlign align }
    requires fits { n + 4 ≤ 2 ^ 64 }
    ensures { result ≡ aligned_of align n }
{
    n.next_multiple_of(align)
}

/// How many bytes an object of the type takes (C99 6.5.3.4). The type is a complete object type over
/// structures of which each contains only those before it and has fewer than 2^32 members. Each type of an
/// element or a member in it has at most 4,294,967,295 bytes.
pub fn size_of(t: &CType, structures: &[Structure], target: &Target) -> u64
    requires { HasSize t.now structures.now target.now }
    ensures { result ≡ size_is t.now structures.now target.now }
{
    layout_of(t, structures, target).size
}

/// The alignment of an object of such a type.
pub fn align_of(t: &CType, structures: &[Structure], target: &Target) -> u64
    requires { HasSize t.now structures.now target.now }
    ensures { result ≡ align_is t.now structures.now target.now }
{
    layout_of(t, structures, target).align
}

/// The size and the alignment of such a type.
#[cycle(layout_of)]
#[tactic(auto, using(crate::proofs::Shapes::of_shapes))]
pub fn layout_of(t: &CType, structures: &[Structure], target: &Target) -> Layout
    requires { HasSize t.now structures.now target.now }
    ensures { result ≡ layout_is t.now structures.now target.now }
{
    match &t.shape {
        Shape::Int(t) => scalar(t.bytes(target), target),
        Shape::Pointer(_) => scalar(target.pointer_bytes, target),
        Shape::Array(element, count) => {
            let element = layout_of(element.get(), structures, target);
            Layout {
                size: u64::from(*count) * element.size,
                align: element.align,
            }
        }
        Shape::Struct(id) => {
            let id = *id as usize;
            structure(structures[id].members.all(), &structures[..id], target)
        }
        Shape::Void | Shape::Func(_) => unreachable!(),
    }
}

/// The layout of a structure: its members in order, and its size rounded up to its greatest member
/// alignment.
#[cycle(layout_of)]
#[tactic(auto, using(crate::proofs::Members::of_members))]
fn structure(members: &[(Name, CType)], structures: &[Structure], target: &Target) -> Layout
    requires short { length members.now < 2 ^ 32 }
    requires small { All (λ m. IsSmall m.1 structures.now target.now) members.now }
    ensures { result ≡ structure_of (member_layouts members.now structures.now target.now) }
{
    let mut end: u64 = 0;
    let mut align: u64 = 1;
    for (_, ctype) in members {
        let member = layout_of(ctype, structures, target);
        end = member.place_behind(end) + member.size;
        align = align.max(member.align);
    }
    let size = aligned(align, end);
    Layout { size, align }
}

fn scalar(size: u8, target: &Target) -> Layout
    ensures { result ≡ scalar_of size target.now }
{
    Layout {
        size: u64::from(size),
        align: u64::from(size.min(target.align_max)),
    }
}
