//! Sizes and alignments of types over the structures of a unit (C99 6.5.3.4, 6.7.2.1).

ghost use Rattle.std.specs.Prelude.{◌≡◌, map, IfSome};
ghost use Rattle.cc_operands.specs.CcSyntax.Layout.{scalar as scalar_of, structure as structure_of, nothing, type_layout};
ghost use Rattle.std.specs.Option.{option_copied, unwrap_or};
ghost use Rattle.cc_scopes.specs.Layouts.{saturated};

use cc_operands::syntax::{CType, Layout, Shape};
use cc_program::num::{Name, Target, at};

/// Of a scalar of so many bytes.
fn scalar(size: u8, target: &Target) -> Layout
    ensures { result ≡ scalar_of size target.now }
{
    Layout {
        size: u64::from(size),
        align: u64::from(size.min(target.align_max)),
    }
}

/// Of a structure, as it is known.
fn layout_at(layout: Option<&Layout>) -> Layout
    ensures { result ≡ unwrap_or (option_copied layout.entry) nothing }
{
    match layout {
        None => Layout { size: 0, align: 1 },
        Some(layout) => *layout,
    }
}

/// The layout of a type; a size that 64 bits do not hold is the greatest that they hold.
#[tactic(auto, using(crate::proofs::LayoutLemmas::of_layouts))]
pub fn type_layout_in(layouts: &[Layout], target: &Target, t: &CType) -> Layout
    ensures { result ≡ saturated (type_layout target.now layouts.now t.now) }
{
    match &t.shape {
        Shape::Void => Layout { size: 0, align: 1 },
        Shape::Int(t) => scalar(t.bytes(target), target),
        Shape::Pointer(_) => scalar(target.pointer_bytes, target),
        Shape::Array(element, count) => {
            let element = type_layout_in(layouts, target, element.get());
            Layout {
                size: u64::from(*count).saturating_mul(element.size),
                align: element.align,
            }
        }
        Shape::Struct(id) => layout_at(at(layouts, *id as usize)),
        Shape::Func(_) => Layout { size: 0, align: 1 },
    }
}

/// The layout of a structure with these members, where 64 bits hold all sizes.
#[tactic(auto, using(crate::proofs::LayoutLemmas::of_structures))]
pub fn structure_layout(
    layouts: &[Layout],
    target: &Target,
    members: &[(Name, CType)],
) -> Option<Layout>
    ensures { IfSome result (λ l. l ≡ structure_of (map (λ m. type_layout target.now layouts.now m.1) members.now)) }
{
    let mut end: u64 = 0;
    let mut align: u64 = 1;
    for (_, ctype) in members {
        let member = type_layout_in(layouts, target, ctype);
        if member.size == u64::MAX {
            return None;
        }
        end = end
            .checked_next_multiple_of(member.align)?
            .checked_add(member.size)?;
        align = align.max(member.align);
    }
    let size = end.checked_next_multiple_of(align)?;
    Some(Layout { size, align })
}
