//! What tells things apart.

ghost use Rattle.std.specs.Prelude.{◌≡◌};
ghost use Rattle.cc_things.specs.Things.{identity_of as identity_of_mention, external_or, address_or, numbered_or, position_of_type};
ghost use Rattle.cc_things.specs.View.{view_of, identity_view};

use crate::mention::Mention;
use cc_program::Device;
use cc_program::num::{IntType, Name};
use cc_unit::{Linkage, UnitKind};

/// What tells things apart.
#[derive(Clone, Copy, PartialEq, Eq, Hash)]
pub enum Identity<'t> {
    /// An external name, in all sources (C99 6.2.2, 2).
    External(&'t [u8]),
    /// A device without a name: its address, the position of its type among those of C, and whether it is const.
    Numbered(u64, u8, bool),
    /// What only one source knows: the source, and the position among its names.
    Single(u32, u32),
}

/// The position of a type among the integer types of C.
pub fn position_of(t: IntType) -> u8
    ensures { result ≡ position_of_type t }
{
    match t {
        IntType::Bool => 0,
        IntType::Char => 1,
        IntType::SChar => 2,
        IntType::UChar => 3,
        IntType::Short => 4,
        IntType::UShort => 5,
        IntType::Int => 6,
        IntType::UInt => 7,
        IntType::Long => 8,
        IntType::ULong => 9,
        IntType::LongLong => 10,
        IntType::ULongLong => 11,
    }
}

/// That of a device without a name, or the other.
fn numbered_device<'t>(device: &Device, other: Identity<'t>) -> Identity<'t>
    ensures { identity_view result ≡ address_or device.now device.now.name (identity_view other.entry) }
{
    match &device.name {
        None => Identity::Numbered(device.number, position_of(device.int), device.constant),
        Some(_) => other,
    }
}

fn numbered<'t>(kind: &UnitKind, other: Identity<'t>) -> Identity<'t>
    ensures { identity_view result ≡ numbered_or kind.now (identity_view other.entry) }
{
    match kind {
        UnitKind::Device(device) => numbered_device(device, other),
        UnitKind::Object(_) => other,
        UnitKind::Func(_, _) => other,
    }
}

/// That of an external name, or the other.
fn external<'t>(linkage: Linkage, name: &'t Option<Name>, other: Identity<'t>) -> Identity<'t>
    ensures { identity_view result ≡ external_or linkage name.now (identity_view other.entry) }
{
    match linkage {
        Linkage::External => match name {
            Some(name) => Identity::External(name.all()),
            None => other,
        },
        Linkage::Internal => other,
        Linkage::Local => other,
    }
}

/// The identity of the thing that is mentioned.
pub fn identity_of<'t>(m: &Mention<'t>) -> Identity<'t>
    ensures { identity_view result ≡ identity_of_mention (view_of m.now) }
{
    let single = Identity::Single(m.text, m.position);
    external(m.name.linkage, &m.name.name, numbered(&m.name.kind, single))
}
