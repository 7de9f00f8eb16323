//! Places of several sources, in order of the text.

ghost use Rattle.std.specs.Prelude.{◌≡◌, OnOk};
ghost use Rattle.cc_order.specs.Order.{in_order};
ghost use Rattle.cc_order.specs.Places.{stands_before};

use cc_num::NoMemory;

/// Where something stands in the text.
#[derive(Clone, Copy, Debug, PartialEq, Eq)]
pub struct Place {
    pub source: u32,
    /// In bytes from the beginning of the source.
    pub offset: u32,
    /// The number of what stands there.
    pub number: usize,
}

/// Puts places in order of the text: that of the sources, and in one source that of the offsets. Those at one offset
/// of one source keep their order.
pub fn sort_places(places: &mut Vec<Place>) -> Result<(), NoMemory>
    ensures { OnOk result (places.new.items ≡ in_order stands_before places.old.items) }
{
    places.sort_by_key(|place| (place.source, place.offset))?;
    Ok(())
}
