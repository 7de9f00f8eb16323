//! What is known of where something stands.

ghost use Rattle.std.specs.Prelude.{◌≡◌, ◌+◌, ◌*◌, ◌&&◌, ◌||◌, false, true, not, if◌then◌else◌};
ghost use Rattle.cc_slots_structures.specs.Copies.{capped};

/// Where a structure stands.
#[derive(Clone, Copy)]
pub struct Standing {
    /// How often in static objects that are not const, up to the end of the type.
    pub copies: u32,
    /// Whether in an object or a local at a place that is not const.
    pub is_open: bool,
    /// Whether in a local.
    pub is_automatic: bool,
}

/// Where something stands at the places of both.
pub(crate) fn both(a: Standing, b: Standing) -> Standing
    ensures copies { result.copies ≡ capped (a.copies + b.copies) }
    ensures is_open { result.is_open ≡ (a.is_open || b.is_open) }
    ensures is_automatic { result.is_automatic ≡ (a.is_automatic || b.is_automatic) }
{
    Standing {
        copies: a.copies.saturating_add(b.copies),
        is_open: a.is_open || b.is_open,
        is_automatic: a.is_automatic || b.is_automatic,
    }
}

/// Where the elements of an array stand that stands there.
pub(crate) fn of_elements(array: Standing, count: u32) -> Standing
    ensures copies { result.copies ≡ capped (array.copies * count) }
    ensures is_open { result.is_open ≡ array.is_open }
    ensures is_automatic { result.is_automatic ≡ array.is_automatic }
{
    Standing {
        copies: array.copies.saturating_mul(count),
        is_open: array.is_open,
        is_automatic: array.is_automatic,
    }
}

/// Where something of a type stands: what is const is so at each place.
pub(crate) fn of_type(place: Standing, is_const: bool) -> Standing
    ensures copies { result.copies ≡ place.copies }
    ensures is_open { result.is_open ≡ (place.is_open && not is_const) }
    ensures is_automatic { result.is_automatic ≡ place.is_automatic }
{
    Standing {
        copies: place.copies,
        is_open: place.is_open && !is_const,
        is_automatic: place.is_automatic,
    }
}

/// Where a static object stands: const objects take no RAM.
pub(crate) fn of_object(is_const: bool) -> Standing
    ensures copies { result.copies ≡ (if is_const then 0 else 1) }
    ensures is_open { result.is_open ≡ true }
    ensures is_automatic { result.is_automatic ≡ false }
{
    Standing {
        copies: if is_const { 0 } else { 1 },
        is_open: true,
        is_automatic: false,
    }
}

/// Where a local stands.
pub(crate) fn of_local() -> Standing
    ensures copies { result.copies ≡ 0 }
    ensures is_open { result.is_open ≡ true }
    ensures is_automatic { result.is_automatic ≡ true }
{
    Standing {
        copies: 0,
        is_open: true,
        is_automatic: true,
    }
}

/// What is known of something that stands nowhere.
pub(crate) fn nowhere() -> Standing
    ensures copies { result.copies ≡ 0 }
    ensures is_open { result.is_open ≡ false }
    ensures is_automatic { result.is_automatic ≡ false }
{
    Standing {
        copies: 0,
        is_open: false,
        is_automatic: false,
    }
}
