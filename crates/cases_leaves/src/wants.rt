//! Slots that may be placed: of 1 to 16 bits each, and no two of one number.

ghost use Rattle.std.specs.Prelude.{◌≡◌, ◌≤◌, ◌==◌, IfSome, IsTrue};
ghost use Rattle.std.specs.List.{list_any};
ghost use Rattle.cases_leaves.specs.Wants.{IsSmall, ArePlaceable};

use cc_bins::Want;
use std::alloc::AllocError;

/// A slot, where it has 1 to 16 bits.
pub fn small(want: Want) -> Option<Want>
    ensures { IfSome result IsSmall }
{
    if want.bits < 1 || want.bits > 16 {
        None
    } else {
        Some(want)
    }
}

/// Whether a slot of this number is there.
fn has_slot(wants: &[Want], slot: u32) -> bool
    ensures { result ≡ list_any (λ want. want.slot == slot) wants.now }
{
    wants.iter().any(|want| want.slot == slot)
}

/// Adds a slot, where there is none of its number.
pub fn add(wants: &mut Vec<Want>, want: Want) -> Result<bool, AllocError>
    requires small { IsSmall want }
    requires before { ArePlaceable wants.old.items }
    ensures { ArePlaceable wants.new.items }
{
    if has_slot(wants, want.slot) {
        return Ok(false);
    }
    wants.push(want)?;
    Ok(true)
}
