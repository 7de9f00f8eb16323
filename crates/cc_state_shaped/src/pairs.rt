//! Pairs of registers and tracked cells: whether both are there, and the pairs in order.

ghost use Rattle.std.specs.Prelude.{◌≡◌, ◌↔◌, IsTrue, All};
ghost use Rattle.std.specs.List.{AllPairs};
ghost use Rattle.cc_state_reads.specs.CcStateFacts.Orders.{IsBefore};
ghost use Rattle.cc_state_shaped.specs.Parts.{IsWithin};

/// Whether a pair is of the first so many registers and tracked cells.
fn is_within(pair: (u32, u32), registers: usize, cells: usize) -> bool
    ensures { IsTrue result ↔ IsWithin registers cells pair }
{
    (pair.0 as usize) < registers && (pair.1 as usize) < cells
}

/// Whether each pair is.
pub(crate) fn are_within(pairs: &[(u32, u32)], registers: usize, cells: usize) -> bool
    ensures { IsTrue result ↔ All (IsWithin registers cells) pairs.now }
{
    for pair in pairs {
        if !is_within(*pair, registers, cells) {
            return false;
        }
    }
    true
}

/// Whether a pair comes before another one: by the register, then by the cell.
fn is_before(a: (u32, u32), b: (u32, u32)) -> bool
    ensures { IsTrue result ↔ IsBefore a b }
{
    a.0 < b.0 || (a.0 == b.0 && a.1 < b.1)
}

/// Whether each pair comes before all later ones.
pub(crate) fn do_ascend(pairs: &[(u32, u32)]) -> bool
    ensures { IsTrue result ↔ AllPairs IsBefore pairs.now }
{
    for number in 1..pairs.len() {
        if !is_before(pairs[number - 1], pairs[number]) {
            return false;
        }
    }
    true
}
