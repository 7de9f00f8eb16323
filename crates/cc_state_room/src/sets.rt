//! How often sets of values can still rise.

ghost use Rattle.std.specs.Prelude.{◌≡◌, ◌≤◌, ◌*◌, ◌^◌, All, length};
ghost use Rattle.cc_state_room.specs.Room.{room_of_set, room_of_sets, room_of_row, room_of_rows};
ghost use Rattle.cc_state_room.specs.Small.{HasFew, IsSmallRow};

use cc_lattice::IntDomain;
use cc_places::Abs;
use cc_state_facts::{Row, Shared};

/// How often one set can.
fn room_of_set<I: IntDomain>(set: &Abs<I>, most: u64) -> u128
    requires { HasFew most set.now }
    ensures value { result ≡ room_of_set most I.room_of set.now }
    ensures bound { result ≤ 2 ^ 70 }
{
    match set {
        Abs::Ints(numbers) => numbers.room(),
        Abs::Addrs(places) => places.room(most),
    }
}

/// How often some sets can, all together.
pub(crate) fn room_of_sets<I: IntDomain>(sets: &[Abs<I>], most: u64) -> u128
    requires few { length sets.now ≤ 2 ^ 32 }
    requires sets { All (HasFew most) sets.now }
    ensures value { result ≡ room_of_sets most I.room_of sets.now }
    ensures bound { result ≤ 2 ^ 70 * length sets.now }
{
    let mut total: u128 = 0;
    for set in sets {
        total += room_of_set(set, most);
    }
    total
}

/// How often sets that points share can, all together.
pub(crate) fn room_of_shared_sets<I: IntDomain>(sets: &[Shared<Abs<I>>], most: u64) -> u128
    requires few { length sets.now ≤ 2 ^ 32 }
    requires sets { All (HasFew most) sets.now }
    ensures value { result ≡ room_of_sets most I.room_of sets.now }
    ensures bound { result ≤ 2 ^ 70 * length sets.now }
{
    let mut total: u128 = 0;
    for set in sets {
        total += room_of_set(set.get(), most);
    }
    total
}

/// How often a row of sets can.
fn room_of_row<I: IntDomain>(row: &Shared<Row<I>>, most: u64) -> u128
    requires { IsSmallRow most row.now }
    ensures value { result ≡ room_of_row most I.room_of row.now }
    ensures bound { result ≤ 2 ^ 74 }
{
    room_of_shared_sets(row.get().cells.all(), most)
}

/// How often rows of sets can.
pub(crate) fn room_of_rows<I: IntDomain>(rows: &[Shared<Row<I>>], most: u64) -> u128
    requires few { length rows.now ≤ 2 ^ 22 }
    requires rows { All (IsSmallRow most) rows.now }
    ensures value { result ≡ room_of_rows most I.room_of rows.now }
    ensures bound { result ≤ 2 ^ 74 * length rows.now }
{
    let mut total: u128 = 0;
    for row in rows {
        total += room_of_row(row, most);
    }
    total
}
