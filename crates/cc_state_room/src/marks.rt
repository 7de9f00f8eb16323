//! How often marks and sets of levels can still rise.

ghost use Rattle.std.specs.Prelude.{◌≡◌, ◌≤◌, ◌*◌, ◌^◌, length};
ghost use Rattle.cc_state_room.specs.Room.{room_of_mark, room_of_marks, room_of_levels, room_of_level_sets};

/// How often one mark can.
pub(crate) fn room_of_mark(mark: bool) -> u128
    ensures value { result ≡ room_of_mark mark }
    ensures bound { result ≤ 1 }
{
    if mark { 0 } else { 1 }
}

/// How often some marks can, all together.
pub(crate) fn room_of_marks(marks: &[bool]) -> u128
    ensures value { result ≡ room_of_marks marks.now }
    ensures bound { result ≤ length marks.now }
    ensures fits { result ≤ 2 ^ 64 }
{
    let mut total: u128 = 0;
    for mark in marks {
        total += room_of_mark(*mark);
    }
    total
}

/// How often one set of levels can.
fn room_of_levels(levels: u8) -> u128
    ensures value { result ≡ room_of_levels levels }
    ensures bound { result ≤ 255 }
{
    (255 - levels) as u128
}

/// How often some sets of levels can, all together.
pub(crate) fn room_of_level_sets(sets: &[u8]) -> u128
    ensures value { result ≡ room_of_level_sets sets.now }
    ensures bound { result ≤ 255 * length sets.now }
    ensures fits { result ≤ 2 ^ 72 }
{
    let mut total: u128 = 0;
    for levels in sets {
        total += room_of_levels(*levels);
    }
    total
}
