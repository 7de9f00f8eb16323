//! How often facts can still rise.

ghost use Rattle.std.specs.Prelude.{◌≡◌, ◌≤◌, ◌^◌};
ghost use Rattle.cc_state_room.specs.Room.{room_of, room_of_values, room_of_all_marks, room_of_all_levels};
ghost use Rattle.cc_state_room.specs.Small.{AreSmall};

use crate::marks::{room_of_level_sets, room_of_marks};
use crate::points::room_of_points;
use crate::sets::room_of_sets;
use cc_lattice::IntDomain;
use cc_state_facts::Facts;

/// How often the sets of keys and of results can.
fn room_of_values<I: IntDomain>(facts: &Facts<I>, most: u64) -> u128
    requires { AreSmall most facts.now }
    ensures value { result ≡ room_of_values most I.room_of facts.now }
    ensures bound { result ≤ 2 ^ 104 }
{
    room_of_sets(facts.whole.all(), most) + room_of_sets(facts.results.all(), most)
}

/// How often the marks can.
fn room_of_all_marks<I>(facts: &Facts<I>) -> u128
    ensures value { result ≡ room_of_all_marks facts.now }
    ensures bound { result ≤ 2 ^ 66 }
{
    let reached = room_of_marks(facts.by_main.all()) + room_of_marks(facts.by_handler.all());
    let reads = room_of_marks(facts.handler_reads.all());
    let writes = room_of_marks(facts.handler_writes.all());
    reached + reads + writes
}

/// How often the sets of levels can.
fn room_of_all_levels<I>(facts: &Facts<I>) -> u128
    ensures value { result ≡ room_of_all_levels facts.now }
    ensures bound { result ≤ 2 ^ 74 }
{
    let running = room_of_level_sets(facts.levels.all()) + room_of_level_sets(facts.from.all());
    let reads = room_of_level_sets(facts.read_levels.all());
    let writes = room_of_level_sets(facts.write_levels.all());
    running + reads + writes
}

/// How often facts can still rise, at the most, where their sets of addresses that are not exact have at most so many members.
pub fn room<I: IntDomain>(facts: &Facts<I>, most: u64) -> u128
    requires { AreSmall most facts.now }
    ensures { result ≡ room_of most I.room_of facts.now }
{
    let values = room_of_values(facts, most);
    let marks = room_of_all_marks(facts);
    let levels = room_of_all_levels(facts);
    values + marks + levels + room_of_points(facts.at.all(), most)
}
