//! How often what is known at points can still rise.

ghost use Rattle.std.specs.Prelude.{◌≡◌, ◌<◌, ◌≤◌, ◌*◌, ◌^◌, All, length};
ghost use Rattle.cc_state_room.specs.Room.{room_of_point, room_of_known, room_of_points};
ghost use Rattle.cc_state_room.specs.Small.{IsSmallPoint, IsSmallKnown};

use crate::marks::room_of_mark;
use crate::sets::{room_of_rows, room_of_shared_sets};
use cc_lattice::IntDomain;
use cc_state_facts::PointFact;

/// How often a point that is not reached can rise: more than one that is.
const UNREACHED: u128 = 1 << 100;

/// How often what is known at a point can.
fn room_of_point<I: IntDomain>(fact: &PointFact<I>, most: u64) -> u128
    requires { IsSmallPoint most fact.now }
    ensures value { result ≡ room_of_point most I.room_of fact.now }
    ensures bound { result < 2 ^ 100 }
{
    let flags = room_of_mark(fact.off) + room_of_mark(fact.on);
    let locals = room_of_shared_sets(fact.locals.all(), most);
    let cells = room_of_rows(fact.rows.all(), most);
    flags + locals + cells + fact.same.all().len() as u128
}

/// How often it can where the point need not be reached.
fn room_of_known<I: IntDomain>(known: &Option<PointFact<I>>, most: u64) -> u128
    requires { IsSmallKnown most known.now }
    ensures value { result ≡ room_of_known most I.room_of known.now }
    ensures bound { result ≤ 2 ^ 100 }
{
    match known {
        None => UNREACHED,
        Some(fact) => room_of_point(fact, most),
    }
}

/// How often it can at some points, all together.
pub(crate) fn room_of_points<I: IntDomain>(at: &[Option<PointFact<I>>], most: u64) -> u128
    requires few { length at.now ≤ 2 ^ 16 }
    requires at { All (IsSmallKnown most) at.now }
    ensures value { result ≡ room_of_points most I.room_of at.now }
    ensures bound { result ≤ 2 ^ 100 * length at.now }
{
    let mut total: u128 = 0;
    for known in at {
        total += room_of_known(known, most);
    }
    total
}
