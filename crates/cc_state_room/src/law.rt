ghost use Rattle.std.specs.Prelude.{◌≢◌, ◌<◌, ◌^◌, ℕ};
ghost use Rattle.cc_state_facts.specs.declared.facts.Facts.{Facts};
ghost use Rattle.cc_state_facts.specs.Orders.{AreAlike, IsBelow};
ghost use Rattle.cc_state_room.specs.Room.{room_of};
ghost use Rattle.cc_state_room.specs.Small.{AreSmall};

use cc_lattice::IntDomain;

/// What room keeps. The call does nothing.
pub fn laws<I: IntDomain>()
    // Facts that have risen have less room.
    ensures falls { (most : ℕ) (f g : Facts I) → most < 2 ^ 64 → AreAlike f g → AreSmall most g → IsBelow I.IsBelow f g → f ≢ g → room_of most I.room_of g < room_of most I.room_of f }
{}
