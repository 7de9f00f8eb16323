ghost use Rattle.std.specs.Prelude.{◌≡◌, ◌≤◌, ◌<◌, ℕ, Bool, IsTrue, List, length};
ghost use Rattle.cc_edge.specs.Faults.{Rose};
ghost use Rattle.cc_edge.specs.Files.{IsPutWithin, appended};

use crate::store::Put;

/// Where a program says its output, and a count of faults.
///
/// A sink may tell what was said. What clauses say of bytes holds where it does; the others hold
/// always.
pub trait Sink {
    /// Whether the sink tells what was said. No call changes it.
    ghost told: { Self → Bool };

    /// The bytes said so far.
    ghost said: { Self → List ℕ };

    /// The count of faults. It never falls.
    ghost faults: { Self → ℕ };

    /// Says the first bytes of a piece, or fails and says nothing.
    fn put(&mut self, piece: &[u8]) -> Put
        requires { 0 < length piece.now }
        ensures told { told self.new ≡ told self.old }
        ensures later { faults self.old ≤ faults self.new }
        ensures count { IsPutWithin result (length piece.now) }
        ensures cause { result ≡ Put.Failed → Rose (faults self.old) (faults self.new) }

        // Where it tells what was said:
        ensures bytes { IsTrue (told self.old) → said self.new ≡ appended result piece.now (said self.old) };
}
