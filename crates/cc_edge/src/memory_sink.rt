ghost use Rattle.std.specs.Prelude.{◌≡◌, ◌≤◌, ◌<◌, ◌+◌, ◌⊎◌, true, IsTrue, [], length, vec_len, vec_capacity};
ghost use Rattle.cc_edge.specs.Faults.{Rose, risen, faults_after_put};
ghost use Rattle.cc_edge.specs.Files.{IsPutWithin, appended};
ghost use Rattle.cc_edge.specs.Memory.{is_listed};

use crate::count::{is_to_fail, one_more};
use crate::sink::Sink;
use crate::store::Put;
use std::alloc::Global;

/// A sink in memory.
///
/// A call has a fault where its number is in `failing`, or where memory refuses to grow. Calls are
/// counted from 1. Both counts stay at their last value.
#[derive(Drop)]
pub struct MemorySink {
    /// The bytes said so far.
    pub said: Vec<u8>,
    /// The numbers of the calls that are to fail.
    pub failing: Vec<u64>,
    /// The calls so far.
    pub calls: u64,
    /// The count of faults.
    pub faults: u64,
}

impl MemorySink {
    /// A sink to which nothing was said, of whose calls none is to fail.
    pub fn new(alloc: Global) -> MemorySink
        ensures said { result.said.items ≡ [] }
        ensures failing { result.failing.items ≡ [] }
        ensures calls { result.calls ≡ 0 }
        ensures faults { result.faults ≡ 0 }
    {
        MemorySink {
            said: Vec::new(alloc),
            failing: Vec::new(alloc),
            calls: 0,
            faults: 0,
        }
    }
}

impl Sink for MemorySink {
    ghost told = { λ _. true };

    ghost said = { λ sink. sink.said.items };

    ghost faults = { λ sink. sink.faults };

    // All of the piece.
    fn put(&mut self, piece: &[u8]) -> Put
        requires { 0 < length piece.now }
        ensures calls { self.new.calls ≡ risen self.old.calls }
        ensures failing { self.new.failing ≡ self.old.failing }
        ensures listed { IsTrue (is_listed self.old.failing.items self.new.calls) → result ≡ Put.Failed }
        ensures unlisted { result ≡ Put.Failed → IsTrue (is_listed self.old.failing.items self.new.calls)
            ⊎ (vec_capacity self.old.said < vec_len self.old.said + length piece.now) }
        ensures whole { result ≡ Put.Failed ⊎ result ≡ Put.Bytes (length piece.now) }
        ensures counted { self.new.faults ≡ faults_after_put result self.old.faults }
        ensures bytes { self.new.said.items ≡ appended result piece.now self.old.said.items }

        // What the trait says besides:
        ensures later { self.old.faults ≤ self.new.faults }
        ensures count { IsPutWithin result (length piece.now) }
        ensures cause { result ≡ Put.Failed → Rose self.old.faults self.new.faults }
    {
        self.calls = one_more(self.calls);
        if !is_to_fail(&self.failing, self.calls) && self.said.extend_from_slice(piece).is_ok() {
            return Put::Bytes(piece.len());
        }
        self.faults = one_more(self.faults);
        Put::Failed
    }
}
