ghost use Rattle.std.specs.Prelude.{◌≡◌, ◌≤◌, ◌-◌, ◌^◌, false, [], length};
ghost use Rattle.cc_edge.specs.Faults.{Rose, faults_after_put};
ghost use Rattle.cc_edge.specs.Files.{IsPutWithin};
ghost use Rattle.cc_edge.specs.System.{put_of};

use crate::count::one_more;
use crate::sink::Sink;
use crate::store::Put;
use std::io;

/// The standard output. It tells nothing of what was said.
///
/// Each error of the system is a fault. Where the count of faults stands at its last value, every
/// call fails.
#[derive(Drop)]
pub struct OutSink<'r, R> {
    rt: &'r R,
    /// The count of faults.
    pub faults: u64,
}

impl<'r, R: Print> OutSink<'r, R> {
    /// The output that the runtime prints to, without a fault so far.
    pub fn new(rt: &'r R) -> OutSink<'r, R>
        ensures { result.faults ≡ 0 }
    {
        OutSink { rt, faults: 0 }
    }

    // The answer to a write, by what the system gave.
    fn write_gave(&mut self, given: io::Result<usize>) -> Put
        ensures answer { result ≡ put_of given }
        ensures counted { self.new.faults ≡ faults_after_put (put_of given) self.old.faults }
    {
        match given {
            Ok(0) | Err(_) => {
                self.faults = one_more(self.faults);
                Put::Failed
            }
            Ok(n) => Put::Bytes(n),
        }
    }
}

impl<R: Print> Sink for OutSink<'_, R> {
    ghost told = { λ _. false };

    ghost said = { λ _. [] };

    ghost faults = { λ sink. sink.faults };

    // One write of the system.
    fn put(&mut self, piece: &[u8]) -> Put
        ensures spent { self.old.faults ≡ 2 ^ 64 - 1 → result ≡ Put.Failed }
        ensures counted { self.new.faults ≡ faults_after_put result self.old.faults }
        ensures later { self.old.faults ≤ self.new.faults }
        ensures cause { result ≡ Put.Failed → Rose self.old.faults self.new.faults }
        ensures count { IsPutWithin result (length piece.now) }
    {
        if self.faults == u64::MAX {
            return Put::Failed;
        }
        let given = self.rt.write_some(piece);
        self.write_gave(given)
    }
}
