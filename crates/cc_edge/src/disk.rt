ghost use Rattle.std.specs.Prelude.{◌≡◌, ◌≤◌, ◌<◌, ◌-◌, ◌^◌, false, None, length, IfOk, IsErr};
ghost use Rattle.cc_edge.specs.Faults.{Rose, faults_after_got, faults_after_made, faults_after_put, taken_after, end_after};
ghost use Rattle.cc_edge.specs.Files.{IsReadWithin, IsPutWithin};
ghost use Rattle.cc_edge.specs.System.{got_of, made_of, put_of};

use crate::count::{more, one_more};
use crate::store::{Got, Made, Put, Store};
use std::fs::{File, OpenOptions};
use std::io::{self, Read, Seek, SeekFrom, Write};
use std::rt::Files;

/// The files of the system, by path. It tells none of their bytes, but what its reads have given.
///
/// Each error of the system is a fault. Where the count of faults stands at its last value, every
/// call fails. A file is opened anew for each piece, and none is ever held whole.
#[derive(Drop)]
pub struct DiskStore<'r, R> {
    rt: &'r R,
    /// The count of faults.
    pub faults: u64,
    // The count of bytes that reads have given.
    taken: u64,
    // Where the last read found the end of its file, if it did.
    end: Option<u64>,
}

impl<'r, R: Files> DiskStore<'r, R> {
    /// The files that the runtime reaches, without a fault so far.
    pub fn new(rt: &'r R) -> DiskStore<'r, R>
        ensures faults { result.faults ≡ 0 }
        ensures taken { result.taken ≡ 0 }
        ensures end { result.end ≡ None }
    {
        DiskStore {
            rt,
            faults: 0,
            taken: 0,
            end: None,
        }
    }

    // The answer to a read from the byte `at`, by what the system gave.
    fn read_gave(&mut self, at: u64, given: io::Result<usize>) -> Got
        ensures answer { result ≡ got_of given }
        ensures counted { self.new.faults ≡ faults_after_got (got_of given) self.old.faults }
        ensures taken { self.new.taken ≡ taken_after (got_of given) self.old.taken }
        ensures end { self.new.end ≡ end_after (got_of given) at }
    {
        self.end = None;
        match given {
            Ok(0) => {
                self.end = Some(at);
                Got::End
            }
            Ok(n) => {
                self.taken = more(self.taken, n);
                Got::Bytes(n)
            }
            Err(_) => {
                self.faults = one_more(self.faults);
                Got::Failed
            }
        }
    }

    // The answer to the making of a file, by what the system gave.
    fn create_gave<F: Drop>(&mut self, given: io::Result<F>) -> Made
        ensures answer { result ≡ made_of given }
        ensures counted { self.new.faults ≡ faults_after_made (made_of given) self.old.faults }
        ensures taken { self.new.taken ≡ self.old.taken }
        ensures end { self.new.end ≡ self.old.end }
    {
        match given {
            Ok(_) => Made::Done,
            Err(_) => {
                self.faults = one_more(self.faults);
                Made::Failed
            }
        }
    }

    // The answer to a write, by what the system gave.
    fn write_gave(&mut self, given: io::Result<usize>) -> Put
        ensures answer { result ≡ put_of given }
        ensures counted { self.new.faults ≡ faults_after_put (put_of given) self.old.faults }
        ensures taken { self.new.taken ≡ self.old.taken }
        ensures end { self.new.end ≡ self.old.end }
    {
        match given {
            Ok(0) | Err(_) => {
                self.faults = one_more(self.faults);
                Put::Failed
            }
            Ok(n) => Put::Bytes(n),
        }
    }
}

impl<R: Files> Store for DiskStore<'_, R> {
    ghost told = { λ _. false };

    ghost files = { λ _ _. None };

    ghost faults = { λ store. store.faults };

    ghost taken = { λ store. store.taken };

    ghost end = { λ store. store.end };

    fn read_at(&mut self, name: &str, at: u64, piece: &mut [u8]) -> Got
        ensures spent { self.old.faults ≡ 2 ^ 64 - 1 → result ≡ Got.Failed }
        ensures counted { self.new.faults ≡ faults_after_got result self.old.faults }
        ensures later { self.old.faults ≤ self.new.faults }
        ensures count { IsReadWithin result (length piece.new) }
        ensures cause { result ≡ Got.Failed → Rose self.old.faults self.new.faults }
        ensures taken { self.new.taken ≡ taken_after result self.old.taken }
        ensures end { self.new.end ≡ end_after result at }
    {
        if self.faults == u64::MAX {
            self.end = None;
            return Got::Failed;
        }
        let given = read_from(self.rt, name, at, piece);
        self.read_gave(at, given)
    }

    fn create(&mut self, name: &str) -> Made
        ensures spent { self.old.faults ≡ 2 ^ 64 - 1 → result ≡ Made.Failed }
        ensures counted { self.new.faults ≡ faults_after_made result self.old.faults }
        ensures later { self.old.faults ≤ self.new.faults }
        ensures cause { result ≡ Made.Failed → Rose self.old.faults self.new.faults }
        ensures taken { self.new.taken ≡ self.old.taken }
        ensures end { self.new.end ≡ self.old.end }
    {
        if self.faults == u64::MAX {
            return Made::Failed;
        }
        let given = File::create(self.rt, name);
        self.create_gave(given)
    }

    // One write of the system.
    fn append(&mut self, name: &str, piece: &[u8]) -> Put
        ensures spent { self.old.faults ≡ 2 ^ 64 - 1 → result ≡ Put.Failed }
        ensures counted { self.new.faults ≡ faults_after_put result self.old.faults }
        ensures later { self.old.faults ≤ self.new.faults }
        ensures cause { result ≡ Put.Failed → Rose self.old.faults self.new.faults }
        ensures taken { self.new.taken ≡ self.old.taken }
        ensures end { self.new.end ≡ self.old.end }
        ensures count { IsPutWithin result (length piece.now) }
    {
        if self.faults == u64::MAX {
            return Put::Failed;
        }
        let given = append_to(self.rt, name, piece);
        self.write_gave(given)
    }
}

// What one read of the system gives of a file, from the byte `at`.
fn read_from<R: Files>(rt: &R, name: &str, at: u64, piece: &mut [u8]) -> io::Result<usize>
    ensures { IfOk result (λ n. n ≤ length piece.new) }
{
    read_opened(File::open(rt, name), at, piece)
}

// What a read gives of what was opened, from the byte `at`.
fn read_opened<F: Read + Seek + Drop>(
    opened: io::Result<F>,
    at: u64,
    piece: &mut [u8],
) -> io::Result<usize>
    ensures fails { IsErr opened → IsErr result }
    ensures count { IfOk result (λ n. n ≤ length piece.new) }
{
    let mut file = opened?;
    let sought = file.seek(SeekFrom::Start(at));
    read_sought(sought, &mut file, piece)
}

// What a read gives of a file that was sought in.
fn read_sought<F: Read>(
    sought: io::Result<u64>,
    file: &mut F,
    piece: &mut [u8],
) -> io::Result<usize>
    ensures fails { IsErr sought → IsErr result }
    ensures count { IfOk result (λ n. n ≤ length piece.new) }
{
    sought?;
    file.read(piece)
}

// Writes the first bytes of a piece behind a file that is there, and answers how many.
fn append_to<R: Files>(rt: &R, name: &str, piece: &[u8]) -> io::Result<usize>
    ensures { IfOk result (λ n. n ≤ length piece.now) }
{
    write_opened(OpenOptions::new().append(true).open(rt, name), piece)
}

// Writes the first bytes of a piece to what was opened, and answers how many.
fn write_opened<F: Write + Drop>(opened: io::Result<F>, piece: &[u8]) -> io::Result<usize>
    ensures fails { IsErr opened → IsErr result }
    ensures count { IfOk result (λ n. n ≤ length piece.now) }
{
    let mut out = opened?;
    out.write(piece)
}
