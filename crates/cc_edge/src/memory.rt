ghost use Rattle.std.specs.Prelude.{◌≡◌, ◌≤◌, ◌<◌, ◌⊎◌, length, true, IsTrue, Some, None, IsSome, [], nat_eq, option_map, MatchOption, ⊤, OnErr, OnOk};
ghost use Rattle.std.specs.Option.{option_copied};
ghost use Rattle.std.specs.Cmp.Lexicographic.{pointwise};
ghost use Rattle.std.specs.declared.alloc.Global.{Global};
ghost use Rattle.cc_edge.specs.Faults.{Rose, risen, faults_after_made, faults_after_put};
ghost use Rattle.cc_edge.specs.Files.{KeepsOthers, IsReadWithin, Gives, created, IsPutWithin, appended};
ghost use Rattle.cc_edge.specs.Memory.{found, IsPlace, is_listed, room, given_from, read_answer, faults_after_read};

use crate::count::{is_to_fail, one_more};
use crate::store::{Got, Made, Put, Store};
use cc_num::{List, Name};
use std::alloc::{AllocError, Global};

/// Files in memory. Of two files of one name the first counts.
///
/// A call has a fault where its number is in `failing`, or where memory refuses to grow; a read of a name that is not
/// there fails without one. Calls are counted from 1, over all calls of the store. Both counts stay at their last value.
#[derive(Drop)]
pub struct MemoryStore {
    /// The files, each with its name.
    pub files: Vec<(Name, Vec<u8>)>,
    /// The numbers of the calls that are to fail.
    pub failing: Vec<u64>,
    /// The calls so far.
    pub calls: u64,
    /// The count of faults.
    pub faults: u64,
}

impl MemoryStore {
    /// A store without files, of whose calls none is to fail.
    pub fn new(alloc: Global) -> MemoryStore
        ensures files { result.files.items ≡ [] }
        ensures failing { result.failing.items ≡ [] }
        ensures calls { result.calls ≡ 0 }
        ensures faults { result.faults ≡ 0 }
    {
        MemoryStore {
            files: Vec::new(alloc),
            failing: Vec::new(alloc),
            calls: 0,
            faults: 0,
        }
    }
}

impl Store for MemoryStore {
    ghost use Rattle.cc_edge.specs.Memory.{found};

    ghost told = { λ _. true };

    ghost files = { λ store name. found name store.files.items };

    ghost faults = { λ store. store.faults };

    ghost taken = { λ _. 0 };

    ghost end = { λ _. None };

    // All from the place that the piece holds.
    fn read_at(&mut self, name: &str, at: u64, piece: &mut [u8]) -> Got
        requires { 0 < length piece.old }
        ensures calls { self.new.calls ≡ risen self.old.calls }
        ensures failing { self.new.failing ≡ self.old.failing }
        ensures files { self.new.files ≡ self.old.files }
        ensures answer { result ≡ read_answer (found name.now self.old.files.items)
            (is_listed self.old.failing.items self.new.calls) at (length piece.new) }
        ensures bytes { Gives result at piece.new (found name.now self.old.files.items) }
        ensures counted { self.new.faults ≡ faults_after_read (found name.now self.old.files.items) result self.old.faults }

        // What the trait says besides:
        ensures later { self.old.faults ≤ self.new.faults }
        ensures count { IsReadWithin result (length piece.new) }
        ensures cause { result ≡ Got.Failed → Rose self.old.faults self.new.faults
            ⊎ (found name.now self.old.files.items ≡ None) }
        ensures missing { found name.now self.old.files.items ≡ None →
            (result ≡ Got.Failed) × (self.new.faults ≡ self.old.faults) }
    {
        self.calls = one_more(self.calls);
        let Some(bytes) = contents(&self.files, name.as_bytes()) else {
            return Got::Failed;
        };
        if is_to_fail(&self.failing, self.calls) {
            self.faults = one_more(self.faults);
            return Got::Failed;
        }
        bytes_from(bytes, at, piece)
    }

    // Emptying a file takes no memory; adding one does.
    fn create(&mut self, name: &str) -> Made
        ensures calls { self.new.calls ≡ risen self.old.calls }
        ensures failing { self.new.failing ≡ self.old.failing }
        ensures listed { IsTrue (is_listed self.old.failing.items self.new.calls) → result ≡ Made.Failed }
        ensures unlisted { result ≡ Made.Failed → IsTrue (is_listed self.old.failing.items self.new.calls)
            ⊎ (found name.now self.old.files.items ≡ None) }
        ensures counted { self.new.faults ≡ faults_after_made result self.old.faults }
        ensures file { found name.now self.new.files.items ≡ created result (found name.now self.old.files.items) }
        ensures others { KeepsOthers name.now (λ n. found n self.old.files.items) (λ n. found n self.new.files.items) }

        // What the trait says besides:
        ensures later { self.old.faults ≤ self.new.faults }
        ensures cause { result ≡ Made.Failed → Rose self.old.faults self.new.faults }
    {
        self.calls = one_more(self.calls);
        if !is_to_fail(&self.failing, self.calls)
            && empty(&mut self.files, name.as_bytes()).is_ok()
        {
            return Made::Done;
        }
        self.faults = one_more(self.faults);
        Made::Failed
    }

    // All of the piece.
    fn append(&mut self, name: &str, piece: &[u8]) -> Put
        requires some { 0 < length piece.now }
        requires there { IsSome (found name.now self.old.files.items) }
        ensures calls { self.new.calls ≡ risen self.old.calls }
        ensures failing { self.new.failing ≡ self.old.failing }
        ensures listed { IsTrue (is_listed self.old.failing.items self.new.calls) → result ≡ Put.Failed }
        ensures unlisted { result ≡ Put.Failed → IsTrue (is_listed self.old.failing.items self.new.calls)
            ⊎ (room name.now self.old.files.items < length piece.now) }
        ensures whole { result ≡ Put.Failed ⊎ result ≡ Put.Bytes (length piece.now) }
        ensures counted { self.new.faults ≡ faults_after_put result self.old.faults }
        ensures file { found name.now self.new.files.items
            ≡ option_map (appended result piece.now) (found name.now self.old.files.items) }
        ensures others { KeepsOthers name.now (λ n. found n self.old.files.items) (λ n. found n self.new.files.items) }

        // What the trait says besides:
        ensures later { self.old.faults ≤ self.new.faults }
        ensures count { IsPutWithin result (length piece.now) }
        ensures cause { result ≡ Put.Failed → Rose self.old.faults self.new.faults }
    {
        self.calls = one_more(self.calls);
        if !is_to_fail(&self.failing, self.calls)
            && let Some(i) = place(&self.files, name.as_bytes())
            && extend(&mut self.files, name.as_bytes(), i, piece).is_ok()
        {
            return Put::Bytes(piece.len());
        }
        self.faults = one_more(self.faults);
        Put::Failed
    }
}

fn is_named(file: &(Name, Vec<u8>), name: &[u8]) -> bool
    ensures { result ≡ pointwise nat_eq file.now.0 name.now }
{
    file.0.all() == name
}

// The place of the first file of that name.
fn place(files: &[(Name, Vec<u8>)], name: &[u8]) -> Option<usize>
    ensures found { MatchOption result (found name.now files.now ≡ None) (λ i. IsPlace name.now i files.now) }
    ensures within { MatchOption result ⊤ (λ i. i < length files.now) }
{
    for (i, file) in files.iter().enumerate() {
        if is_named(file, name) {
            return Some(i);
        }
    }
    None
}

// The bytes of the file of that name.
#[tactic(auto, using(crate::proofs::Places::of_files))]
fn contents<'a>(files: &'a [(Name, Vec<u8>)], name: &[u8]) -> Option<&'a [u8]>
    ensures { option_copied result ≡ found name.now files.now }
{
    let i = place(files, name)?;
    Some(files[i].1.as_slice())
}

// What a read of these bytes gives: all from `at` that the piece holds.
fn bytes_from(bytes: &[u8], at: u64, piece: &mut [u8]) -> Got
    requires { 0 < length piece.old }
    ensures answer { result ≡ given_from bytes.now at (length piece.new) }
    ensures bytes { Gives result at piece.new (Some bytes.now) }
    ensures count { IsReadWithin result (length piece.new) }
    ensures reads { result ≡ Got.Failed → ⊥ }
{
    if at >= bytes.len() as u64 {
        return Got::End;
    }
    let rest = &bytes[at as usize..];
    let n = rest.len().min(piece.len());
    piece[..n].copy_from_slice(&rest[..n]);
    Got::Bytes(n)
}

// Empties the file of that name, or adds one with nothing in it.
fn empty(files: &mut Vec<(Name, Vec<u8>)>, name: &[u8]) -> Result<(), AllocError>
    ensures ok { OnOk result (found name.now files.new.items ≡ Some []) }
    ensures err { OnErr result ((files.new.items ≡ files.old.items) × (found name.now files.old.items ≡ None)) }
    ensures others { KeepsOthers name.now (λ n. found n files.old.items) (λ n. found n files.new.items) }
{
    match place(files, name) {
        Some(i) => {
            clear(files, name, i);
            Ok(())
        }
        None => add(files, name),
    }
}

// Adds a file with nothing in it.
#[tactic(auto, using(crate::proofs::Places::of_files))]
fn add(files: &mut Vec<(Name, Vec<u8>)>, name: &[u8]) -> Result<(), AllocError>
    requires { found name.now files.old.items ≡ None }
    ensures ok { OnOk result (found name.now files.new.items ≡ Some []) }
    ensures err { OnErr result (files.new.items ≡ files.old.items) }
    ensures others { KeepsOthers name.now (λ n. found n files.old.items) (λ n. found n files.new.items) }
{
    let alloc = *files.allocator();
    let name = List::of(Vec::from_slice(alloc, name)?);
    files.push((name, Vec::new(alloc)))?;
    Ok(())
}

// Empties the file at its place.
#[tactic(auto, using(crate::proofs::Places::of_files))]
fn clear(files: &mut [(Name, Vec<u8>)], name: &[u8], i: usize)
    requires within { i < length files.old }
    requires place { IsPlace name.now i files.old }
    ensures cleared { found name.now files.new ≡ Some [] }
    ensures others { KeepsOthers name.now (λ n. found n files.old) (λ n. found n files.new) }
{
    files[i].1.clear();
}

// Puts a piece behind the bytes of the file at its place.
#[tactic(auto, using(crate::proofs::Places::of_files))]
fn extend(
    files: &mut [(Name, Vec<u8>)],
    name: &[u8],
    i: usize,
    piece: &[u8],
) -> Result<(), AllocError>
    requires within { i < length files.old }
    requires place { IsPlace name.now i files.old }
    ensures ok { OnOk result (found name.now files.new
        ≡ option_map (appended (Put.Bytes (length piece.now)) piece.now) (found name.now files.old)) }
    ensures err { OnErr result ((found name.now files.new ≡ found name.now files.old) × (room name.now files.old < length piece.now)) }
    ensures others { KeepsOthers name.now (λ n. found n files.old) (λ n. found n files.new) }
{
    files[i].1.extend_from_slice(piece)?;
    Ok(())
}
