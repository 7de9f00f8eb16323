//! The command that says a made source.

ghost use Rattle.std.specs.Prelude.{◌≡◌, ◌≤◌, ◌<◌, ◌⊎◌, ◌++◌, ℕ, false, IfSome, IsTrue, List as ListOf, take, codes};
ghost use Rattle.cc_edge.specs.Faults.{Rose};
ghost use Rattle.cc_make.specs.Source.{made};
ghost use Rattle.cc_status.specs.Statuses.{may_write, is_of_files};
ghost use Rattle.cc_status.specs.declared.status.What.{What as WhatOf};
ghost use Rattle.ccomp.specs.Command.{asked_of, make_asked};
ghost use Rattle.ccomp.specs.Make.{number_of, bounded, seed_of, count_of, steps_of};

use crate::command::Asked;
use cc_edge::{Sink, say_whole};
use cc_status::{Status, What, output_name};
use std::alloc::Global;

/// The most counters of a made source.
const COUNT_LIMIT: u32 = 1000;

/// The most digits of a number.
const DIGITS: usize = 20;

/// The number of a word of 1 to 20 decimal digits.
#[tactic(auto, using(crate::proofs::Numbers::of_numbers))]
fn number(word: &[u8]) -> Option<u128>
    ensures { result ≡ number_of word.now }
{
    if word.is_empty() || word.len() > DIGITS {
        return None;
    }
    let mut number: u128 = 0;
    for byte in word {
        if !byte.is_ascii_digit() {
            return None;
        }
        number = number * 10 + u128::from(*byte - b'0');
    }
    Some(number)
}

/// A number that is within its bounds.
fn within(least: u128, most: u128, number: Option<u128>) -> Option<u128>
    ensures value { result ≡ bounded least most number }
    ensures bounds { IfSome result (λ n. (least ≤ n) × (n ≤ most)) }
{
    match number {
        Some(n) if least <= n && n <= most => Some(n),
        _ => None,
    }
}

/// The seed that a word writes.
fn seed_in(word: &str) -> Option<u64>
    ensures { result ≡ seed_of word.now }
{
    let seed = within(0, u128::from(u64::MAX), number(word.as_bytes()))?;
    Some(seed as u64)
}

/// The count that a word writes.
fn count_in(word: &str) -> Option<u32>
    ensures { result ≡ count_of word.now }
{
    let count = within(1, u128::from(u32::MAX), number(word.as_bytes()))?;
    Some(count as u32)
}

/// How many steps a word writes.
pub fn steps_in(word: &str) -> Option<u32>
    ensures { result ≡ steps_of word.now }
{
    let steps = within(0, u128::from(u32::MAX), number(word.as_bytes()))?;
    Some(steps as u32)
}

/// What `make` asks for with these words, or the first that is wrong.
pub fn asked<'w>(seed: &'w str, count: &'w str) -> Asked<'w>
    ensures { asked_of result ≡ make_asked seed.now count.now }
{
    let Some(first) = seed_in(seed) else {
        return Asked::Wrong(seed);
    };
    let Some(second) = count_in(count) else {
        return Asked::Wrong(count);
    };
    Asked::Make {
        seed: first,
        count: second,
    }
}

/// Says the source of so many counters, drawn from a seed.
pub fn make<O: Sink>(alloc: Global, seed: u64, count: u32, sink: &mut O) -> Status
    requires { 1 ≤ count }
    ensures told { O.told sink.new ≡ O.told sink.old }
    ensures later_faults { O.faults sink.old ≤ O.faults sink.new }
    ensures answers { (result ≡ Status.Limit What.Count count) ⊎ ((result ≡ Status.NoMemory) ⊎ ((result ≡ Status.Done) ⊎ (result ≡ Status.WriteFault (codes "-")))) }
    ensures limit { 1000 < count → result ≡ Status.Limit What.Count count }
    ensures within { (what : WhatOf) (number : ℕ) → result ≡ Status.Limit what number → (what ≡ What.Count) × (number ≡ count) × (1000 < count) }
    ensures not_of_files { is_of_files result ≡ false }
    ensures not_begun { may_write result ≡ false → O.said sink.new ≡ O.said sink.old }
    ensures said { result ≡ Status.Done → IsTrue (O.told sink.old) → O.said sink.new ≡ O.said sink.old ++ made seed count }
    ensures write_fault { (name : ListOf ℕ) → result ≡ Status.WriteFault name →
        (name ≡ codes "-") × Rose (O.faults sink.old) (O.faults sink.new)
        × (IsTrue (O.told sink.old) → (n : ℕ) × (O.said sink.new ≡ O.said sink.old ++ take n (made seed count))) }
{
    if count > COUNT_LIMIT {
        return Status::Limit(What::Count, u64::from(count));
    }
    let Ok(name) = output_name(alloc) else {
        return Status::NoMemory;
    };
    let Ok(text) = cc_make::make(alloc, seed, count) else {
        return Status::NoMemory;
    };
    match say_whole(sink, &text) {
        Ok(()) => Status::Done,
        Err(_) => Status::WriteFault(name),
    }
}
