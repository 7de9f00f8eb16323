//! A chain of constraints, each on the next one, in an order that leaps through the chain.

ghost use Rattle.std.specs.Prelude.{◌≡◌, ◌↔◌, ◌<◌, false, length, Some, IsTrue, IfOk, slice_get, slice_set, count_by};
ghost use Rattle.cases_domains.specs.ChainLaws.{truth_itself, truth_through, truth_same, chains_alike, before_counts, never_settles, chain_lists};
ghost use Rattle.cases_domains.specs.Chain.{IsBelowTruth, IsChain, turned, IsAsked, AsksYes, before, is_no, numbers};

use cc_fix::System;
use cc_lattice::{Lattice, Table};
use cc_program::num::{List, NoMemory, at};
use std::alloc::Global;
use std::cell::Cell;
use std::mem::replace;

/// A part of the facts.
#[derive(Clone, Copy)]
pub enum Truth {
    No,
    Yes,
}

impl Lattice for Truth {
    ghost AreAlike = { λ _ _. Unit {0} };

    ghost IsBelow = { IsBelowTruth };

    fn below(&self, other: &Truth) -> bool {
        match (self, other) {
            (Truth::Yes, Truth::No) => false,
            _ => true,
        }
    }

    fn join(&self, _alloc: Global, other: &Truth) -> Result<Truth, NoMemory> {
        match self {
            Truth::No => Ok(*other),
            Truth::Yes => Ok(Truth::Yes),
        }
    }

    ghost alike_itself = { λ _ _ _. tt };

    ghost alike_back = { λ _ _ _. tt };

    ghost below_itself = { λ x _. truth_itself x };

    ghost below_through = { λ x y z _ _ _ a b. truth_through x y z a b };

    ghost below_both_ways = { λ x y _ a b. truth_same x y a b };
}

/// The chain, with a count of the calls of `met` and `raise`.
#[derive(Drop)]
pub struct Chain {
    pub calls: Cell<u64>,
}

/// How many parts and constraints there are.
const COUNT: u32 = 1000;

impl Truth {
    fn is_no(self) -> bool
        ensures { result ≡ is_no self }
    {
        match self {
            Truth::No => true,
            Truth::Yes => false,
        }
    }
}

impl Chain {
    /// Counts a call.
    fn count_call(&self) {
        self.calls.set(self.calls.get().saturating_add(1));
    }
}

impl System for Chain {
    type Facts = Table<u32, Truth>;

    ghost IsReady = { λ _. Unit {0} };

    ghost IsFitting = { λ _ f. IsChain f };

    ghost count_of = { λ _. 1000 };

    ghost Asks = { λ _ i f g. AsksYes i f g };

    ghost room_of = { λ _ f. count_by is_no f.parts };

    ghost settles_of = { λ _ _. false };

    ghost again_of = { λ _ i _. before (turned i) };

    fn lowest(&self, alloc: Global) -> Result<Table<u32, Truth>, NoMemory> {
        let mut keys = Vec::new(alloc);
        let mut parts = Vec::new(alloc);
        for key in 0..COUNT {
            keys.push(key)?;
            parts.push(Truth::No)?;
        }
        Ok(Table {
            keys: List::of(keys),
            parts: List::of(parts),
        })
    }

    fn count(&self) -> u32 {
        COUNT
    }

    fn met(&self, _alloc: Global, index: u32, facts: &Table<u32, Truth>) -> Result<bool, NoMemory> {
        self.count_call();
        Ok(!rises(facts.parts.all(), turn(index)))
    }

    fn raise(
        &self,
        alloc: Global,
        index: u32,
        facts: &mut Table<u32, Truth>,
    ) -> Result<bool, NoMemory> {
        self.count_call();
        let part = turn(index);
        if !rises(facts.parts.all(), part) {
            return Ok(false);
        }
        make_yes(alloc, facts, part);
        Ok(true)
    }

    fn again(
        &self,
        index: u32,
        _facts: &Table<u32, Truth>,
        list: &mut Vec<u32>,
    ) -> Result<(), NoMemory> {
        let part = turn(index);
        if part > 0 {
            list.push(turn(part - 1))?;
        }
        Ok(())
    }

    fn settles(&self, _index: u32) -> bool {
        false
    }

    fn room(&self, facts: &Table<u32, Truth>) -> u128 {
        facts
            .parts
            .all()
            .iter()
            .filter(|truth| truth.is_no())
            .count() as u128
    }

    fn waits(&self, _index: u32) -> bool {
        false
    }

    ghost fitting_alike = { λ _ f g h k. chains_alike f g h k };

    ghost again_counts = { λ _ i _ _ _. before_counts (turned i) };

    ghost again_itself = { λ _ _ _ _ none _ _ _ _. never_settles none };

    ghost again_lists = { λ _ i k f g _ small chain _ raised met. chain_lists i k f g small chain raised met };
}

/// The part that the constraint of a number is about, and the number of the constraint about a part.
fn turn(number: u32) -> u32
    requires { number < 1000 }
    ensures value { result ≡ turned number }
    ensures below { result < 1000 }
{
    501 * number % COUNT
}

/// Whether a part is yes.
fn is_yes(parts: &[Truth], part: u32) -> bool
    ensures { IsTrue result ↔ slice_get parts.now part ≡ Some Truth.Yes }
{
    match at(parts, part as usize) {
        Some(truth) => !truth.is_no(),
        None => false,
    }
}

/// Whether a part has to be yes.
fn is_asked(parts: &[Truth], part: u32) -> bool
    requires { part < 1000 }
    ensures { IsTrue result ↔ IsAsked part parts.now }
{
    part == COUNT - 1 || is_yes(parts, part + 1)
}

/// Whether a part is no and has to be yes.
fn rises(parts: &[Truth], part: u32) -> bool
    requires part { part < 1000 }
    requires parts { length parts.now ≡ 1000 }
    ensures asked { IsTrue result → IsAsked part parts.now }
    ensures no { IsTrue result → slice_get parts.now part ≡ Some Truth.No }
    ensures rests { result ≡ false → IsAsked part parts.now → slice_get parts.now part ≡ Some Truth.Yes }
{
    is_asked(parts, part) && !is_yes(parts, part)
}

/// Makes a part yes.
fn make_yes(alloc: Global, facts: &mut Table<u32, Truth>, part: u32)
    requires { part < length facts.old.parts }
    ensures keys { facts.new.keys ≡ facts.old.keys }
    ensures parts { facts.new.parts ≡ slice_set facts.old.parts part Truth.Yes }
{
    let mut parts = replace(&mut facts.parts, List::of(Vec::new(alloc))).into_vec();
    parts[part as usize] = Truth::Yes;
    facts.parts = List::of(parts);
}
