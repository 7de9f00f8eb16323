//! The structures of the program, in order.

ghost use Rattle.std.specs.Prelude.{◌≡◌, ◌++◌, ◌∷◌, [], IfOk, OnOk, nat_eq, filter, not, fold, map, if◌then◌else◌};
ghost use Rattle.std.specs.List.{list_any, position_or_len};
ghost use Rattle.indexmap.specs.IndexSet.{insert_key};
ghost use Rattle.cc_structures.specs.Ordered.{firsts_behind, classes_of, positions_of};
ghost use Rattle.cc_structures.specs.Structures.{is_complete};
ghost use Rattle.cc_structures.specs.View.{known_of, knowns_of};

use crate::known::Known;
use crate::refined::number_at;
use cc_program::num::{List, NoMemory};
use indexmap::IndexSet;
use std::alloc::Global;

/// The first structures of classes, and the numbers of these.
#[derive(Drop)]
pub struct Firsts<'t> {
    pub found: IndexSet<u32>,
    pub firsts: Vec<Known<'t>>,
}

/// Puts a structure behind others, where it belongs there.
#[tactic(auto, using(crate::proofs::OrderLemmas::of_order))]
fn put_if<'t>(belongs: bool, s: &Known<'t>, order: &mut Vec<Known<'t>>) -> Result<(), NoMemory>
    ensures { OnOk result (knowns_of order.new.items ≡ knowns_of order.old.items ++ (if belongs then known_of s.now ∷ [] else [])) }
{
    if belongs {
        order.push(*s)?;
    }
    Ok(())
}

/// Puts the structures that are only named behind others.
fn put_named<'t>(knowns: &[Known<'t>], order: &mut Vec<Known<'t>>) -> Result<(), NoMemory>
    ensures { OnOk result (knowns_of order.new.items ≡ knowns_of order.old.items ++ filter (λ s. not (is_complete s)) (knowns_of knowns.now)) }
{
    for s in knowns {
        put_if(!s.structure.members.is_some(), s, order)?;
    }
    Ok(())
}

/// Puts those with members behind others.
fn put_complete<'t>(knowns: &[Known<'t>], order: &mut Vec<Known<'t>>) -> Result<(), NoMemory>
    ensures { OnOk result (knowns_of order.new.items ≡ knowns_of order.old.items ++ filter is_complete (knowns_of knowns.now)) }
{
    for s in knowns {
        put_if(s.structure.members.is_some(), s, order)?;
    }
    Ok(())
}

/// All structures, those that are only named in front.
#[tactic(auto, using(crate::proofs::OrderLemmas::of_order))]
fn in_order<'t>(alloc: Global, knowns: &[Known<'t>]) -> Result<Vec<Known<'t>>, NoMemory>
    ensures { IfOk result (λ order. knowns_of order.items ≡ filter (λ s. not (is_complete s)) (knowns_of knowns.now) ++ filter is_complete (knowns_of knowns.now)) }
{
    let mut order = Vec::new(alloc);
    put_named(knowns, &mut order)?;
    put_complete(knowns, &mut order)?;
    Ok(order)
}

/// Puts a structure behind others, where it is the first of its class.
#[tactic(auto, using(crate::proofs::OrderLemmas::of_order))]
fn put_first<'t>(
    s: &Known<'t>,
    number: u32,
    found: &mut IndexSet<u32>,
    firsts: &mut Vec<Known<'t>>,
) -> Result<(), NoMemory>
    ensures found { OnOk result (found.new.keys ≡ insert_key nat_eq found.old.keys number) }
    ensures firsts { OnOk result (knowns_of firsts.new.items ≡ knowns_of firsts.old.items ++ (if list_any (nat_eq number) found.old.keys then [] else known_of s.now ∷ [])) }
{
    if found.insert(number)? {
        firsts.push(*s)?;
    }
    Ok(())
}

/// Puts the first structures of classes, where no class is found so far.
fn put_firsts<'t>(
    order: &[Known<'t>],
    numbers: &[List<u32>],
    found: &mut IndexSet<u32>,
    firsts: &mut Vec<Known<'t>>,
) -> Result<(), NoMemory>
    requires found { found.old.keys ≡ [] }
    requires firsts { firsts.old.items ≡ [] }
    ensures found { OnOk result (found.new.keys ≡ fold (insert_key nat_eq) [] (classes_of numbers.now (knowns_of order.now))) }
    ensures firsts { OnOk result (knowns_of firsts.new.items ≡ firsts_behind numbers.now [] (knowns_of order.now)) }
{
    for s in order {
        put_first(s, number_at(numbers, s.text, s.position), found, firsts)?;
    }
    Ok(())
}

/// The first structures of classes.
fn firsts_of<'t>(
    alloc: Global,
    order: &[Known<'t>],
    numbers: &[List<u32>],
) -> Result<Firsts<'t>, NoMemory>
    ensures found { IfOk result (λ r. r.found.keys ≡ fold (insert_key nat_eq) [] (classes_of numbers.now (knowns_of order.now))) }
    ensures firsts { IfOk result (λ r. knowns_of r.firsts.items ≡ firsts_behind numbers.now [] (knowns_of order.now)) }
{
    let mut found = IndexSet::new(alloc);
    let mut firsts = Vec::new(alloc);
    put_firsts(order, numbers, &mut found, &mut firsts)?;
    Ok(Firsts { found, firsts })
}

/// The first structures of classes, those that are only named in front.
pub fn firsts_in_order<'t>(
    alloc: Global,
    knowns: &[Known<'t>],
    numbers: &[List<u32>],
) -> Result<Firsts<'t>, NoMemory>
    ensures found { IfOk result (λ r. r.found.keys ≡ fold (insert_key nat_eq) [] (classes_of numbers.now (filter (λ s. not (is_complete s)) (knowns_of knowns.now) ++ filter is_complete (knowns_of knowns.now)))) }
    ensures firsts { IfOk result (λ r. knowns_of r.firsts.items ≡ firsts_behind numbers.now [] (filter (λ s. not (is_complete s)) (knowns_of knowns.now) ++ filter is_complete (knowns_of knowns.now))) }
{
    let order = in_order(alloc, knowns)?;
    firsts_of(alloc, order.as_slice(), numbers)
}

/// The position of a number among those found, or how many there are.
#[tactic(auto, using(crate::proofs::OrderLemmas::of_positions))]
fn index_in(found: &IndexSet<u32>, number: u32) -> usize
    ensures { result ≡ position_or_len (nat_eq number) found.now.keys }
{
    found.get_index_of(&number).unwrap_or(found.len())
}

/// The same, as a number of a structure.
fn position_in(found: &IndexSet<u32>, number: u32) -> Result<u32, NoMemory>
    ensures { IfOk result (λ i. i ≡ position_or_len (nat_eq number) found.now.keys) }
{
    u32::try_from(index_in(found, number)).ok().ok_or(NoMemory)
}

/// The positions of the numbers of all structures among those found.
pub fn positions(
    alloc: Global,
    found: &IndexSet<u32>,
    knowns: &[Known<'_>],
    numbers: &[List<u32>],
) -> Result<Vec<u32>, NoMemory>
    ensures { IfOk result (λ r. r.items ≡ positions_of numbers.now found.now.keys (knowns_of knowns.now)) }
{
    let mut positions = Vec::new(alloc);
    for s in knowns {
        positions.push(position_in(found, number_at(numbers, s.text, s.position))?)?;
    }
    Ok(positions)
}
