//! Systems of constraints: what the solver makes of the chain.

ghost use Rattle.std.specs.Prelude.{◌<◌};
ghost use Rattle.cases_domains.specs.Chain.{IsChain};

use crate::chain::{Chain, Truth};
use cases_script::Page;
use cc_fix::{System, least};
use cc_lattice::{Lattice, Table, copied};
use cc_program::num::NoMemory;
use std::alloc::Global;
use std::cell::Cell;

/// How many parts are yes.
fn yes_in(facts: &Table<u32, Truth>) -> usize {
    facts
        .parts
        .all()
        .iter()
        .filter(|truth| matches!(truth, Truth::Yes))
        .count()
}

/// Writes what the solver makes of the chain.
fn write_least(alloc: Global, page: &mut Page) -> Result<(), NoMemory> {
    let chain = Chain {
        calls: Cell::new(0),
    };
    let facts = least(alloc, &chain)?;
    page.show(yes_in(&facts));
    page.put(" of ");
    page.show(facts.keys.all().len());
    page.put(" are yes, after ");
    page.put(if chain.calls.get() <= 8000 {
        "at most"
    } else {
        "more than"
    });
    page.put(" 8000 calls");
    Ok(())
}

/// Whether facts meet a constraint of any system.
fn is_met<S: System>(
    alloc: Global,
    system: &S,
    index: u32,
    facts: &S::Facts,
) -> Result<bool, NoMemory>
    requires ready { S.IsReady system.now }
    requires fitting { S.IsFitting system.now facts.now }
    requires index { index < S.count_of system.now }
{
    system.met(alloc, index, facts)
}

/// How far facts of any system may rise.
fn room_of<S: System>(system: &S, facts: &S::Facts) -> u128
    requires ready { S.IsReady system.now }
    requires fitting { S.IsFitting system.now facts.now }
{
    system.room(facts)
}

/// Writes how the lowest facts of the chain and its least solution are ordered, joined and copied.
#[tactic(auto, using(crate::specs::ChainLaws::chains_alike))]
fn write_order(
    alloc: Global,
    page: &mut Page,
    chain: &Chain,
    lowest: &Table<u32, Truth>,
    solution: &Table<u32, Truth>,
) -> Result<(), NoMemory>
    requires lowest { IsChain lowest.now }
    requires solution { IsChain solution.now }
{
    page.debug(lowest.below(solution));
    page.put(", the other way ");
    page.debug(solution.below(lowest));
    page.put("; yes in the join ");
    page.show(yes_in(&lowest.join(alloc, solution)?));
    page.put(", in a copy of the lowest ");
    page.show(yes_in(&copied(alloc, lowest)?));
    page.put("; rooms ");
    page.show(room_of(chain, lowest));
    page.put(" and ");
    page.show(room_of(chain, solution));
    Ok(())
}

/// Writes which constraint of the chain the two facts meet.
fn write_met(
    alloc: Global,
    page: &mut Page,
    chain: &Chain,
    lowest: &Table<u32, Truth>,
    solution: &Table<u32, Truth>,
) -> Result<(), NoMemory>
    requires lowest { IsChain lowest.now }
    requires solution { IsChain solution.now }
{
    page.put("of part 0 ");
    page.debug(is_met(alloc, chain, 0, lowest)?);
    page.put(", of part 999 ");
    page.debug(is_met(alloc, chain, 499, lowest)?);
    page.put(", in the solution ");
    page.debug(is_met(alloc, chain, 499, solution)?);
    Ok(())
}

/// Writes what a case asks of the lowest facts of the chain and of its least solution.
fn write_of_both(alloc: Global, page: &mut Page, case: &str) -> Result<(), NoMemory> {
    let chain = Chain {
        calls: Cell::new(0),
    };
    let lowest = chain.lowest(alloc)?;
    let solution = least(alloc, &chain)?;
    match case {
        "order" => write_order(alloc, page, &chain, &lowest, &solution),
        _ => write_met(alloc, page, &chain, &lowest, &solution),
    }
}

/// Writes what a case gives.
pub fn write_outcome(alloc: Global, page: &mut Page, case: &str) {
    let outcome = match case {
        "least" => write_least(alloc, page),
        "order" | "met" => write_of_both(alloc, page, case),
        _ => {
            page.put("unclear");
            Ok(())
        }
    };
    if outcome.is_err() {
        page.put("no memory");
    }
}
