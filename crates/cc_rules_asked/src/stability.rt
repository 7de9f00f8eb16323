//! What is asked where the flag may be on of tracked cells that handlers which may enter may write: that they have what they may have in
//! the whole run, and that no register is known to equal one.

ghost use Rattle.std.specs.Prelude.{◌≡◌, ◌<◌, ◌^◌, ◌++◌, length, slice_get, option_and_then, IfOk, OnOk, if◌then◌else◌, []};
ghost use Rattle.std.specs.List.{flat_map};
ghost use Rattle.cc_rules.specs.Constraints.{Stability};
ghost use Rattle.cc_rules_asked.specs.Asks.{AsksHere};
ghost use Rattle.cc_rules_asked.specs.Unstable.{AreCellKeysOf, key_at as key_at_of, is_unstable_by, unstable_by, parts_of_cells, parts_apart, parts_unstable, unstable_in};
ghost use Rattle.cc_rules.specs.CcRulesFlows.Acts.{Act as ActOf};
ghost use Rattle.cc_rules.specs.CcRulesFlows.Here.{IsHere};
ghost use Rattle.cc_rules.specs.CcRulesNeeds.Flowing.{numbers};
ghost use Rattle.cc_rules.specs.CcStateOperators.Domains.{domain};

use crate::asked::Asked;
use crate::marks::levels;
use crate::sets::copied_set;
use cc_program::num::{NoMemory, at};
use cc_rules::lattice::IntDomain;
use cc_rules::places::Abs;
use cc_rules::rules_flows::Here;
use cc_rules::rules_needs::{Part, Slot};
use cc_rules::state_facts::one_may_enter;
use std::alloc::Global;

/// Whether handlers that may enter may write a cell, by the number of its key.
fn is_unstable(running: u8, writers: &[u8], key: Option<u32>) -> bool
    ensures { result ≡ is_unstable_by running writers.now key }
{
    match key {
        None => false,
        Some(key) => one_may_enter(running, levels(writers, key as usize)),
    }
}

/// The number of a cell's key.
fn key_at(keys: &[Option<u32>], cell: u32) -> Option<u32>
    ensures { result ≡ key_at_of keys.now cell }
{
    match at(keys, cell as usize) {
        None => None,
        Some(key) => *key,
    }
}

/// The cells that are such.
fn unstable_cells(
    alloc: Global,
    running: u8,
    writers: &[u8],
    keys: &[Option<u32>],
) -> Result<Vec<u32>, NoMemory>
    requires { length keys.now < 2 ^ 32 }
    ensures { IfOk result (λ cells. cells.items ≡ unstable_by running writers.now keys.now) }
{
    let mut cells = Vec::new(alloc);
    for cell in 0..keys.len() {
        if is_unstable(running, writers, key_at(keys, cell as u32)) {
            cells.push(cell as u32)?;
        }
    }
    Ok(cells)
}

/// A set of the whole run.
fn whole_set<I: IntDomain>(
    alloc: Global,
    whole: &[Abs<I>],
    key: Option<u32>,
) -> Result<Option<Abs<I>>, NoMemory>
    ensures { IfOk result (λ set. set ≡ option_and_then (slice_get whole.now) key) }
{
    match key {
        None => Ok(None),
        Some(key) => match at(whole, key as usize) {
            None => Ok(None),
            Some(set) => Ok(Some(copied_set(alloc, set)?)),
        },
    }
}

/// That cells have what they may have in the whole run.
fn put_cells<I: IntDomain>(
    alloc: Global,
    asked: &mut Vec<Asked<I>>,
    number: u32,
    whole: &[Abs<I>],
    keys: &[Option<u32>],
    cells: &[u32],
) -> Result<(), NoMemory>
    ensures { OnOk result (asked.new.items ≡ asked.old.items ++ parts_of_cells number whole.now keys.now cells.now) }
{
    for cell in cells {
        let set = whole_set(alloc, whole, key_at(keys, *cell))?;
        asked.push(Asked::Part(Slot::CellAt(number, *cell), Part::Values(set)))?;
    }
    Ok(())
}

/// That a register is known to equal none of the cells.
fn put_apart<I: IntDomain>(
    asked: &mut Vec<Asked<I>>,
    number: u32,
    register: u32,
    cells: &[u32],
) -> Result<(), NoMemory>
    ensures { OnOk result (asked.new.items ≡ asked.old.items ++ parts_apart number cells.now register) }
{
    for cell in cells {
        asked.push(Asked::Part(Slot::Apart(number, register, *cell), Part::Mark(true)))?;
    }
    Ok(())
}

/// That none of so many registers is.
fn put_all_apart<I: IntDomain>(
    asked: &mut Vec<Asked<I>>,
    number: u32,
    registers: usize,
    cells: &[u32],
) -> Result<(), NoMemory>
    requires { registers < 2 ^ 32 }
    ensures { OnOk result (asked.new.items ≡ asked.old.items ++ flat_map (parts_apart number cells.now) (numbers 0 registers)) }
{
    for register in 0..registers {
        put_apart(asked, number, register as u32, cells)?;
    }
    Ok(())
}

/// What is asked of such cells.
fn asked_of_cells<I: IntDomain>(
    alloc: Global,
    number: u32,
    whole: &[Abs<I>],
    keys: &[Option<u32>],
    cells: &[u32],
    registers: usize,
) -> Result<Vec<Asked<I>>, NoMemory>
    requires { registers < 2 ^ 32 }
    ensures { IfOk result (λ asked. asked.items ≡ parts_unstable number whole.now keys.now cells.now registers) }
{
    let mut asked = Vec::new(alloc);
    put_cells(alloc, &mut asked, number, whole, keys, cells)?;
    put_all_apart(&mut asked, number, registers, cells)?;
    Ok(asked)
}

/// The same of the cells that are unstable at a point, where the flag may be on.
fn asked_if_on<I: IntDomain>(
    alloc: Global,
    here: &Here<'_, I>,
    keys: &[Option<u32>],
) -> Result<Vec<Asked<I>>, NoMemory>
    requires few { length here.now.context.registers.now < 2 ^ 32 }
    requires few_keys { length keys.now < 2 ^ 32 }
    ensures { IfOk result (λ asked. asked.items ≡ (if here.now.fact.now.on then unstable_in here.now keys.now else [])) }
{
    if !here.fact.on {
        return Ok(Vec::new(alloc));
    }
    let running = levels(here.facts.levels.all(), here.context.id as usize);
    let cells = unstable_cells(alloc, running, here.facts.write_levels.all(), keys)?;
    let registers = here.context.registers.len();
    asked_of_cells(
        alloc,
        here.number,
        here.facts.whole.all(),
        keys,
        &cells,
        registers,
    )
}

/// What is asked by the rule of stability, of which these are the numbers of the keys of the tracked cells.
pub fn asked_by_stability<I: IntDomain>(
    alloc: Global,
    here: &Here<'_, I>,
    keys: &[Option<u32>],
) -> Result<Vec<Asked<I>>, NoMemory>
    requires here { IsHere (domain I.Has I.IsBelow I.OpGives I.OpOneGives I.ToGives I.KeepGives I.members_of) here.now }
    requires keys { AreCellKeysOf here.now.context.program.now keys.now }
    requires few { length keys.now < 2 ^ 32 }
    ensures { IfOk result (λ asked. (act : ActOf) → AsksHere (domain I.Has I.IsBelow I.OpGives I.OpOneGives I.ToGives I.KeepGives I.members_of) here.now Stability act asked.items) }
{
    asked_if_on(alloc, here, keys)
}
