ghost use Rattle.std.specs.Prelude.{◌≡◌, ◌<◌, ◌++◌, ◌∷◌, [], IfOk, OnOk, length};
ghost use Rattle.cc_lattice.specs.Systems.{MeetsAll};
ghost use Rattle.cc_fix.specs.Work.{listed, itself_unless, IsWork, IsBelowSolutions, Goes};

use crate::system::System;
use crate::work::{Work, every, next, put_all};
use cc_num::NoMemory;
use std::alloc::Global;

/// The least facts that meet every constraint of a system: a solution that is below every solution.
///
/// Constraints that facts may not meet are listed, and no other is looked at. A constraint that raises the facts is listed again
/// itself, since what it asks may have risen with them, unless it settles. Those that wait are asked where no other one is listed.
pub fn least<S: System>(alloc: Global, system: &S) -> Result<S::Facts, NoMemory>
    requires ready { S.IsReady system.now }
    ensures fitting { IfOk result (λ f. S.IsFitting system.now f) }
    ensures solution { IfOk result (λ f. MeetsAll (S.count_of system.now) (S.Asks system.now) f) }
    ensures least { IfOk result (λ f. (g : S.Facts) → S.IsFitting system.now g → MeetsAll (S.count_of system.now) (S.Asks system.now) g → S.Facts.IsBelow f g) }
{
    let mut facts = system.lowest(alloc)?;
    let mut work = every(alloc, system)?;
    while let Some(index) = next(&mut work) {
        settle(alloc, system, index, &mut facts, &mut work)?;
    }
    Ok(facts)
}

/// The constraints that facts may not meet once a constraint has raised them.
fn unsettled<S: System>(
    alloc: Global,
    system: &S,
    index: u32,
    facts: &S::Facts,
) -> Result<Vec<u32>, NoMemory>
    requires ready { S.IsReady system.now }
    requires fitting { S.IsFitting system.now facts.now }
    requires index { index < S.count_of system.now }
    ensures { IfOk result (λ list. list.items ≡ itself_unless (S.settles_of system.now index) index ++ S.again_of system.now index facts.now) }
{
    let mut list = Vec::new(alloc);
    if !system.settles(index) {
        list.push(index)?;
    }
    system.again(index, facts, &mut list)?;
    Ok(list)
}

/// Raises the facts by a constraint that was taken out of the lists, and lists what they may not meet then.
fn settle<S: System>(
    alloc: Global,
    system: &S,
    index: u32,
    facts: &mut S::Facts,
    work: &mut Work,
) -> Result<(), NoMemory>
    requires ready { S.IsReady system.now }
    requires fitting { S.IsFitting system.now facts.old }
    requires index { index < S.count_of system.now }
    requires work { IsWork (S.count_of system.now) (S.Asks system.now) facts.old work.old.pending.items (listed work.old ++ index ∷ []) }
    requires below { IsBelowSolutions (S.IsFitting system.now) S.Facts.IsBelow (S.count_of system.now) (S.Asks system.now) facts.old }
    ensures fitting { S.IsFitting system.now facts.new }
    ensures work { OnOk result (IsWork (S.count_of system.now) (S.Asks system.now) facts.new work.new.pending.items (listed work.new)) }
    ensures below { OnOk result (IsBelowSolutions (S.IsFitting system.now) S.Facts.IsBelow (S.count_of system.now) (S.Asks system.now) facts.new) }
    ensures goes { OnOk result (Goes (S.room_of system.now facts.old) (length (listed work.old)) (S.room_of system.now facts.new) (length (listed work.new))) }
{
    work.pending[index as usize] = false;
    if system.raise(alloc, index, facts)? {
        let again = unsettled(alloc, system, index, facts)?;
        put_all(system, work, &again)?;
    }
    Ok(())
}
