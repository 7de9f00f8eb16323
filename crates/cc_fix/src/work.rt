//! Which constraints are listed.

ghost use Rattle.std.specs.Prelude.{◌≡◌, ◌<◌, ◌∷◌, [], None, false, length, replicate, All, IfOk, IfSome, OnOk};
ghost use Rattle.cc_fix.specs.Work.{listed, AreAll, ArePut, IsPushed, IsTaken};

use crate::system::System;
use cc_num::NoMemory;
use std::alloc::Global;

/// The constraints that facts may not meet.
#[derive(Drop)]
pub struct Work {
    /// Those that do not wait, the next one last.
    pub first: Vec<u32>,
    /// Those that are asked where no other one is listed, the next one last.
    pub later: Vec<u32>,
    /// By constraint: whether it is listed.
    pub pending: Vec<bool>,
}

/// Of so many constraints none is listed.
fn none(alloc: Global, count: u32) -> Result<Work, NoMemory>
    ensures pending { IfOk result (λ work. work.pending.items ≡ replicate count false) }
    ensures listed { IfOk result (λ work. listed work ≡ []) }
{
    let pending = vec![in alloc; false; count as usize]?;
    Ok(Work {
        first: Vec::new(alloc),
        later: Vec::new(alloc),
        pending,
    })
}

/// Puts a constraint behind those that wait, or behind the others.
fn push(work: &mut Work, index: u32, waits: bool) -> Result<(), NoMemory>
    ensures { OnOk result (IsPushed index work.old work.new) }
{
    if waits {
        Ok(work.later.push(index)?)
    } else {
        Ok(work.first.push(index)?)
    }
}

/// Lists a constraint, where it is not.
fn put<S: System>(system: &S, work: &mut Work, index: u32) -> Result<(), NoMemory>
    requires { index < length work.old.pending.items }
    ensures { OnOk result (ArePut (index ∷ []) work.old.pending.items (listed work.old) work.new.pending.items (listed work.new)) }
{
    if work.pending[index as usize] {
        return Ok(());
    }
    work.pending[index as usize] = true;
    push(work, index, system.waits(index))
}

/// Lists constraints, where they are not.
pub(crate) fn put_all<S: System>(system: &S, work: &mut Work, list: &[u32]) -> Result<(), NoMemory>
    requires { All (λ j. j < length work.old.pending.items) list.now }
    ensures { OnOk result (ArePut list.now work.old.pending.items (listed work.old) work.new.pending.items (listed work.new)) }
{
    for index in list {
        put(system, work, *index)?;
    }
    Ok(())
}

/// All constraints of a system, listed so that the first one is the next.
pub(crate) fn every<S: System>(alloc: Global, system: &S) -> Result<Work, NoMemory>
    requires { S.IsReady system.now }
    ensures { IfOk result (λ work. AreAll (S.count_of system.now) work.pending.items (listed work)) }
{
    let count = system.count();
    let mut work = none(alloc, count)?;
    for number in (0..count).rev() {
        put(system, &mut work, number)?;
    }
    Ok(work)
}

/// Takes the next constraint out of the lists: one that waits only where there is no other.
pub(crate) fn next(work: &mut Work) -> Option<u32>
    ensures taken { IfSome result (λ index. IsTaken index work.old work.new) }
    ensures none { result ≡ None → listed work.old ≡ [] }
{
    match work.first.pop() {
        Some(index) => Some(index),
        None => work.later.pop(),
    }
}
