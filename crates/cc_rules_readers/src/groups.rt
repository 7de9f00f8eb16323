//! Points in groups, by a number that their statements have.

ghost use Rattle.std.specs.Prelude.{◌≡◌, ◌≤◌, ◌<◌, ◌++◌, ℕ, length, slice_get, option_and_then, vec_len, IfOk, OnOk};
ghost use Rattle.cc_rules_readers.specs.Points.{list_at, group_at, group_of as group_of_deed, callee_in as callee_of, is_that, group};
ghost use Rattle.cc_rules_asked.specs.CcStateKeys.Lists.{only_if};

use crate::deeds::{Called, Deed};
use cc_program::num::{NoMemory, at};
use std::alloc::Global;

/// By what points are put into groups.
#[derive(Clone, Copy)]
pub(crate) enum By {
    /// Their function.
    Function,
    /// The function that they call by its address.
    Callee,
    /// The static object that they read.
    Object,
    /// The function whose local they read.
    Local,
    /// The position of the member that they read.
    Member,
}

/// Ascending lists of points, each by its number.
#[derive(Drop)]
pub struct Groups {
    pub(crate) lists: Vec<Vec<u32>>,
}

impl Groups {
    /// The points of a group.
    pub(crate) fn points(&self, number: u32) -> &[u32]
        ensures { result.now ≡ group_at self.now number }
    {
        match at(&self.lists, number as usize) {
            None => &[],
            Some(points) => points.as_slice(),
        }
    }
}

/// The function that is called by its address.
fn callee_in(called: Called) -> Option<u32>
    ensures { result ≡ callee_of called }
{
    match called {
        Called::Function(g) => Some(g),
        Called::Nothing | Called::Each => None,
    }
}

/// The group of what a statement does.
fn group_of(by: By, deed: &Deed) -> Option<u32>
    ensures { result ≡ group_of_deed by deed.now }
{
    match by {
        By::Function => Some(deed.func),
        By::Callee => callee_in(deed.called),
        By::Object => deed.read.object(),
        By::Local => deed.read.function(),
        By::Member => deed.read.member(),
    }
}

/// The group of a point.
fn group_of_point(by: By, deeds: &[Deed], point: u32) -> Option<u32>
    ensures { result ≡ option_and_then (group_of_deed by) (slice_get deeds.now point) }
{
    match at(deeds, point as usize) {
        None => None,
        Some(deed) => group_of(by, deed),
    }
}

/// Adds empty lists, up to that of a number.
fn grow(alloc: Global, lists: &mut Vec<Vec<u32>>, number: usize) -> Result<(), NoMemory>
    ensures there { OnOk result (number < vec_len lists.new) }
    ensures same { OnOk result ((b : ℕ) → list_at lists.new.items b ≡ list_at lists.old.items b) }
{
    while lists.len() <= number {
        lists.push(Vec::new(alloc))?;
    }
    Ok(())
}

/// Puts a point behind those of a list.
fn put_at(lists: &mut Vec<Vec<u32>>, number: usize, point: u32) -> Result<(), NoMemory>
    requires { number < vec_len lists.old }
    ensures { OnOk result ((b : ℕ) → list_at lists.new.items b ≡ list_at lists.old.items b ++ only_if (is_that (Some number) b) point) }
{
    lists[number].push(point)?;
    Ok(())
}

/// Puts a point behind those of its group, where it has one.
fn put(
    alloc: Global,
    lists: &mut Vec<Vec<u32>>,
    number: Option<u32>,
    point: u32,
) -> Result<(), NoMemory>
    ensures { OnOk result ((b : ℕ) → list_at lists.new.items b ≡ list_at lists.old.items b ++ only_if (is_that number b) point) }
{
    match number {
        None => Ok(()),
        Some(number) => {
            grow(alloc, lists, number as usize)?;
            put_at(lists, number as usize, point)
        }
    }
}

/// The points in groups.
pub(crate) fn grouped(alloc: Global, deeds: &[Deed], by: By) -> Result<Groups, NoMemory>
    requires { length deeds.now ≤ 65536 }
    ensures { IfOk result (λ groups. (b : ℕ) → group_at groups b ≡ group deeds.now by b) }
{
    let mut lists = Vec::new(alloc);
    for point in 0..deeds.len() as u32 {
        let number = group_of_point(by, deeds, point);
        put(alloc, &mut lists, number, point)?;
    }
    Ok(Groups { lists })
}
