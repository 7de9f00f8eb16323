//! Sets of addresses that are moved by numbers (C99 6.5.6, 8).

ghost use Rattle.std.specs.Prelude.{◌≡◌, ◌⊎◌, false, true, IsTrue, IfOk};
ghost use Rattle.std.specs.List.{filter};
ghost use Rattle.cc_program.specs.declared.value.Address.TheVariants as address;
ghost use Rattle.cc_places.specs.Kept.{is_object};
ghost use Rattle.cc_places.specs.Members.{are_members};
ghost use Rattle.cc_places.specs.Sets.{HasAddress, IsSetOf};
ghost use Rattle.cc_places.specs.Moves.{IsMoved, AreMoved, HasMoved};

use crate::addrs::Addrs;
use crate::grow::with;
use cc_lattice::Concrete;
use cc_program::num::{List, NoMemory};
use cc_program::{Address, Part, Root, copy_list};
use std::alloc::Global;

impl Addrs {
    /// The set of the addresses to which those of the set are moved by the numbers of another one, without a
    /// trap. The addresses of a starred place stay in it; null and functions trap.
    pub fn moved<I: Concrete>(&self, alloc: Global, by: &I) -> Result<Addrs, NoMemory>
        ensures { IfOk result (λ r. IsSetOf (HasMoved (I.Has by.now) self.now self.now.is_exact) r) }
    {
        if self.is_exact {
            moved_members(alloc, self.members.all(), by)
        } else {
            moved_places(alloc, self, by)
        }
    }

    /// The set with the addresses to which one is moved by the numbers of another set, without a trap.
    pub fn with_moved<I: Concrete>(
        self,
        alloc: Global,
        a: &Address,
        by: &I,
    ) -> Result<Addrs, NoMemory>
        ensures { IfOk result (λ r. IsSetOf (λ b. HasAddress self b ⊎ IsMoved (I.Has by.now) a.now b) r) }
    {
        with_moved(alloc, self, a, by)
    }
}

/// The set of the addresses to which those of a list are moved.
fn moved_members<I: Concrete>(alloc: Global, members: &[Address], by: &I) -> Result<Addrs, NoMemory>
    ensures { IfOk result (λ r. IsSetOf (AreMoved (I.Has by.now) members.now) r) }
{
    let mut all = Addrs::none(alloc);
    for member in members {
        all = with_moved(alloc, all, member, by)?;
    }
    Ok(all)
}

/// The set with the addresses to which one is moved.
fn with_moved<I: Concrete>(
    alloc: Global,
    set: Addrs,
    a: &Address,
    by: &I,
) -> Result<Addrs, NoMemory>
    ensures { IfOk result (λ r. IsSetOf (λ b. HasAddress set b ⊎ IsMoved (I.Has by.now) a.now b) r) }
{
    match a {
        Address::Null => Ok(set),
        Address::Func(_) => Ok(set),
        Address::At {
            object,
            path,
            index,
            count,
        } => with_elements(alloc, set, *object, path, *index, *count, by),
    }
}

/// The set with the elements of an array to which one of them is moved. Once the set is not exact, one of
/// them stands for all.
fn with_elements<I: Concrete>(
    alloc: Global,
    set: Addrs,
    object: Root,
    path: &List<Part>,
    index: u32,
    count: u32,
    by: &I,
) -> Result<Addrs, NoMemory>
    ensures { IfOk result (λ r. IsSetOf (λ b. HasAddress set b ⊎ IsMoved (I.Has by.now) (address.At object path.now index count) b) r) }
{
    let mut all = set;
    for next in 0..u64::from(count) + 1 {
        if by.has(i128::from(next) - i128::from(index)) {
            let element = Address::At {
                object,
                path: copy_list(alloc, path)?,
                index: next as u32,
                count,
            };
            all = with(alloc, all, &element)?;
            if !all.is_exact {
                return Ok(all);
            }
        }
    }
    Ok(all)
}

/// The places of a set that is not exact, without null and functions.
fn moved_places<I: Concrete>(alloc: Global, set: &Addrs, by: &I) -> Result<Addrs, NoMemory>
    requires { set.now.is_exact ≡ false }
    ensures { IfOk result (λ r. IsSetOf (HasMoved (I.Has by.now) set.now set.now.is_exact) r) }
{
    let places = objects(alloc, set.members.all())?;
    if places.is_empty() {
        Ok(Addrs::none(alloc))
    } else {
        Ok(Addrs {
            is_exact: false,
            members: List::of(places),
        })
    }
}

/// The objects among some addresses.
fn objects(alloc: Global, members: &[Address]) -> Result<Vec<Address>, NoMemory>
    ensures { IfOk result (λ r. r.items ≡ filter is_object members.now) }
{
    let mut places = Vec::new(alloc);
    for member in members {
        if matches!(member, Address::At { .. }) {
            places.push(member.copy(alloc)?)?;
        }
    }
    Ok(places)
}
