//! The addresses of members and elements of what a set of addresses may name.

ghost use Rattle.std.specs.Prelude.{◌≡◌, ◌⊎◌, [], IfOk};
ghost use Rattle.cc_places.specs.Sets.{HasAddress, IsSetOf};
ghost use Rattle.cc_eval.specs.CcTyped.View.{place_view};
ghost use Rattle.cc_state_operators.specs.Addresses.{member_address as member_address_of, IsOnly, object_address, AreMembers, AreElements, IsElement, FromEach};

use crate::named::{member_address, named_by};
use cc_eval::typed::{PlaceType, bound_of};
use cc_lattice::Concrete;
use cc_places::Addrs;
use cc_program::num::{List, NoMemory};
use cc_program::{Address, Program, Root};
use std::alloc::Global;

/// The set of the address of a named object.
pub fn object(alloc: Global, root: Root) -> Result<Addrs, NoMemory>
    ensures { IfOk result (λ r. IsOnly (object_address root []) r) }
{
    only(
        alloc,
        &Address::At {
            object: root,
            path: List::of(Vec::new(alloc)),
            index: 0,
            count: 1,
        },
    )
}

/// The set of an address.
pub fn only(alloc: Global, a: &Address) -> Result<Addrs, NoMemory>
    ensures { IfOk result (λ r. IsOnly a.now r) }
{
    Addrs::one(alloc, a)
}

/// A set with the address of a member of the structure that an address names.
fn with_member(
    alloc: Global,
    set: Addrs,
    p: &Program,
    t: PlaceType,
    m: u32,
    a: &Address,
) -> Result<Addrs, NoMemory>
    ensures { IfOk result (λ r. IsSetOf (λ b. HasAddress set b ⊎ (member_address_of p.now (place_view t.entry) m a.now ≡ Some b)) r) }
{
    match member_address(alloc, p, t, m, a)? {
        None => Ok(set),
        Some(b) => set.with(alloc, &b),
    }
}

/// The set of the addresses of a member of each structure that some addresses name.
fn members_of_each(
    alloc: Global,
    p: &Program,
    t: PlaceType,
    m: u32,
    members: &[Address],
) -> Result<Addrs, NoMemory>
    ensures { IfOk result (λ r. IsSetOf (FromEach (λ a b. member_address_of p.now (place_view t.entry) m a ≡ Some b) members.now) r) }
{
    let mut all = Addrs::none(alloc);
    for member in members {
        all = with_member(alloc, all, p, t, m, member)?;
    }
    Ok(all)
}

/// The addresses of a member of the structures that those of a set name.
pub fn members(
    alloc: Global,
    p: &Program,
    t: PlaceType,
    m: u32,
    s: &Addrs,
) -> Result<Addrs, NoMemory>
    ensures { IfOk result (λ r. AreMembers p.now (place_view t.entry) m s.now r) }
{
    let all = members_of_each(alloc, p, t, m, s.members.all())?;
    if s.is_exact {
        Ok(all)
    } else {
        all.in_places(alloc)
    }
}

/// A set with the addresses of elements of the array that an address names, by subscripts.
fn with_elements<I: Concrete>(
    alloc: Global,
    set: Addrs,
    p: &Program,
    t: PlaceType,
    subscripts: &I,
    a: &Address,
) -> Result<Addrs, NoMemory>
    ensures { IfOk result (λ r. IsSetOf (λ b. HasAddress set b ⊎ IsElement p.now (place_view t.entry) (I.Has subscripts.now) a.now b) r) }
{
    match bound_of(t) {
        None => Ok(set),
        Some(count) => match named_by(alloc, p, t, a)? {
            None => Ok(set),
            Some((object, path)) => {
                let first = Address::At {
                    object,
                    path,
                    index: 0,
                    count,
                };
                set.with_moved(alloc, &first, subscripts)
            }
        },
    }
}

/// The set of the addresses of elements of each array that some addresses name, by subscripts.
fn elements_of_each<I: Concrete>(
    alloc: Global,
    p: &Program,
    t: PlaceType,
    subscripts: &I,
    members: &[Address],
) -> Result<Addrs, NoMemory>
    ensures { IfOk result (λ r. IsSetOf (FromEach (IsElement p.now (place_view t.entry) (I.Has subscripts.now)) members.now) r) }
{
    let mut all = Addrs::none(alloc);
    for member in members {
        all = with_elements(alloc, all, p, t, subscripts, member)?;
    }
    Ok(all)
}

/// The addresses of elements of the arrays that those of a set name, by subscripts.
pub fn elements<I: Concrete>(
    alloc: Global,
    p: &Program,
    t: PlaceType,
    subscripts: &I,
    s: &Addrs,
) -> Result<Addrs, NoMemory>
    ensures { IfOk result (λ r. AreElements p.now (place_view t.entry) (I.Has subscripts.now) s.now r) }
{
    let all = elements_of_each(alloc, p, t, subscripts, s.members.all())?;
    if s.is_exact {
        Ok(all)
    } else {
        all.in_places(alloc)
    }
}
