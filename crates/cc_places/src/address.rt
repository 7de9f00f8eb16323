//! The member under which an address stands in a set.

ghost use Rattle.std.specs.Prelude.{◌≡◌, ◌↔◌, IsTrue, IfOk, map};
ghost use Rattle.cc_places.specs.Kept.{kept_root, kept, starred_part, starred, part_for, path_for, member_for};

use crate::order::compare_paths;
use cc_program::num::{List, NoMemory};
use cc_program::{Address, Part, Root, copy_list};
use std::alloc::Global;

fn kept_root(object: Root) -> Root
    ensures { result ≡ kept_root object }
{
    match object {
        Root::Static(o) => Root::Static(o),
        Root::Auto { func, local, .. } => Root::Auto {
            activation: 0,
            func,
            local,
        },
    }
}

fn starred_part(part: Part) -> Part
    ensures { result ≡ starred_part part }
{
    match part {
        Part::Member(m) => Part::Member(m),
        Part::Index(_) => Part::Index(0),
    }
}

fn starred_path(alloc: Global, path: &[Part]) -> Result<Vec<Part>, NoMemory>
    ensures { IfOk result (λ r. r.items ≡ map starred_part path.now) }
{
    let mut parts = Vec::new(alloc);
    for part in path {
        parts.push(starred_part(*part))?;
    }
    Ok(parts)
}

/// The member under which an address stands, in a set that is exact or is not.
pub(crate) fn member_for(alloc: Global, is_exact: bool, a: &Address) -> Result<Address, NoMemory>
    ensures { IfOk result (λ r. r ≡ member_for is_exact a.now) }
{
    match a {
        Address::Null => Ok(Address::Null),
        Address::Func(f) => Ok(Address::Func(*f)),
        Address::At {
            object,
            path,
            index,
            count,
        } => {
            if is_exact {
                Ok(Address::At {
                    object: kept_root(*object),
                    path: copy_list(alloc, path)?,
                    index: *index,
                    count: *count,
                })
            } else {
                Ok(Address::At {
                    object: kept_root(*object),
                    path: List::of(starred_path(alloc, path.all())?),
                    index: 0,
                    count: *count,
                })
            }
        }
    }
}

/// Whether a member is the one under which an address stands, in a set that is exact or is not.
pub(crate) fn is_member_for(member: &Address, is_exact: bool, a: &Address) -> bool
    ensures { IsTrue result ↔ (member.now ≡ member_for is_exact a.now) }
{
    if is_exact {
        is_kept_of(member, a)
    } else {
        is_starred_of(member, a)
    }
}

fn is_kept_of(member: &Address, a: &Address) -> bool
    ensures { IsTrue result ↔ (member.now ≡ kept a.now) }
{
    match a {
        Address::Null => matches!(member, Address::Null),
        Address::Func(f) => match member {
            Address::Func(g) => g == f,
            _ => false,
        },
        Address::At {
            object: o,
            path: p,
            index: i,
            count: n,
        } => match member {
            Address::At {
                object,
                path,
                index,
                count,
            } => is_root(*object, *o) && is_path(path, true, p) && index == i && count == n,
            _ => false,
        },
    }
}

fn is_starred_of(member: &Address, a: &Address) -> bool
    ensures { IsTrue result ↔ (member.now ≡ starred a.now) }
{
    match a {
        Address::Null => matches!(member, Address::Null),
        Address::Func(f) => match member {
            Address::Func(g) => g == f,
            _ => false,
        },
        Address::At {
            object: o,
            path: p,
            count: n,
            ..
        } => match member {
            Address::At {
                object,
                path,
                index,
                count,
            } => is_root(*object, *o) && is_path(path, false, p) && *index == 0 && count == n,
            _ => false,
        },
    }
}

fn is_path(member: &List<Part>, is_exact: bool, path: &List<Part>) -> bool
    ensures { IsTrue result ↔ (member.now ≡ path_for is_exact path.now) }
{
    compare_paths(member.all(), is_exact, path.all()).is_eq()
}

fn is_root(member: Root, object: Root) -> bool
    ensures { IsTrue result ↔ (member ≡ kept_root object) }
{
    member == kept_root(object)
}

pub(crate) fn part_for(is_exact: bool, part: Part) -> Part
    ensures { result ≡ part_for is_exact part }
{
    if is_exact { part } else { starred_part(part) }
}
