//! Which lists of addresses are those of the members of a set.

ghost use Rattle.std.specs.Prelude.{◌≡◌};
ghost use Rattle.std.specs.List.{list_all, list_any};
ghost use Rattle.cc_places.specs.Kept.{is_kept_root, is_kept, is_starred_part, is_starred, is_object};
ghost use Rattle.cc_places.specs.Members.{are_many, are_members};
ghost use Rattle.cc_places.specs.Order.{is_before_first, ascends};

use crate::addrs::MOST_EXACT;
use crate::order::compare;
use cc_program::{Address, Part, Root};

/// Whether a list is that of the members of an exact set, or of one that is not.
pub fn are_members(is_exact: bool, members: &[Address]) -> bool
    ensures { result ≡ are_members is_exact members.now }
{
    if is_exact {
        ascend(members) && are_kept(members) && members.len() <= MOST_EXACT
    } else {
        ascend(members) && are_starred(members) && are_many(members)
    }
}

/// Whether an address comes before the first of a list.
fn is_before_first(a: &Address, behind: &[Address]) -> bool
    ensures { result ≡ is_before_first a.now behind.now }
{
    match behind {
        [] => true,
        [b, ..] => compare(a, b).is_lt(),
    }
}

/// Whether each address comes before those behind it.
#[tactic(auto, using(crate::specs::laws::ListLaws::ascending_on))]
fn ascend(members: &[Address]) -> bool
    ensures { result ≡ ascends members.now }
{
    let mut left = members;
    while let [member, behind @ ..] = left {
        if !is_before_first(member, behind) {
            return false;
        }
        left = behind;
    }
    true
}

fn is_kept_root(object: Root) -> bool
    ensures { result ≡ is_kept_root object }
{
    match object {
        Root::Static(_) => true,
        Root::Auto { activation, .. } => activation == 0,
    }
}

fn is_kept(a: &Address) -> bool
    ensures { result ≡ is_kept a.now }
{
    match a {
        Address::Null | Address::Func(_) => true,
        Address::At { object, .. } => is_kept_root(*object),
    }
}

fn are_kept(members: &[Address]) -> bool
    ensures { result ≡ list_all is_kept members.now }
{
    members.iter().all(|member| is_kept(member))
}

fn are_starred_parts(path: &[Part]) -> bool
    ensures { result ≡ list_all is_starred_part path.now }
{
    path.iter()
        .all(|part| matches!(part, Part::Member(_) | Part::Index(0)))
}

fn is_starred(a: &Address) -> bool
    ensures { result ≡ is_starred a.now }
{
    match a {
        Address::Null | Address::Func(_) => true,
        Address::At {
            object,
            path,
            index,
            ..
        } => is_kept_root(*object) && are_starred_parts(path.all()) && *index == 0,
    }
}

fn are_starred(members: &[Address]) -> bool
    ensures { result ≡ list_all is_starred members.now }
{
    members.iter().all(|member| is_starred(member))
}

pub(crate) fn has_object(members: &[Address]) -> bool
    ensures { result ≡ list_any is_object members.now }
{
    members
        .iter()
        .any(|member| matches!(member, Address::At { .. }))
}

/// Whether there is an object, or more than an exact set has.
fn are_many(members: &[Address]) -> bool
    ensures { result ≡ are_many members.now }
{
    has_object(members) || members.len() > MOST_EXACT
}
