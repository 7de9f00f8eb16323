//! The order in which addresses are listed.

ghost use Rattle.std.specs.Prelude.{◌≡◌};
ghost use Rattle.cc_places.specs.Kept.{path_for};
ghost use Rattle.cc_places.specs.Order.{part_order, path_order, root_order, address_order, order};

use crate::address::part_for;
use cc_program::{Address, Part, Root};
use std::cmp::Ordering;

fn compare_parts(a: Part, b: Part) -> Ordering
    ensures { result ≡ part_order a b }
{
    match a {
        Part::Member(m) => match b {
            Part::Member(n) => m.cmp(&n),
            Part::Index(_) => Ordering::Less,
        },
        Part::Index(i) => match b {
            Part::Member(_) => Ordering::Greater,
            Part::Index(j) => i.cmp(&j),
        },
    }
}

/// Compares a path with another one, whose indexes are starred where that is asked for.
#[tactic(auto, using(crate::specs::laws::OrderLaws::path_for_step))]
pub(crate) fn compare_paths(path: &[Part], is_exact: bool, other: &[Part]) -> Ordering
    ensures { result ≡ path_order path.now (path_for is_exact other.now) }
{
    let mut left = path;
    let mut right = other;
    while let [a, behind @ ..] = left {
        let [b, others @ ..] = right else {
            return Ordering::Greater;
        };
        let parts = compare_parts(*a, part_for(is_exact, *b));
        if parts.is_ne() {
            return parts;
        }
        left = behind;
        right = others;
    }
    if right.is_empty() {
        Ordering::Equal
    } else {
        Ordering::Less
    }
}

fn compare_roots(a: Root, b: Root) -> Ordering
    ensures { result ≡ root_order a b }
{
    match a {
        Root::Static(o) => match b {
            Root::Static(p) => o.cmp(&p),
            Root::Auto { .. } => Ordering::Less,
        },
        Root::Auto {
            activation: n,
            func: f,
            local: l,
        } => match b {
            Root::Static(_) => Ordering::Greater,
            Root::Auto {
                activation,
                func,
                local,
            } => f.cmp(&func).then(l.cmp(&local).then(n.cmp(&activation))),
        },
    }
}

/// Which of two addresses is listed first.
pub(crate) fn compare(a: &Address, b: &Address) -> Ordering
    ensures { result ≡ order a.now b.now }
{
    compare_by_cases(a, b)
}

fn compare_by_cases(a: &Address, b: &Address) -> Ordering
    ensures { result ≡ address_order a.now b.now }
{
    match a {
        Address::Null => match b {
            Address::Null => Ordering::Equal,
            _ => Ordering::Less,
        },
        Address::Func(f) => match b {
            Address::Null => Ordering::Greater,
            Address::Func(g) => f.cmp(g),
            Address::At { .. } => Ordering::Less,
        },
        Address::At {
            object: o,
            path: p,
            index: i,
            count: n,
        } => match b {
            Address::At {
                object,
                path,
                index,
                count,
            } => compare_roots(*o, *object).then(compare_paths(p.all(), true, path.all()).then(
                i.cmp(index).then(n.cmp(count)),
            )),
            _ => Ordering::Greater,
        },
    }
}
