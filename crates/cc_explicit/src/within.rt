ghost use Rattle.std.specs.Prelude.{◌↔◌, ℤ, IsTrue};
ghost use Rattle.std.specs.List.{Contains};
ghost use Rattle.cc_lattice.specs.Domains.{Ascends};

use std::cmp::Ordering;

/// Whether each of ascending numbers is among other ascending ones.
pub(crate) fn are_within(members: &[i128], others: &[i128]) -> bool
    requires members { Ascends members.now }
    requires others { Ascends others.now }
    ensures { IsTrue result ↔ ((v : ℤ) → Contains members.now v → Contains others.now v) }
{
    let mut left = members;
    let mut right = others;
    while let [member, behind @ ..] = left {
        let [other, rest @ ..] = right else {
            return false;
        };
        match member.cmp(other) {
            Ordering::Less => return false,
            Ordering::Equal => left = behind,
            Ordering::Greater => {}
        }
        right = rest;
    }
    true
}
