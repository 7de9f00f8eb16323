//! What the text and the accesses of a slot say of each reason.

ghost use Rattle.std.specs.Prelude.{◌≡◌, ◌≤◌, false};
ghost use Rattle.std.specs.Option.{option_map_or};
ghost use Rattle.cc_program.specs.Qualifiers.{is_const as is_const_type, is_volatile as is_volatile_type};
ghost use Rattle.cc_slots.specs.Findings.{findings_of as findings_of_key, is_automatic_key, is_closed_key};
ghost use Rattle.cc_slots_structures.specs.Standings.{AreStandings};
ghost use Rattle.cc_state_points.specs.CcState.Shape.{IsSlot, ctype_of as ctype_of_key};

use crate::codes::{Code, is_wide};
use crate::first::Findings;
use crate::judged::{is_torn, is_unbounded, is_volatile_somewhere};
use cc_program::Program;
use cc_program::num::at;
use cc_slots_accesses::{Access, array_length, ctype_of};
use cc_slots_structures::Standing;
use cc_slots_types::Class;
use cc_state_points::state_facts::Key;

fn is_declared_volatile(p: &Program, key: Key) -> bool
    ensures { result ≡ option_map_or is_volatile_type (ctype_of_key p.now key) false }
{
    match ctype_of(p, key) {
        None => false,
        Some(t) => t.is_volatile(),
    }
}

fn is_declared_const(p: &Program, key: Key) -> bool
    ensures { result ≡ option_map_or is_const_type (ctype_of_key p.now key) false }
{
    match ctype_of(p, key) {
        None => false,
        Some(t) => t.is_const(),
    }
}

/// Whether it is a member of a structure that stands nowhere at a place that is not const.
fn is_closed(p: &Program, standings: &[Standing], key: Key) -> bool
    requires standings { AreStandings p.now standings.now }
    requires slot { IsSlot p.now key }
    ensures { result ≡ is_closed_key p.now key }
{
    match key {
        Key::Object(_) | Key::Local(_, _) => false,
        Key::Member(s, _) => match at(standings, s as usize) {
            None => unreachable!(),
            Some(standing) => !standing.is_open,
        },
    }
}

/// Whether it is a member of a structure that stands in a local.
fn is_automatic(p: &Program, standings: &[Standing], key: Key) -> bool
    requires standings { AreStandings p.now standings.now }
    requires slot { IsSlot p.now key }
    ensures { result ≡ is_automatic_key p.now key }
{
    match key {
        Key::Object(_) | Key::Local(_, _) => false,
        Key::Member(s, _) => match at(standings, s as usize) {
            None => unreachable!(),
            Some(standing) => standing.is_automatic,
        },
    }
}

/// Of each reason whether it holds of a slot, of which all accesses and whether its address is taken are given.
pub(crate) fn findings_of(
    p: &Program,
    standings: &[Standing],
    key: Key,
    accesses: &[Access],
    is_addressed: bool,
    class: Class,
    code: Code,
    count: u32,
    bytes: u32,
) -> Findings
    requires standings { AreStandings p.now standings.now }
    requires slot { IsSlot p.now key }
    requires bytes { bytes ≤ 8 }
    ensures { result ≡ findings_of_key p.now key accesses.now is_addressed class count bytes code.is_there code.bits }
{
    Findings {
        volatile: is_declared_volatile(p, key) || is_volatile_somewhere(accesses),
        constant: is_declared_const(p, key) || is_closed(p, standings, key),
        addressed: is_addressed,
        automatic: is_automatic(p, standings, key),
        torn: is_torn(accesses, class, bytes, u32::from(p.target.atomic_bytes)),
        index: is_unbounded(accesses),
        wide: is_wide(code, array_length(p, key).is_some(), count, bytes),
    }
}
