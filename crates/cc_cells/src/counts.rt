//! How many scalars a type has, and how many stand in front of one. `usize::MAX` stands for all numbers beyond.

ghost use Rattle.std.specs.Prelude.{◌≡◌, ◌+◌, ◌*◌, length, option_map, take};
ghost use Rattle.cc_program.specs.declared.types.Shape.{out-Shape};
ghost use Rattle.cc_typed.specs.View.{place_view};
ghost use Rattle.cc_cells.specs.Counts.{counted, count_of, member_count};
ghost use Rattle.cc_cells.specs.Scalars.{before_part as before_part_of, before as before_of, position as position_of};

use cc_program::num::{Name, at};
use cc_program::{CType, Part, Shape, Structure};
use cc_typed::{PlaceType, step_into};

fn plus(a: usize, b: usize) -> usize
    ensures { result ≡ counted (a + b) }
{
    a.saturating_add(b)
}

fn times(n: u32, a: usize) -> usize
    ensures { result ≡ counted (n * a) }
{
    (n as usize).saturating_mul(a)
}

/// How many scalars a type has.
#[cycle(count)]
#[tactic(auto, using(crate::proofs::CountLemmas::of_counts))]
pub fn count(structures: &[Structure], t: &CType) -> usize
    ensures { result ≡ counted (count_of structures.now t.now) }
{
    match &t.shape {
        Shape::Int(_) => 1,
        Shape::Pointer(_) => 1,
        Shape::Array(of, n) => times(*n, count(structures, of.get())),
        Shape::Struct(s) => {
            let s = *s as usize;
            if s < structures.len() {
                count_members(&structures[..s], structures[s].members.all())
            } else {
                0
            }
        }
        Shape::Void => 0,
        Shape::Func(_) => 0,
    }
}

/// How many scalars members have.
#[cycle(count)]
#[tactic(auto, using(crate::proofs::CountLemmas::of_members))]
fn count_members(structures: &[Structure], members: &[(Name, CType)]) -> usize
    ensures { result ≡ counted (member_count structures.now members.now) }
{
    let mut all: usize = 0;
    for (_, t) in members {
        all = plus(all, count(structures, t));
    }
    all
}

/// How many scalars stand in front of a member.
fn members_before(structures: &[Structure], m: u32, members: &[(Name, CType)]) -> usize
    ensures { result ≡ counted (member_count structures.now (take m members.now)) }
{
    let m = m as usize;
    if m < members.len() {
        count_members(structures, &members[..m])
    } else {
        count_members(structures, members)
    }
}

fn before_part(structures: &[Structure], step: Part, t: &CType) -> usize
    ensures { result ≡ counted (before_part_of structures.now step (out-Shape t.now.shape)) }
{
    match step {
        Part::Member(m) => match &t.shape {
            Shape::Struct(s) => match at(structures, *s as usize) {
                None => 0,
                Some(s) => members_before(structures, m, s.members.all()),
            },
            _ => 0,
        },
        Part::Index(i) => match &t.shape {
            Shape::Array(of, _) => times(i, count(structures, of.get())),
            _ => 0,
        },
    }
}

/// How many scalars stand in front of a part.
fn before(structures: &[Structure], step: Part, a: PlaceType) -> usize
    ensures { result ≡ counted (before_of structures.now step (place_view a.entry)) }
{
    match a {
        PlaceType::Object(_, _, t) => before_part(structures, step, t),
        PlaceType::Device(_, _) => 0,
        PlaceType::Function(_) => 0,
    }
}

/// The position of the scalar to which a path leads from a place.
#[tactic(auto, using(crate::proofs::CountLemmas::of_sums))]
pub fn position(structures: &[Structure], path: &[Part], a: Option<PlaceType>) -> usize
    ensures { result ≡ counted (position_of structures.now path.now (option_map place_view a.entry)) }
{
    match path {
        [] => 0,
        [step, rest @ ..] => match a {
            None => 0,
            Some(a) => {
                plus(
                    before(structures, *step, a),
                    position(structures, rest, step_into(structures, *step, a)),
                )
            }
        },
    }
}
