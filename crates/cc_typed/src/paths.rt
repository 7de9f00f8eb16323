//! The places to which paths lead.

ghost use Rattle.std.specs.Prelude.{◌≡◌, length, option_map};
ghost use Rattle.cc_program.specs.declared.types.Shape.{out-Shape};
ghost use Rattle.cc_syntax.specs.Initial.{bound_shape, bound_of as bound_of_of, is_below as is_below_of, step_into as step_into_of, place_at as place_at_of};
ghost use Rattle.cc_typed.specs.View.{place_view};

use crate::values::PlaceType;
use cc_syntax::{Part, Shape, Structure};

/// How many elements the array has that a place holds.
pub fn bound_of(a: PlaceType) -> Option<u32>
    ensures { result ≡ bound_of_of (place_view a.entry) }
{
    match a {
        PlaceType::Object(_, _, t) => match &t.shape {
            Shape::Array(_, n) => Some(*n),
            _ => None,
        },
        PlaceType::Device(_, _) => None,
        PlaceType::Function(_) => None,
    }
}

fn is_below(i: u32, bound: Option<u32>) -> bool
    ensures { result ≡ is_below_of i bound }
{
    match bound {
        None => false,
        Some(n) => i < n,
    }
}

/// The part of a place to which a step leads.
pub fn step_into<'p>(
    structures: &'p [Structure],
    step: Part,
    a: PlaceType<'p>,
) -> Option<PlaceType<'p>>
    ensures { option_map place_view result ≡ step_into_of structures.now step (place_view a.entry) }
{
    match step {
        Part::Member(m) => a.member(structures, m),
        Part::Index(i) => {
            if is_below(i, bound_of(a)) {
                a.element()
            } else {
                None
            }
        }
    }
}

/// The place to which a path leads.
pub fn place_at<'p>(
    structures: &'p [Structure],
    path: &[Part],
    start: PlaceType<'p>,
) -> Option<PlaceType<'p>>
    ensures { option_map place_view result ≡ place_at_of structures.now path.now (place_view start.entry) }
{
    let mut left = path;
    let mut place = start;
    while let [step, rest @ ..] = left {
        place = step_into(structures, *step, place)?;
        left = rest;
    }
    Some(place)
}
