//! Points that are reached.

ghost use Rattle.std.specs.Option.{option_copied};
ghost use Rattle.std.specs.Prelude.{◌≡◌, is_some, true, Some, slice_get};
ghost use Rattle.cc_state_points.specs.CcFlow.Points.{flow_of};
ghost use Rattle.cc_rules_functions.specs.Functions.{IsFunctionOf, AreFunctionsOf};
ghost use Rattle.cc_rules_here.specs.HereAt.{IsHereOf, IsHereAt};
ghost use Rattle.cc_state_points.specs.CcState.Shape.{HaveShape};
ghost use Rattle.cc_state_points.specs.CcStateFacts.Facts.{fact_at};
ghost use Rattle.cc_state_points.specs.CcStateKeys.Tracked.{tracked as tracked_of};
ghost use Rattle.cc_state_points.specs.CcStateOperators.Domains.{domain};
ghost use Rattle.cc_state_points.specs.CcSyntax.Normal.{IsNormal};

use cc_program::Program;
use cc_program::num::at;
use cc_rules_functions::Function;
use cc_state_points::flow::Point;
use cc_state_points::lattice::IntDomain;
use cc_state_points::rules_flows::Here;
use cc_state_points::state_facts::{Facts, PointFact};
use cc_state_points::state_values::Context;

/// What is known at a point.
fn known<I>(facts: &Facts<I>, number: u32) -> Option<&PointFact<I>>
    ensures { option_copied result ≡ fact_at facts.now number }
{
    at(facts.at.all(), number as usize)?.as_ref()
}

/// A point by its number.
fn point_at(points: &[Point], number: u32) -> &Point
    requires { is_some (slice_get points.now number) ≡ true }
    ensures { slice_get points.now number ≡ Some result.now }
{
    match at(points, number as usize) {
        None => unreachable!(),
        Some(point) => point,
    }
}

/// A function by its id.
fn function_at<'a, 'p>(functions: &'a [Function<'p>], id: u32) -> &'a Function<'p>
    requires { is_some (slice_get functions.now id) ≡ true }
    ensures { slice_get functions.now id ≡ Some result.now }
{
    match at(functions, id as usize) {
        None => unreachable!(),
        Some(function) => function,
    }
}

/// A point that is reached, by what is known there.
fn here_by<'a, I: IntDomain>(
    program: &'a Program,
    function: &'a Function<'a>,
    tracked: &'a [u32],
    facts: &'a Facts<I>,
    number: u32,
    point: &'a Point,
    fact: &'a PointFact<I>,
) -> Here<'a, I>
    requires normal { IsNormal program.now }
    requires shape { HaveShape (domain I.Has I.IsBelow I.OpGives I.OpOneGives I.ToGives I.KeepGives I.members_of) program.now facts.now }
    requires there { slice_get (flow_of program.now).points number ≡ Some point.now }
    requires function { IsFunctionOf program.now point.now.func function.now }
    requires tracked { tracked.now ≡ tracked_of program.now }
    requires reached { fact_at facts.now number ≡ Some fact.now }
    ensures { IsHereAt (domain I.Has I.IsBelow I.OpGives I.OpOneGives I.ToGives I.KeepGives I.members_of) program.now facts.now number result }
{
    let registers = function.registers.all();
    let sets = fact.locals.all();
    let context = Context {
        program,
        id: point.func,
        func: function.func,
        registers,
        sets,
    };
    Here {
        context,
        facts,
        tracked,
        number,
        point,
        fact,
    }
}

/// A point of a program in normal form, if it is reached. These are the program's points, functions and tracked cells.
pub fn here_at<'a, I: IntDomain>(
    program: &'a Program,
    points: &'a [Point],
    functions: &'a [Function<'a>],
    tracked: &'a [u32],
    facts: &'a Facts<I>,
    number: u32,
) -> Option<Here<'a, I>>
    requires normal { IsNormal program.now }
    requires points { points.now ≡ (flow_of program.now).points }
    requires functions { AreFunctionsOf program.now functions.now }
    requires tracked { tracked.now ≡ tracked_of program.now }
    requires shape { HaveShape (domain I.Has I.IsBelow I.OpGives I.OpOneGives I.ToGives I.KeepGives I.members_of) program.now facts.now }
    ensures { IsHereOf (domain I.Has I.IsBelow I.OpGives I.OpOneGives I.ToGives I.KeepGives I.members_of) program.now facts.now number result }
{
    match known(facts, number) {
        None => None,
        Some(fact) => {
            let point = point_at(points, number);
            let function = function_at(functions, point.func);
            Some(here_by(program, function, tracked, facts, number, point, fact))
        }
    }
}
