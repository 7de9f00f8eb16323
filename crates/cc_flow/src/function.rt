//! The points of functions.

ghost use Rattle.std.specs.Prelude.{◌≡◌, ◌≤◌, ◌<◌, ◌+◌, ◌-◌, ◌^◌, ◌++◌, ℕ, min, IfOk, OnOk, Err};
ghost use Rattle.cc_flow.specs.Points.{body_count, body_points, count_in, points_in, firsts_in, count_of, flow_of};
ghost use Rattle.cc_flow.specs.declared.types.FlowEnd.{FlowEnd as FlowEndOf};

use crate::counts::{count_funcs, size};
use crate::next::Site;
use crate::statements::{longer, put_list, put_point};
use crate::types::{Flow, FlowEnd, Point};
use cc_program::num::{List, NoMemory};
use cc_program::{Func, Program, Stmt};
use std::alloc::Global;

/// The most points of a program.
const POINT_LIMIT: u64 = 65536;

/// Puts the points of a function behind others: the first has this number.
#[tactic(auto, using(crate::proofs::Pieces::of_lengths))]
fn put_body(
    alloc: Global,
    points: &mut Vec<Point>,
    func: u32,
    first: u32,
    body: &[Stmt],
) -> Result<(), NoMemory>
    requires { first + body_count body.now < 2 ^ 32 }
    ensures { OnOk result (points.new.items ≡ points.old.items ++ body_points func first body.now) }
{
    let exit = first + size(body);
    let site = Site {
        func,
        number: first,
        behind: exit,
        breaks: exit,
        continues: exit,
        exit,
    };
    put_list(alloc, points, body, &[], 0, site)?;
    let path = longer(alloc, &[], body.len() as u32)?;
    put_point(alloc, points, &path, site, Vec::new(alloc))
}

/// The points of functions that have few.
fn all_points(alloc: Global, funcs: &[Func]) -> Result<Flow, NoMemory>
    requires { count_in funcs.now < 2 ^ 32 }
    ensures { IfOk result (λ flow. (flow.points ≡ points_in 0 0 funcs.now) × (flow.first ≡ firsts_in 0 funcs.now)) }
{
    let mut points = Vec::new(alloc);
    let mut first = Vec::new(alloc);
    let mut number: u32 = 0;
    for (func, f) in funcs.iter().enumerate() {
        let body = f.body.all();
        first.push(number)?;
        put_body(alloc, &mut points, func as u32, number, body)?;
        number += size(body) + 1;
    }
    Ok(Flow {
        points: List::of(points),
        first: List::of(first),
    })
}

/// The points of a program in normal form, and where control goes from each. Limit comes exactly where it has more than
/// 65,536, with their number, up to the end of its type; the only other error is want of memory.
pub fn points(alloc: Global, p: &Program) -> Result<Flow, FlowEnd>
    ensures flow { IfOk result (λ flow. flow ≡ flow_of p.now) }
    ensures few { IfOk result (λ _. count_of p.now ≤ 65536) }
    ensures limit { (count : ℕ) → result ≡ Err (FlowEndOf.Limit count) → (65536 < count_of p.now) × (count ≡ min (count_of p.now) (2 ^ 64 - 1)) }
    ensures above { 65536 < count_of p.now → result ≡ Err (FlowEndOf.Limit (min (count_of p.now) (2 ^ 64 - 1))) }
{
    let funcs = p.funcs.all();
    let count = count_funcs(funcs);
    if count > POINT_LIMIT {
        return Err(FlowEnd::Limit(count));
    }
    match all_points(alloc, funcs) {
        Ok(flow) => Ok(flow),
        Err(NoMemory) => Err(FlowEnd::NoMemory),
    }
}
