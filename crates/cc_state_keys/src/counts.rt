//! How many facts there are about a program.

ghost use Rattle.std.specs.Prelude.{◌≡◌, ◌<◌, ◌≤◌, ◌+◌, ◌*◌, ◌^◌, length, map, sum_by, unwrap_or, slice_get, All, IfOk};
ghost use Rattle.cc_flow.specs.Points.{flow_of};
ghost use Rattle.cc_state_keys.specs.Counts.{fact_count};
ghost use Rattle.cc_state_keys.specs.Tracked.{registers as registers_of};
ghost use Rattle.cc_eval.specs.CcSyntax.Sound.{IsTypedProgram};

use crate::listed::keys;
use crate::numbers::{registers, tracked};
use cc_flow::{Flow, Point};
use cc_program::num::{NoMemory, at};
use cc_program::{Func, Program};
use std::alloc::Global;

#[tactic(auto, using(crate::proofs::FactCounts::few_registers))]
fn register_count(alloc: Global, f: &Func) -> Result<u32, NoMemory>
    requires { length f.now.locals < 2 ^ 32 }
    ensures { IfOk result (λ count. count ≡ length (registers_of f.now)) }
{
    let registers = registers(alloc, f)?;
    Ok(registers.len() as u32)
}

/// How many registers each function has.
fn register_counts(alloc: Global, p: &Program) -> Result<Vec<u32>, NoMemory>
    requires { All (λ f. length f.locals < 2 ^ 32) p.now.funcs }
    ensures { IfOk result (λ counts. counts.items ≡ map (λ f. length (registers_of f)) p.now.funcs) }
{
    let mut counts = Vec::new(alloc);
    for func in p.funcs.all() {
        counts.push(register_count(alloc, func)?)?;
    }
    Ok(counts)
}

/// How many facts a point has, where each function has so many registers, and there are so many tracked cells.
fn facts_at_point(counts: &[u32], tracked: u32, point: &Point) -> u128
    ensures sum { result ≡ tracked + unwrap_or (slice_get counts.now point.now.func) 0 }
    ensures few { result ≤ 2 ^ 33 }
{
    let registers = match at(counts, point.func as usize) {
        None => 0,
        Some(count) => *count,
    };
    u128::from(tracked) + u128::from(registers)
}

/// How many facts points have.
fn facts_at_points(counts: &[u32], tracked: u32, points: &[Point]) -> u128
    ensures sum { result ≡ sum_by (λ point. tracked + unwrap_or (slice_get counts.now point.func) 0) points.now }
    ensures few { result ≤ length points.now * 2 ^ 33 }
{
    let mut count: u128 = 0;
    for point in points {
        count += facts_at_point(counts, tracked, point);
    }
    count
}

/// How many facts there are about a program: one for each key, and at each point one for each tracked cell and for each
/// register of its function. The only error is want of memory.
pub fn count_facts(alloc: Global, p: &Program, flow: &Flow) -> Result<u128, NoMemory>
    requires typed { IsTypedProgram p.now }
    requires own { flow.now ≡ flow_of p.now }
    ensures { IfOk result (λ count. count ≡ fact_count p.now) }
{
    let keys = keys(alloc, p)?;
    let tracked = tracked(alloc, p)?;
    let counts = register_counts(alloc, p)?;
    Ok(keys.len() as u128 + facts_at_points(&counts, tracked.len() as u32, flow.points.all()))
}
