//! The points at which an activation counts as standing.

ghost use Rattle.std.specs.Prelude.{◌≡◌, ◌↔◌, ◌⊎◌, ◌++◌, ℕ, IsTrue, IfOk, map};
ghost use Rattle.std.specs.List.{Contains};
ghost use Rattle.std.specs.Option.{option_copied};
ghost use Rattle.cc_flow_sound.specs.CcControl.Control.{path_of};
ghost use Rattle.cc_flow_sound.specs.CcFlow.Points.{flow_of};
ghost use Rattle.cc_flow_sound.specs.Moves.{IsAt, standing};
ghost use Rattle.cc_proof_covers.specs.Covers.{StandsAtPoint};
ghost use Rattle.cc_state_holds.specs.Parts.{IsAdded, IsNextOf};
ghost use Rattle.cc_steps.specs.View.{active_of};

use crate::basis::Basis;
use cc_flow_sound::flow::{Flow, Point};
use cc_meaning::Activation;
use cc_program::Value;
use cc_program::num::{NoMemory, at};
use std::alloc::Global;

fn is_same_path(path: &[u32], other: &[u32]) -> bool
    ensures { IsTrue result ↔ (path.now ≡ other.now) }
{
    path == other
}

/// Whether a point is of a function, and of a path.
fn is_point_of(point: &Point, func: u32, path: &[u32]) -> bool
    ensures { IsTrue result ↔ ((point.now.func ≡ func) × (point.now.path ≡ path.now)) }
{
    point.func == func && is_same_path(point.path.all(), path)
}

/// Whether the next step of an activation, to which this path leads, is at a point.
fn is_at<I>(b: &Basis<I>, a: &Activation, path: &[u32], n: usize) -> bool
    requires flow { b.now.flow.now ≡ flow_of b.now.program.now }
    requires path { path.now ≡ path_of ((active_of a.now).here, (active_of a.now).around) }
    ensures { IsTrue result ↔ IsAt b.now.program.now (standing (active_of a.now)) n }
{
    match at(b.flow.points.all(), n) {
        None => false,
        Some(point) => is_point_of(point, a.func, path),
    }
}

/// Some points, and one behind them if the next step of an activation is at it.
fn with_own<I>(
    b: &Basis<I>,
    a: &Activation,
    path: &[u32],
    points: Vec<usize>,
    n: usize,
) -> Result<Vec<usize>, NoMemory>
    requires flow { b.now.flow.now ≡ flow_of b.now.program.now }
    requires path { path.now ≡ path_of ((active_of a.now).here, (active_of a.now).around) }
    ensures { IfOk result (λ all. IsAdded (IsAt b.now.program.now (standing (active_of a.now))) points.items n all.items) }
{
    if !is_at(b, a, path, n) {
        return Ok(points);
    }
    let mut all = points;
    all.push(n)?;
    Ok(all)
}

/// The points at which its next step is.
fn own_points<I>(alloc: Global, b: &Basis<I>, a: &Activation) -> Result<Vec<usize>, NoMemory>
    requires { b.now.flow.now ≡ flow_of b.now.program.now }
    ensures { IfOk result (λ points. (n : ℕ) → Contains points.items n ↔ IsAt b.now.program.now (standing (active_of a.now)) n) }
{
    let path = a.path(alloc)?;
    let count = b.flow.points.all().len();
    let mut points = Vec::new(alloc);
    for n in 0..count {
        points = with_own(b, a, &path, points, n)?;
    }
    Ok(points)
}

/// Some points, and others behind them.
fn with_points(points: Vec<usize>, others: &[u32]) -> Result<Vec<usize>, NoMemory>
    ensures { IfOk result (λ all. all.items ≡ points.items ++ others.now) }
{
    let mut all = points;
    for n in others {
        all.push(*n as usize)?;
    }
    Ok(all)
}

/// The next points of a point, behind others.
fn with_next(flow: &Flow, points: Vec<usize>, m: usize) -> Result<Vec<usize>, NoMemory>
    ensures { IfOk result (λ all. (n : ℕ) → Contains all.items n ↔ (Contains points.items n ⊎ IsNextOf flow.now m n)) }
{
    match at(flow.points.all(), m) {
        None => Ok(points),
        Some(point) => with_points(points, point.next.all()),
    }
}

/// The next points of some.
fn next_points(alloc: Global, flow: &Flow, points: &[usize]) -> Result<Vec<usize>, NoMemory>
    ensures { IfOk result (λ all. (n : ℕ) → Contains all.items n ↔ ((m : ℕ) × Contains points.now m × IsNextOf flow.now m n)) }
{
    let mut all = Vec::new(alloc);
    for m in points {
        all = with_next(flow, all, *m)?;
    }
    Ok(all)
}

/// The points at which an activation counts as standing: where a result of its statement is not written yet, the next ones.
pub fn counted_points<I>(
    alloc: Global,
    b: &Basis<I>,
    a: &Activation,
    pending: Option<&(u32, Value)>,
) -> Result<Vec<usize>, NoMemory>
    requires { b.now.flow.now ≡ flow_of b.now.program.now }
    ensures { IfOk result (λ points. (n : ℕ) → Contains points.items n ↔ StandsAtPoint b.now.program.now (active_of a.now) (option_copied pending.entry) n) }
{
    let points = own_points(alloc, b, a)?;
    match pending {
        None => Ok(points),
        Some(_) => next_points(alloc, b.flow, &points),
    }
}
