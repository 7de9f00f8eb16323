//! The functions of a program, with their registers and the numbers of their first points and exits.

ghost use Rattle.std.specs.Prelude.{◌≡◌, ◌≤◌, ◌<◌, ◌^◌, ◌+◌, ◌==◌, ◌&&◌, not, All, Some, length, slice_get, unwrap_or, IfOk};
ghost use Rattle.cc_rules_flows.specs.CcFlow.Points.{flow_of, count_of};
ghost use Rattle.cc_rules_functions.specs.Functions.{IsFunctionOf, AreFunctionsOf};
ghost use Rattle.cc_rules_functions.specs.Ends.{end_at};
ghost use Rattle.cc_rules_flows.specs.CcSteps.Step.{gives_nothing};

use cc_program::num::{List, NoMemory, at};
use cc_program::{Func, Program};
use cc_rules_flows::flow::Flow;
use cc_rules_flows::state_keys::registers;
use cc_rules_flows::typed::is_void;
use std::alloc::Global;

/// A function, with what calls of it want.
#[derive(Drop)]
pub struct Function<'p> {
    pub func: &'p Func,
    /// The numbers of its first point, and of its exit.
    pub entry: u32,
    pub exit: u32,
    /// Its registers.
    pub registers: List<u32>,
    /// Whether it gives 0 at its end: main does, where it gives something.
    pub gives_zero: bool,
}

/// Whether a function gives 0 at its end: main does, where it gives something.
fn gives_zero(p: &Program, id: u32, f: &Func) -> bool
    ensures { result ≡ (id == p.now.main && not (gives_nothing (Some f.now))) }
{
    id == p.main && !is_void(&f.sig.result)
}

/// The number of a function's first point.
fn entry_of(flow: &Flow, id: u32) -> u32
    ensures { result ≡ unwrap_or (slice_get flow.now.first id) 0 }
{
    match at(flow.first.all(), id as usize) {
        None => 0,
        Some(first) => *first,
    }
}

/// The number behind a function's last point.
fn end_of(flow: &Flow, id: u32) -> usize
    ensures { result ≡ end_at (length flow.now.points) flow.now.first id }
{
    match at(flow.first.all(), id as usize + 1) {
        None => flow.points.all().len(),
        Some(first) => *first as usize,
    }
}

/// The number of its exit, which is its last point.
fn exit_of(flow: &Flow, id: u32) -> u32
    requires some { 0 < end_at (length flow.now.points) flow.now.first id }
    requires few { end_at (length flow.now.points) flow.now.first id ≤ 65536 }
    ensures { result + 1 ≡ end_at (length flow.now.points) flow.now.first id }
{
    (end_of(flow, id) - 1) as u32
}

/// A function by its id.
fn function_of<'p>(
    alloc: Global,
    p: &Program,
    flow: &Flow,
    id: u32,
    f: &'p Func,
) -> Result<Function<'p>, NoMemory>
    requires flow { flow.now ≡ flow_of p.now }
    requires there { slice_get p.now.funcs id ≡ Some f.now }
    requires few { count_of p.now ≤ 65536 }
    requires few_locals { length f.now.locals < 2 ^ 32 }
    ensures { IfOk result (λ made. IsFunctionOf p.now id made) }
{
    let registers = registers(alloc, f)?;
    Ok(Function {
        func: f,
        entry: entry_of(flow, id),
        exit: exit_of(flow, id),
        registers: List::of(registers),
        gives_zero: gives_zero(p, id, f),
    })
}

/// The functions of a program whose points are these.
pub fn functions_of<'p>(
    alloc: Global,
    p: &'p Program,
    flow: &Flow,
) -> Result<Vec<Function<'p>>, NoMemory>
    requires flow { flow.now ≡ flow_of p.now }
    requires few { count_of p.now ≤ 65536 }
    requires few_functions { length p.now.funcs < 2 ^ 32 }
    requires few_locals { All (λ f. length f.locals < 2 ^ 32) p.now.funcs }
    ensures { IfOk result (λ functions. AreFunctionsOf p.now functions.items) }
{
    let mut functions = Vec::new(alloc);
    for (id, f) in p.funcs.all().iter().enumerate() {
        let function = function_of(alloc, p, flow, id as u32, f)?;
        functions.push(function)?;
    }
    Ok(functions)
}
