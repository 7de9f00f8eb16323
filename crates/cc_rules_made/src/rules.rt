//! What constraints want of a program.

ghost use Rattle.std.specs.Prelude.{◌≡◌, ◌≤◌, ◌<◌, ◌^◌, length, IfOk};
ghost use Rattle.cc_rules_asked.specs.CcFlow.Points.{flow_of, count_of};
ghost use Rattle.cc_rules_made.specs.Rules.{AreOf};
ghost use Rattle.cc_rules_asked.specs.CcStateKeys.Keys.{keys_of};
ghost use Rattle.cc_rules_asked.specs.CcSyntax.Sound.{IsTypedProgram};

use crate::cells::keys_of_cells;
use crate::handlers::handlers_of;
use crate::marks::marks_of;
use cc_program::Program;
use cc_program::num::{List, NoMemory};
use cc_rules_asked::Handler;
use cc_rules_asked::flow::Flow;
use cc_rules_asked::state_keys::tracked;
use cc_rules_functions::{Function, functions_of};
use std::alloc::Global;

/// What constraints want of a program, once for all points.
#[derive(Drop)]
pub struct Rules<'p> {
    pub program: &'p Program,
    /// Its points.
    pub flow: &'p Flow,
    /// Its tracked cells, and the numbers of their keys.
    pub tracked: List<u32>,
    pub cell_keys: List<Option<u32>>,
    /// Its functions, by id.
    pub functions: List<Function<'p>>,
    /// Those that are handlers.
    pub handlers: List<Handler>,
    /// Of each function, which of its locals are registers.
    pub marks: List<List<bool>>,
}

/// What constraints want of a program whose points are these.
pub fn rules_of<'p>(
    alloc: Global,
    program: &'p Program,
    flow: &'p Flow,
) -> Result<Rules<'p>, NoMemory>
    requires typed { IsTypedProgram program.now }
    requires flow { flow.now ≡ flow_of program.now }
    requires few { count_of program.now ≤ 65536 }
    requires few_keys { length (keys_of program.now) < 2 ^ 32 }
    ensures { IfOk result (λ rules. AreOf program.now rules) }
{
    let tracked = tracked(alloc, program)?;
    let cell_keys = keys_of_cells(alloc, program, &tracked)?;
    let functions = functions_of(alloc, program, flow)?;
    let handlers = handlers_of(alloc, program, &functions)?;
    let funcs = program.funcs.all();
    let marks = marks_of(alloc, funcs)?;
    Ok(Rules {
        program,
        flow,
        tracked: List::of(tracked),
        cell_keys: List::of(cell_keys),
        functions: List::of(functions),
        handlers: List::of(handlers),
        marks: List::of(marks),
    })
}
