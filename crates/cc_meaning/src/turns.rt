//! The turns of a machine, and what can be seen of it.

ghost use Rattle.std.specs.Prelude.{◌≡◌, ◌↔◌, ◌<◌, ◌≤◌, ◌+◌, ◌-◌, ◌^◌, IfOk, OnOk, OnErr, IsTrue};
ghost use Rattle.cc_states.specs.CcSyntax.Sound.{IsSound};
ghost use Rattle.cc_states.specs.CcSteps.Runs.{IsBoundary};
ghost use Rattle.cc_states.specs.CcSteps.Turn.{start as start_of, turn as turn_of, took as took_of};
ghost use Rattle.cc_states.specs.CcSteps.declared.event.Took.TheVariants.{Ended};
ghost use Rattle.cc_meaning.specs.View.{state_of};

use crate::machine::Machine;
use cc_program::Program;
use cc_program::num::NoMemory;
use cc_states::steps::{End, Event, Run, Took};
use std::alloc::Global;
use std::mem;

/// The state before the first turn: the flag is off, each object has its first values, and main runs. The inputs are what
/// the devices give, in order.
pub fn start<'p>(alloc: Global, p: &'p Program, inputs: Vec<i128>) -> Result<Machine<'p>, NoMemory>
    requires { IsSound p.now }
    ensures program { IfOk result (λ m. m.program.now ≡ p.now) }
    ensures state { IfOk result (λ m. state_of m ≡ start_of p.now inputs.items) }
{
    let Run {
        program,
        flag,
        statics,
        stack,
        inputs,
        trace,
        opened,
        end,
    } = cc_states::steps::start(alloc, p, inputs)?;
    Ok(Machine {
        program,
        flag,
        statics,
        stack,
        inputs,
        trace,
        opened,
        end,
    })
}

impl<'p> Machine<'p> {
    /// What could be seen of the run so far, in order.
    pub fn trace(&self) -> &[Event]
        ensures { result.now ≡ (state_of self.now).memory.trace }
    {
        &self.trace
    }

    /// How the run stands.
    pub fn end(&self) -> End
        ensures { result ≡ (state_of self.now).end }
    {
        self.end
    }

    /// How many activations were opened so far.
    pub fn opened(&self) -> u64
        ensures { result ≡ (state_of self.now).opened }
    {
        self.opened
    }

    /// Whether the running activation's next step is the first of a statement, of a loop's turn, or of the return at the
    /// function's end. A run that has ended has no next step.
    pub fn at_boundary(&self) -> bool
        ensures { IsTrue result ↔ IsBoundary (state_of self.now) }
    {
        cc_states::steps::at_boundary(&self.stack, self.end)
    }

    /// One turn: the handler that the arrival names enters if it may; else the arrival is ignored, and the program makes a
    /// step. Once the run has ended, turns change nothing. After want of memory the state is as before.
    ///
    /// The address of an array of one element and that of its element are one value; an access tells which cell it means by
    /// the type that is pointed to.
    pub fn step(&mut self, alloc: Global, arrival: Option<u32>) -> Result<Took, NoMemory>
        requires sound { IsSound self.old.program.now }
        requires few { (state_of self.old).opened < 2 ^ 64 - 1 }
        ensures program { self.new.program ≡ self.old.program }
        ensures turn { OnOk result (state_of self.new ≡ turn_of self.old.program.now (state_of self.old) arrival) }
        ensures took { IfOk result (λ t. t ≡ took_of self.old.program.now (state_of self.old) arrival) }
        ensures ended { IfOk result (λ t. t ≡ Ended → state_of self.new ≡ state_of self.old) }
        ensures opened { OnOk result ((state_of self.new).opened ≤ (state_of self.old).opened + 1) }
        ensures err { OnErr result (state_of self.new ≡ state_of self.old) }
    {
        let mut run = Run {
            program: self.program,
            flag: self.flag,
            statics: mem::replace(&mut self.statics, Vec::new(alloc)),
            stack: mem::replace(&mut self.stack, Vec::new(alloc)),
            inputs: mem::replace(&mut self.inputs, Vec::new(alloc)),
            trace: mem::replace(&mut self.trace, Vec::new(alloc)),
            opened: self.opened,
            end: self.end,
        };
        let took = run.step(alloc, arrival);
        let Run {
            program: _,
            flag,
            statics,
            stack,
            inputs,
            trace,
            opened,
            end,
        } = run;
        self.flag = flag;
        self.statics = statics;
        self.stack = stack;
        self.inputs = inputs;
        self.trace = trace;
        self.opened = opened;
        self.end = end;
        took
    }
}
