//! The steps of a program.

ghost use Rattle.std.specs.Prelude.{◌≡◌, ◌<◌, ◌-◌, ◌^◌, List as Items, IfOk, OnOk, OnErr};
ghost use Rattle.cc_program.specs.CcNum.Results.{one_if as one_if_of};
ghost use Rattle.cc_program.specs.declared.stmt.Stmt.{out-Stmt};
ghost use Rattle.cc_eval.specs.CcSyntax.Sizes.{AreSized};
ghost use Rattle.cc_control.specs.View.{level_of};
ghost use Rattle.cc_steps.specs.State.{Active, State};
ghost use Rattle.cc_steps.specs.Step.{goes_to, next_place, call as call_of, did, with_flag, perform as perform_of, active_step, proceed as proceed_of};
ghost use Rattle.cc_steps.specs.View.{active_of, state_of, went, fallen_first, done_first};
ghost use Rattle.cc_steps.specs.Whole.{went_first};

use crate::activation::Activation;
use crate::choices::{is_return, worked};
use crate::event::End;
use crate::progress::{begun_at, progress_at};
use crate::returns::gives_nothing;
use crate::run::Run;
use crate::stack::mark_top;
use cc_control::first;
use cc_eval::{Action, Mark, Stage};
use cc_program::num::{Boxed, List, NoMemory, at};
use cc_program::{Address, Program, Stmt, Value};
use std::alloc::Global;

fn one_if(b: bool) -> i128
    ensures { result ≡ one_if_of b }
{
    if b { 1 } else { 0 }
}

/// What the running activation does next.
#[derive(Drop)]
pub enum Next<'p> {
    /// It is at the end of its function.
    Falls,
    /// A step of a full expression.
    Performs(Boxed<Action>),
    /// It traps.
    Traps,
    /// The full expression of its statement has this value.
    Done(&'p Stmt, Value),
}

#[tactic(auto, using(crate::proofs::StepLemmas::of_steps))]
fn next_in<'p>(alloc: Global, p: &'p Program, a: &Activation<'p>) -> Result<Next<'p>, NoMemory>
    requires { AreSized p.now.structures p.now.target }
    ensures { IfOk result (λ n. (s : State) (below : Items Active) → active_step p.now (level_of a.now.here).rest s (active_of a.now) below ≡ went p.now n s (active_of a.now) below) }
{
    let Some(s) = first(a.here.left) else {
        return Ok(Next::Falls);
    };
    let e = worked(s, a.here.phase);
    match progress_at(alloc, p, a.number, a.func, &a.marks, e)? {
        Stage::Waits(action) => Ok(Next::Performs(action)),
        Stage::Traps(_) => Ok(Next::Traps),
        Stage::Known(None, _) => Ok(Next::Traps),
        Stage::Known(Some(v), _) => Ok(Next::Done(s, v)),
    }
}

impl<'p> Activation<'p> {
    /// Goes on once the value of the present statement's full expression is known.
    fn go_on(
        &mut self,
        alloc: Global,
        p: &'p Program,
        s: &'p Stmt,
        v: &Value,
    ) -> Result<(), NoMemory>
        requires { AreSized p.now.structures p.now.target }
        ensures ok { OnOk result (active_of self.new ≡ goes_to p.now (active_of self.old) (next_place (out-Stmt s.now) (active_of self.old) v.now)) }
        ensures err { OnErr result (active_of self.new ≡ active_of self.old) }
    {
        let to = self.next_place(alloc, s, v)?;
        let to = begun_at(alloc, p, self.number, self.func, to)?;
        self.move_to(to);
        Ok(())
    }
}

impl<'p> Run<'p> {
    fn call(&mut self, alloc: Global, callee: Address, args: List<Value>) -> Result<(), NoMemory>
        requires sized { AreSized self.old.program.now.structures self.old.program.now.target }
        requires few { self.old.opened < 2 ^ 64 - 1 }
        ensures program { self.new.program ≡ self.old.program }
        ensures ok { OnOk result (state_of self.new ≡ call_of self.old.program.now (state_of self.old) callee args) }
        ensures err { OnErr result (state_of self.new ≡ state_of self.old) }
    {
        let Address::Func(id) = callee else {
            self.end = End::Trap;
            return Ok(());
        };
        match at(self.program.funcs.all(), id as usize) {
            None => {
                self.end = End::Trap;
                Ok(())
            }
            Some(f) => self.open(alloc, id, false, args.all(), f),
        }
    }

    fn turn_flag(&mut self, alloc: Global, on: bool, mark: Mark) -> Result<(), NoMemory>
        requires { AreSized self.old.program.now.structures self.old.program.now.target }
        ensures program { self.new.program ≡ self.old.program }
        ensures ok { OnOk result (state_of self.new ≡ did self.old.program.now (with_flag (state_of self.old) on) mark) }
        ensures err { OnErr result (state_of self.new ≡ state_of self.old) }
    {
        mark_top(alloc, self.program, &mut self.stack, mark)?;
        self.flag = on;
        Ok(())
    }

    /// A step of a full expression.
    fn perform(&mut self, alloc: Global, action: Action) -> Result<(), NoMemory>
        requires sized { AreSized self.old.program.now.structures self.old.program.now.target }
        requires few { self.old.opened < 2 ^ 64 - 1 }
        ensures program { self.new.program ≡ self.old.program }
        ensures ok { OnOk result (state_of self.new ≡ perform_of self.old.program.now (state_of self.old) action) }
        ensures err { OnErr result (state_of self.new ≡ state_of self.old) }
    {
        match action {
            Action::Read(from, manner) => self.read(alloc, from, manner),
            Action::Write(to, is_event, value) => self.write(alloc, to, is_event, value),
            Action::Choose(b) => mark_top(alloc, self.program, &mut self.stack, Mark::Chose(b)),
            Action::Call(callee, args) => self.call(alloc, callee, args),
            Action::Flag(on) => self.turn_flag(alloc, on, Mark::Did),
            Action::Save => {
                let was = Value::Int(one_if(self.flag));
                self.turn_flag(alloc, false, Mark::Gave(Some(was)))
            }
        }
    }

    /// The end of the running activation's function.
    #[tactic(auto, using(crate::proofs::StackLemmas::of_last))]
    fn fall(&mut self, alloc: Global) -> Result<(), NoMemory>
        requires { AreSized self.old.program.now.structures self.old.program.now.target }
        ensures program { self.new.program ≡ self.old.program }
        ensures ok { OnOk result (state_of self.new ≡ fallen_first self.old.program.now (state_of self.old) (state_of self.old).stack) }
        ensures err { OnErr result (state_of self.new ≡ state_of self.old) }
    {
        let Some(a) = self.stack.last() else {
            return Ok(());
        };
        let id = a.func;
        if gives_nothing(at(self.program.funcs.all(), id as usize)) || id == self.program.main {
            return self.give_back(alloc, Value::Int(0));
        }
        self.end = End::Trap;
        Ok(())
    }

    /// The full expression of the running activation's statement has a value.
    #[tactic(auto, using(crate::proofs::StackLemmas::of_last))]
    fn done(&mut self, alloc: Global, s: &'p Stmt, v: Value) -> Result<(), NoMemory>
        requires { AreSized self.old.program.now.structures self.old.program.now.target }
        ensures program { self.new.program ≡ self.old.program }
        ensures ok { OnOk result (state_of self.new ≡ done_first self.old.program.now (out-Stmt s.now) (state_of self.old) (state_of self.old).stack v) }
        ensures err { OnErr result (state_of self.new ≡ state_of self.old) }
    {
        if is_return(s) {
            return self.give_back(alloc, v);
        }
        let Some(a) = self.stack.last_mut() else {
            return Ok(());
        };
        a.go_on(alloc, self.program, s, &v)
    }

    /// What the program does next.
    #[tactic(auto, using(crate::proofs::StepLemmas::of_running))]
    fn running_next(&self, alloc: Global) -> Result<Next<'p>, NoMemory>
        requires { AreSized self.now.program.now.structures self.now.program.now.target }
        ensures { IfOk result (λ n. proceed_of self.now.program.now (state_of self.now) (state_of self.now).stack ≡ went_first self.now.program.now n (state_of self.now) (state_of self.now).stack) }
    {
        let n = self.stack.len();
        if n == 0 {
            return Ok(Next::Traps);
        }
        let next = next_in(alloc, self.program, &self.stack[n - 1])?;
        Ok(next)
    }

    /// One step of the program.
    pub(crate) fn proceed(&mut self, alloc: Global) -> Result<(), NoMemory>
        requires sized { AreSized self.old.program.now.structures self.old.program.now.target }
        requires few { self.old.opened < 2 ^ 64 - 1 }
        ensures program { self.new.program ≡ self.old.program }
        ensures ok { OnOk result (state_of self.new ≡ proceed_of self.old.program.now (state_of self.old) (state_of self.old).stack) }
        ensures err { OnErr result (state_of self.new ≡ state_of self.old) }
    {
        match self.running_next(alloc)? {
            Next::Falls => self.fall(alloc),
            Next::Performs(action) => self.perform(alloc, action.into_inner()),
            Next::Traps => {
                self.end = End::Trap;
                Ok(())
            }
            Next::Done(s, v) => self.done(alloc, s, v),
        }
    }
}
