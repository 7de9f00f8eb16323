//! Returns of activations.

ghost use Rattle.std.specs.Prelude.{◌≡◌, ◌<◌, ◌-◌, length, take, get_or, OnOk, OnErr};
ghost use Rattle.std.specs.Option.{option_copied};
ghost use Rattle.cc_eval.specs.CcSyntax.Sizes.{AreSized};
ghost use Rattle.cc_steps.specs.declared.activation.Activation.{Activation};
ghost use Rattle.cc_steps.specs.Step.{with_stack, on_top, gives_nothing as gives_nothing_of, return_mark as return_mark_of};
ghost use Rattle.cc_steps.specs.View.{actives_of, state_of, returned_first};

use crate::choices::number_in;
use crate::event::End;
use crate::run::Run;
use cc_eval::Mark;
use cc_eval::typed::is_void;
use cc_program::num::{NoMemory, at};
use cc_program::{Func, Program, Value};
use std::alloc::Global;

/// Whether a function returns no value.
pub fn gives_nothing(f: Option<&Func>) -> bool
    ensures { result ≡ gives_nothing_of (option_copied f.entry) }
{
    match f {
        None => true,
        Some(f) => is_void(&f.sig.result),
    }
}

/// What the return of a function is for its caller.
fn return_mark(p: &Program, func: u32, value: Value) -> Mark
    ensures { result ≡ return_mark_of p.now func value }
{
    if gives_nothing(at(p.funcs.all(), func as usize)) {
        Mark::Did
    } else {
        Mark::Gave(Some(value))
    }
}

impl<'p> Run<'p> {
    /// The running activation returns, and its caller has the value.
    #[tactic(auto, using(crate::proofs::ReturnLemmas::of_answers))]
    fn answer(&mut self, alloc: Global, value: Value) -> Result<(), NoMemory>
        requires sized { AreSized self.old.program.now.structures self.old.program.now.target }
        requires called { 1 < length self.old.stack.items }
        ensures program { self.new.program ≡ self.old.program }
        ensures ok { OnOk result ((d : Activation) → state_of self.new ≡ with_stack (state_of self.old) (on_top self.old.program.now (actives_of (take (length self.old.stack.items - 1) self.old.stack.items)) (return_mark_of self.old.program.now (get_or self.old.stack.items (length self.old.stack.items - 1) d).func value))) }
        ensures err { OnErr result (state_of self.new ≡ state_of self.old) }
    {
        let n = self.stack.len();
        let mark = return_mark(self.program, self.stack[n - 1].func, value);
        self.stack[n - 2].mark(alloc, self.program, mark)?;
        self.stack.pop();
        Ok(())
    }

    #[tactic(auto, using(crate::proofs::ReturnLemmas::of_callers))]
    fn give_to_caller(&mut self, alloc: Global, value: Value) -> Result<(), NoMemory>
        requires sized { AreSized self.old.program.now.structures self.old.program.now.target }
        requires called { 1 < length self.old.stack.items }
        ensures program { self.new.program ≡ self.old.program }
        ensures ok { OnOk result (state_of self.new ≡ returned_first self.old.program.now (state_of self.old) (state_of self.old).stack value) }
        ensures err { OnErr result (state_of self.new ≡ state_of self.old) }
    {
        let n = self.stack.len();
        if self.stack[n - 1].handler {
            self.stack.pop();
            self.flag = true;
            return Ok(());
        }
        self.answer(alloc, value)
    }

    /// The running activation returns a value: the first one ends the run, a handler turns the flag on, and another one
    /// gives it to its caller.
    #[tactic(auto, using(crate::proofs::ReturnLemmas::of_returns))]
    pub(crate) fn give_back(&mut self, alloc: Global, value: Value) -> Result<(), NoMemory>
        requires { AreSized self.old.program.now.structures self.old.program.now.target }
        ensures program { self.new.program ≡ self.old.program }
        ensures ok { OnOk result (state_of self.new ≡ returned_first self.old.program.now (state_of self.old) (state_of self.old).stack value) }
        ensures err { OnErr result (state_of self.new ≡ state_of self.old) }
    {
        if self.stack.len() > 1 {
            return self.give_to_caller(alloc, value);
        }
        if self.stack.len() == 1 {
            self.end = End::Exit(number_in(&value));
            self.stack.pop();
        }
        Ok(())
    }
}
