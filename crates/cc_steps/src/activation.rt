//! Activations, and how one goes on in its function.

ghost use Rattle.std.specs.Prelude.{◌≡◌, IfOk, OnOk, OnErr, option_map};
ghost use Rattle.cc_program.specs.declared.stmt.Stmt.{out-Stmt};
ghost use Rattle.cc_program.specs.declared.stmt.Stmt.TheOpen as is;
ghost use Rattle.cc_eval.specs.CcSyntax.Sizes.{AreSized};
ghost use Rattle.cc_control.specs.Control.{path_of as path_of_control, behind as behind_of};
ghost use Rattle.cc_control.specs.View.{level_of, levels_of, control_of};
ghost use Rattle.cc_eval.specs.Progress.{operands_of as operands_of_marks};
ghost use Rattle.cc_steps.specs.Step.{moved, begun_at as begun_at_of, past_level, settled_in, settled, marked};
ghost use Rattle.cc_steps.specs.View.{active_of, moved_if};

use crate::progress::{at_test, begun_at, is_known, passes, progress_at};
use cc_control::{Control, Level, behind, first};
use cc_eval::Mark;
use cc_program::num::NoMemory;
use cc_program::{Expr, Program, Stmt, Value};
use std::alloc::Global;

/// A function that was entered and has not returned.
#[derive(Drop)]
pub struct Activation<'p> {
    /// How many activations were opened before it.
    pub number: u64,
    /// The id of the function.
    pub func: u32,
    /// Whether it entered as an interrupt handler.
    pub handler: bool,
    /// For each local the values of its scalars, in order of path; none where one was not written yet.
    pub locals: Vec<Vec<Option<Value>>>,
    // The innermost level, whose first statement makes the next step, or waits for a call. Nothing is left of it at the
    // return at the function's end.
    pub(crate) here: Level<'p>,
    // The levels around it, the body's first.
    pub(crate) around: Vec<Level<'p>>,
    // What the present full expression has done so far.
    pub(crate) marks: Vec<Mark>,
}

impl<'p> Activation<'p> {
    /// Stands at a place of its function, with nothing done there.
    pub(crate) fn move_to(&mut self, to: Control<'p>)
        ensures { active_of self.new ≡ moved (active_of self.old) (control_of to.entry) }
    {
        self.here = to.here;
        self.around = to.around;
        self.marks.clear();
    }

    /// Where it goes behind its statement.
    fn goes_behind(&self, alloc: Global, p: &'p Program) -> Result<Control<'p>, NoMemory>
        requires { AreSized p.now.structures p.now.target }
        ensures { IfOk result (λ c. control_of c ≡ begun_at_of p.now self.now.number self.now.func (behind_of (active_of self.now).here (active_of self.now).around)) }
    {
        let next = behind(alloc, self.here, &self.around)?;
        begun_at(alloc, p, self.number, self.func, next)
    }

    /// Where it goes from an expression statement, once the value is known.
    fn left_after(
        &self,
        alloc: Global,
        p: &'p Program,
        e: &'p Expr,
    ) -> Result<Option<Control<'p>>, NoMemory>
        requires { AreSized p.now.structures p.now.target }
        ensures { IfOk result (λ r. settled_in p.now (is.Do e.now) (active_of self.now) ≡ moved_if (active_of self.now) (option_map control_of r)) }
    {
        let progress = progress_at(alloc, p, self.number, self.func, &self.marks, Some(e))?;
        if is_known(progress) {
            Ok(Some(self.goes_behind(alloc, p)?))
        } else {
            Ok(None)
        }
    }

    /// Where it goes from an expression of a loop that it leaves for the test.
    fn left_for_test(&self, alloc: Global, p: &'p Program) -> Result<Option<Control<'p>>, NoMemory>
        requires { AreSized p.now.structures p.now.target }
        ensures { IfOk result (λ r. past_level p.now (active_of self.now) ≡ moved_if (active_of self.now) (option_map control_of r)) }
    {
        if passes(alloc, p, self.number, self.func, &self.marks, &self.here)? {
            Ok(Some(Control {
                here: at_test(self.here),
                around: Vec::from_slice(alloc, &self.around)?,
            }))
        } else {
            Ok(None)
        }
    }

    /// Where it goes from a statement that it leaves as soon as the value of its full expression is known.
    fn left_by(
        &self,
        alloc: Global,
        p: &'p Program,
        s: &'p Stmt,
    ) -> Result<Option<Control<'p>>, NoMemory>
        requires { AreSized p.now.structures p.now.target }
        ensures { IfOk result (λ r. settled_in p.now (out-Stmt s.now) (active_of self.now) ≡ moved_if (active_of self.now) (option_map control_of r)) }
    {
        match s {
            Stmt::Do(e) => self.left_after(alloc, p, e.get()),
            Stmt::For(_, _, _, _) => self.left_for_test(alloc, p),
            _ => Ok(None),
        }
    }

    /// Goes on where it leaves its statement by that alone.
    #[tactic(auto, using(crate::proofs::FirstLemmas::of_settled))]
    fn settle(&mut self, alloc: Global, p: &'p Program) -> Result<(), NoMemory>
        requires { AreSized p.now.structures p.now.target }
        ensures ok { OnOk result (active_of self.new ≡ settled p.now (level_of self.old.here).rest (active_of self.old)) }
        ensures err { OnErr result (active_of self.new ≡ active_of self.old) }
    {
        if let Some(s) = first(self.here.left) {
            if let Some(to) = self.left_by(alloc, p, s)? {
                self.move_to(to);
            }
        }
        Ok(())
    }

    /// One more step of the present full expression is done.
    pub(crate) fn mark(&mut self, alloc: Global, p: &'p Program, mark: Mark) -> Result<(), NoMemory>
        requires { AreSized p.now.structures p.now.target }
        ensures ok { OnOk result (active_of self.new ≡ marked p.now (active_of self.old) mark) }
        ensures err { OnErr result (active_of self.new ≡ active_of self.old) }
    {
        self.marks.push(mark)?;
        let settled = self.settle(alloc, p);
        if settled.is_err() {
            self.marks.pop();
        }
        settled
    }
}
