//! Where an activation stands, as others see it: whether at a boundary, by its path and operands, and by its marks.

ghost use Rattle.std.specs.Option.{option_copied};
ghost use Rattle.std.specs.Prelude.{◌≡◌, ◌&&◌, ◌++◌, ◌∷◌, [], IfOk};
ghost use Rattle.cc_control.specs.Control.{path_of};
ghost use Rattle.cc_control.specs.View.{level_of};
ghost use Rattle.cc_eval.specs.Progress.{operands_of};
ghost use Rattle.cc_program.specs.declared.stmt.Stmt.{out-Stmt};
ghost use Rattle.cc_steps.specs.Runs.{begins_at as begins_at_of, begins as begins_of, is_empty, running_begins};
ghost use Rattle.cc_steps.specs.Step.{worked_at};
ghost use Rattle.cc_steps.specs.Turn.{is_going as is_going_of};
ghost use Rattle.cc_steps.specs.View.{active_of, actives_of};

use crate::activation::Activation;
use crate::choices::worked;
use crate::event::End;
use crate::turn::is_going;
use cc_control::{Level, Phase, first};
use cc_eval::Mark;
use cc_program::num::NoMemory;
use cc_program::{Expr, Stmt, Value};
use std::alloc::Global;

/// Whether a statement, or a turn of it as a loop, begins with the expression that comes in this phase.
fn begins_at(s: &Stmt, phase: Phase) -> bool
    ensures { result ≡ begins_at_of (out-Stmt s.now) phase }
{
    match s {
        Stmt::DoWhile(body, _) => body.all().is_empty(),
        Stmt::For(_, _, _, _) => !matches!(phase, Phase::Again),
        _ => true,
    }
}

#[tactic(auto, using(crate::proofs::BoundaryLemmas::of_first))]
fn begins(here: &Level) -> bool
    ensures { result ≡ begins_of (level_of here.now).rest here.now.phase }
{
    match first(here.left) {
        None => true,
        Some(s) => begins_at(s, here.phase),
    }
}

/// What marks have given, and one more.
fn with_operand(
    alloc: Global,
    operands: Vec<Option<Value>>,
    mark: &Mark,
) -> Result<Vec<Option<Value>>, NoMemory>
    ensures { IfOk result (λ v. v.items ≡ operands.items ++ operands_of (mark.now ∷ [])) }
{
    let mut operands = operands;
    match mark {
        Mark::Gave(None) => operands.push(None)?,
        Mark::Gave(Some(v)) => operands.push(Some(v.copy(alloc)?))?,
        Mark::Did | Mark::Chose(_) => {}
    }
    Ok(operands)
}

impl<'p> Activation<'p> {
    /// What the steps of the present full expression have done so far, in order.
    pub fn marks(&self) -> &[Mark]
        ensures { result.now ≡ (active_of self.now).marks }
    {
        self.marks.as_slice()
    }

    /// The full expression that is worked, where one is: of the statement of the next step, or of the one that waits for the
    /// value of a call. Of a `for` it is the one that comes in this phase.
    #[tactic(auto, using(crate::proofs::BoundaryLemmas::of_worked))]
    pub fn expression(&self) -> Option<&Expr>
        ensures { option_copied result ≡ worked_at (active_of self.now).here (active_of self.now).here.rest }
    {
        match first(self.here.left) {
            None => None,
            Some(s) => worked(s, self.here.phase),
        }
    }

    /// Whether nothing was done yet of a statement, of a loop's turn, or of the return at the function's end.
    fn begins(&self) -> bool
        ensures { result ≡ is_empty (active_of self.now).marks && begins_of (active_of self.now).here.rest (active_of self.now).here.phase }
    {
        self.marks.is_empty() && begins(&self.here)
    }

    /// The positions that lead from the function's body inwards to the statement of the next step, or of the call that the
    /// activation waits for, one in each list. The two lists of an `if` count as one, the first in front, and so do the
    /// bodies of a `switch`. At the return at the function's end it is the body's length alone.
    #[tactic(auto, using(crate::proofs::BoundaryLemmas::of_paths))]
    pub fn path(&self, alloc: Global) -> Result<Vec<u32>, NoMemory>
        ensures { IfOk result (λ v. v.items ≡ path_of ((active_of self.now).here, (active_of self.now).around)) }
    {
        let mut path = Vec::new(alloc);
        for level in &self.around {
            path.push(level.position)?;
        }
        path.push(self.here.position)?;
        Ok(path)
    }

    /// The values that reads, calls and intrinsics have given so far in the present full expression, in order; none for a
    /// bad one.
    #[tactic(auto, using(crate::proofs::BoundaryLemmas::of_operands))]
    pub fn operands(&self, alloc: Global) -> Result<Vec<Option<Value>>, NoMemory>
        ensures { IfOk result (λ v. v.items ≡ operands_of (active_of self.now).marks) }
    {
        let mut operands = Vec::new(alloc);
        for mark in &self.marks {
            operands = with_operand(alloc, operands, mark)?;
        }
        Ok(operands)
    }
}

/// Whether the next step of the last of these activations is the first of a statement, of a loop's turn, or of the return at
/// the function's end, in a run that stands so. A run that has ended has no next step.
#[tactic(auto, using(crate::proofs::BoundaryLemmas::of_running))]
pub fn at_boundary(stack: &[Activation], end: End) -> bool
    ensures { result ≡ (running_begins (actives_of stack.now) && is_going_of end) }
{
    let n = stack.len();
    if n == 0 {
        return false;
    }
    let begins = stack[n - 1].begins();
    begins && is_going(end)
}
