//! How far full expressions have come in an activation, and where it begins.

ghost use Rattle.std.specs.Prelude.{◌≡◌, IfOk, option_map};
ghost use Rattle.std.specs.Option.{option_copied};
ghost use Rattle.cc_program.specs.declared.stmt.Stmt.{out-Stmt};
ghost use Rattle.cc_eval.specs.CcSyntax.Sizes.{AreSized};
ghost use Rattle.cc_control.specs.View.{level_of, control_of};
ghost use Rattle.cc_eval.specs.View.{progress_of as stage_of};
ghost use Rattle.cc_steps.specs.Step.{progress_at as progress_at_of, passed as passed_of, passes as passes_of, is_known as is_known_of, at_test as at_test_of, begun_at as begun_at_of};

use crate::choices::expression_in;
use cc_control::{Control, Level, Phase, first};
use cc_eval::{Context, Mark, Stage, next_of};
use cc_program::num::{NoMemory, at};
use cc_program::{Expr, Program, Stmt, Value};
use std::alloc::Global;

/// How far a full expression has come in an activation, by its number, the id of its function, and what its steps have
/// done; an expression that is missing is done at once.
pub fn progress_at<'p, 'm>(
    alloc: Global,
    p: &'p Program,
    number: u64,
    id: u32,
    marks: &'m [Mark],
    e: Option<&'p Expr>,
) -> Result<Stage<'m, Option<Value>>, NoMemory>
    requires { AreSized p.now.structures p.now.target }
    ensures { IfOk result (λ s. stage_of s ≡ progress_at_of p.now number id marks.now (option_copied e.entry)) }
{
    match at(p.funcs.all(), id as usize) {
        None => Ok(Stage::Traps(marks)),
        Some(func) => match e {
            None => Ok(Stage::Known(Some(Value::Int(0)), marks)),
            Some(e) => {
                let c = Context {
                    program: p,
                    number,
                    id,
                    func,
                };
                next_of(alloc, c, e, marks)
            }
        },
    }
}

/// Whether the value of a full expression is known, and not bad.
pub fn is_known(s: Stage<'_, Option<Value>>) -> bool
    ensures { result ≡ is_known_of (stage_of s.entry) }
{
    match s {
        Stage::Known(Some(_), _) => true,
        Stage::Known(None, _) => false,
        Stage::Waits(_) => false,
        Stage::Traps(_) => false,
    }
}

/// The first expression of a `for`, and what that does behind its body: an activation leaves them as soon as their value
/// is known.
fn passed(s: &Stmt, phase: Phase) -> Option<Option<&Expr>>
    ensures { option_map (λ e. option_copied e) result ≡ passed_of (out-Stmt s.now) phase }
{
    match s {
        Stmt::For(first, _, again, _) => match phase {
            Phase::First => Some(expression_in(first)),
            Phase::Test => None,
            Phase::Again => Some(expression_in(again)),
        },
        _ => None,
    }
}

/// Whether what is worked at a level is left so, by what its steps have done.
#[tactic(auto, using(crate::proofs::FirstLemmas::of_passed))]
pub fn passes<'p>(
    alloc: Global,
    p: &'p Program,
    number: u64,
    id: u32,
    marks: &[Mark],
    here: &Level<'p>,
) -> Result<bool, NoMemory>
    requires { AreSized p.now.structures p.now.target }
    ensures { IfOk result (λ b. b ≡ passes_of p.now number id marks.now (level_of here.now)) }
{
    match first(here.left) {
        None => Ok(false),
        Some(s) => match passed(s, here.phase) {
            None => Ok(false),
            Some(e) => Ok(is_known(progress_at(alloc, p, number, id, marks, e)?)),
        },
    }
}

/// The same level, at the test of its loop.
pub fn at_test<'p>(here: Level<'p>) -> Level<'p>
    ensures { level_of result ≡ at_test_of (level_of here.entry) }
{
    Level {
        left: here.left,
        position: here.position,
        phase: Phase::Test,
    }
}

/// Where an activation stands that goes to a place of its function.
pub fn begun_at<'p>(
    alloc: Global,
    p: &'p Program,
    number: u64,
    id: u32,
    to: Control<'p>,
) -> Result<Control<'p>, NoMemory>
    requires { AreSized p.now.structures p.now.target }
    ensures { IfOk result (λ c. control_of c ≡ begun_at_of p.now number id (control_of to.entry)) }
{
    if passes(alloc, p, number, id, &[], &to.here)? {
        Ok(Control {
            here: at_test(to.here),
            around: to.around,
        })
    } else {
        Ok(to)
    }
}
