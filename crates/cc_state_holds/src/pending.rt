//! Results that were given and are not written yet, and what registers hold once they are.

ghost use Rattle.std.specs.Prelude.{◌≡◌, IfOk};
ghost use Rattle.std.specs.Option.{option_copied};
ghost use Rattle.cc_state_reads.specs.CcEval.View.{progress_of as stage_of};
ghost use Rattle.cc_proof_covers.specs.Pending.{is_given as is_given_of, has_result as has_result_of, cell_written as cell_written_of, local_written as local_written_of, written_next as written_next_of, pending as pending_of, value_in as value_in_of};
ghost use Rattle.cc_state_holds.specs.Parts.{good};
ghost use Rattle.cc_steps.specs.View.{active_of};
ghost use Rattle.cc_state_reads.specs.CcSyntax.Forms.{form_of};
ghost use Rattle.cc_state_reads.specs.CcSyntax.Sizes.{AreSized};

use cc_cells::read_scalar;
use cc_meaning::Activation;
use cc_program::num::NoMemory;
use cc_program::{Cell, Expr, Program, Root, Value};
use cc_state_reads::eval::{Action, Stage};
use cc_steps::progress_at;
use std::alloc::Global;

/// Whether an expression is a call or an intrinsic.
fn is_given(e: &Expr) -> bool
    ensures { result ≡ is_given_of (form_of e.now) }
{
    matches!(e, Expr::Call(_, _) | Expr::Intr(_, _))
}

/// Whether it assigns the result of one.
fn has_result(e: Option<&Expr>) -> bool
    ensures { result ≡ has_result_of (option_copied e.entry) }
{
    match e {
        None => false,
        Some(e) => match e {
            Expr::Assign(_, given) => is_given(given.get()),
            _ => false,
        },
    }
}

/// The local that a cell is of, with the value.
fn cell_written(cell: Cell, value: Value) -> Option<(u32, Value)>
    ensures { result ≡ cell_written_of cell value }
{
    match cell {
        Cell::Device(_) => None,
        Cell::At { object, path: _ } => match object {
            Root::Static(_) => None,
            Root::Auto {
                activation: _,
                func: _,
                local,
            } => Some((local, value)),
        },
    }
}

/// The local that a step writes, and the value.
fn local_written(action: Action) -> Option<(u32, Value)>
    ensures { result ≡ local_written_of action }
{
    match action {
        Action::Write(cell, _, value) => cell_written(cell, value),
        _ => None,
    }
}

/// The local that the next step writes, and the value.
fn written_next(stage: Stage<'_, Option<Value>>) -> Option<(u32, Value)>
    ensures { result ≡ written_next_of (stage_of stage.entry) }
{
    match stage {
        Stage::Waits(action) => local_written(action.into_inner()),
        Stage::Known(_, _) => None,
        Stage::Traps(_) => None,
    }
}

/// The register that has still to get the result of the call or intrinsic that its statement has done, and that result.
pub fn pending(alloc: Global, p: &Program, a: &Activation) -> Result<Option<(u32, Value)>, NoMemory>
    requires { AreSized p.now.structures p.now.target }
    ensures { IfOk result (λ r. r ≡ pending_of p.now (active_of a.now)) }
{
    let e = a.expression();
    if !has_result(e) {
        return Ok(None);
    }
    let stage = progress_at(alloc, p, a.number, a.func, a.marks(), e)?;
    Ok(written_next(stage))
}

/// What a local that is a scalar holds, if it was written.
fn written<'a>(a: &'a Activation, r: u32) -> Option<&'a Value>
    ensures { option_copied result ≡ good (value_in_of None (active_of a.now) r) }
{
    match read_scalar(&a.locals, r, 0) {
        None => None,
        Some(held) => held.as_ref(),
    }
}

/// What it holds once a result is written.
pub fn value_in<'a>(
    pending: Option<&'a (u32, Value)>,
    a: &'a Activation,
    r: u32,
) -> Option<&'a Value>
    ensures { option_copied result ≡ good (value_in_of (option_copied pending.entry) (active_of a.now) r) }
{
    match pending {
        None => written(a, r),
        Some(given) => {
            if r == given.0 {
                Some(&given.1)
            } else {
                written(a, r)
            }
        }
    }
}
