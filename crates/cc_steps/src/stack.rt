//! The stack of activations, the running one last.

ghost use Rattle.std.specs.Prelude.{◌≡◌, ℕ, IfOk, OnOk, OnErr, MatchOption, Some};
ghost use Rattle.std.specs.Option.{option_copied};
ghost use Rattle.cc_cells.specs.Counts.{counted};
ghost use Rattle.cc_eval.specs.CcSyntax.Sizes.{AreSized};
ghost use Rattle.cc_steps.specs.Access.{content as content_of, local_content as local_content_of, is_open as is_open_of, with_local, with_locals};
ghost use Rattle.cc_cells.specs.Cells.{with_scalar};
ghost use Rattle.cc_steps.specs.Step.{on_top};
ghost use Rattle.cc_steps.specs.View.{active_of, actives_of, NoneHas, IsNewest};

use crate::activation::Activation;
use crate::content::Content;
use cc_cells::{read_scalar, write_scalar};
use cc_eval::Mark;
use cc_program::num::NoMemory;
use cc_program::{Program, Value};
use std::alloc::Global;

/// One more step of the running activation's full expression is done.
#[tactic(auto, using(crate::proofs::StackLemmas::of_last))]
pub fn mark_top<'p>(
    alloc: Global,
    p: &'p Program,
    stack: &mut [Activation<'p>],
    mark: Mark,
) -> Result<(), NoMemory>
    requires { AreSized p.now.structures p.now.target }
    ensures ok { OnOk result (actives_of stack.new ≡ on_top p.now (actives_of stack.old) mark) }
    ensures err { OnErr result (actives_of stack.new ≡ actives_of stack.old) }
{
    let n = stack.len();
    if n == 0 {
        return Ok(());
    }
    stack[n - 1].mark(alloc, p, mark)
}

/// Where the newest activation with a number stands.
#[tactic(auto, using(crate::proofs::NewestLemmas::of_search))]
fn find(stack: &[Activation], number: u64) -> Option<usize>
    ensures { MatchOption result (NoneHas number stack.now) (λ i. IsNewest stack.now number i) }
{
    let mut i = stack.len();
    while i > 0 {
        i -= 1;
        if stack[i].number == number {
            return Some(i);
        }
    }
    None
}

/// Whether an activation with this number is open.
#[tactic(auto, using(crate::proofs::NewestLemmas::of_newest))]
pub fn is_open(stack: &[Activation], number: u64) -> bool
    ensures { result ≡ is_open_of (actives_of stack.now) number }
{
    match find(stack, number) {
        None => false,
        Some(_) => true,
    }
}

fn content(alloc: Global, v: Option<&Option<Value>>) -> Result<Content, NoMemory>
    ensures { IfOk result (λ c. c ≡ content_of (option_copied v.entry)) }
{
    match v {
        None => Ok(Content::Unwritten),
        Some(None) => Ok(Content::Unwritten),
        Some(Some(v)) => Ok(Content::Holds(v.copy(alloc)?)),
    }
}

/// What a scalar of a local holds.
#[tactic(auto, using(crate::proofs::NewestLemmas::of_newest))]
pub fn local_content(
    alloc: Global,
    stack: &[Activation],
    number: u64,
    local: u32,
    position: usize,
) -> Result<Content, NoMemory>
    ensures { IfOk result (λ c. (n : ℕ) → counted n ≡ position → c ≡ local_content_of (actives_of stack.now) number local n) }
{
    match find(stack, number) {
        None => Ok(Content::Gone),
        Some(i) => content(alloc, read_scalar(&stack[i].locals, local, position)),
    }
}

fn write_in(a: &mut Activation, local: u32, position: usize, value: Value)
    ensures { (n : ℕ) → counted n ≡ position → active_of a.new ≡ with_locals (active_of a.old) (with_scalar (active_of a.old).locals local n (Some value)) }
{
    write_scalar(&mut a.locals, local, position, Some(value));
}

/// Writes a scalar of a local, where its activation is open.
#[tactic(auto, using(crate::proofs::NewestLemmas::of_newest))]
pub fn write_local(stack: &mut [Activation], number: u64, local: u32, position: usize, value: Value)
    ensures { (n : ℕ) → counted n ≡ position → actives_of stack.new ≡ with_local (actives_of stack.old) number local n value }
{
    if let Some(i) = find(stack, number) {
        write_in(&mut stack[i], local, position, value);
    }
}
