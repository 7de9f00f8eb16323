//! Where a run begins.

ghost use Rattle.std.specs.Prelude.{◌≡◌, IfOk, map, slice_get};
ghost use Rattle.cc_cells.specs.Cells.{cells_of};
ghost use Rattle.cc_eval.specs.CcSyntax.Sizes.{AreSized};
ghost use Rattle.cc_eval.specs.CcSyntax.Sound.{IsSound};
ghost use Rattle.cc_steps.specs.State.{first_value as first_value_of};
ghost use Rattle.cc_steps.specs.Turn.{first_of_stack, start as start_of};
ghost use Rattle.cc_steps.specs.View.{actives_of, state_of};
ghost use Rattle.cc_steps.specs.Whole.{values_over};

use crate::activation::Activation;
use crate::calls::activation;
use crate::event::End;
use crate::run::Run;
use cc_cells::{structure_zeros, zeros_over};
use cc_program::num::{List, NoMemory, at};
use cc_program::{Leaf, Object, Program, Value};
use std::alloc::Global;

fn first_value(alloc: Global, leaf: &Leaf) -> Result<Value, NoMemory>
    ensures { IfOk result (λ v. v ≡ first_value_of leaf.now) }
{
    match leaf {
        Leaf::Int(n) => Ok(Value::Int(*n)),
        Leaf::Place(address) => Ok(Value::Place(address.copy(alloc)?)),
    }
}

#[tactic(auto, using(crate::proofs::StartLemmas::of_values))]
fn given_values(alloc: Global, leaves: &[Leaf]) -> Result<Vec<Value>, NoMemory>
    ensures { IfOk result (λ v. v.items ≡ map first_value_of leaves.now) }
{
    let mut values = Vec::new(alloc);
    for leaf in leaves {
        values.push(first_value(alloc, leaf)?)?;
    }
    Ok(values)
}

/// How the scalars of an object start, over structures that have these zeros (C99 6.7.8, 10).
#[tactic(auto, using(crate::proofs::StartLemmas::of_values))]
fn first_values(
    alloc: Global,
    structures: &[List<Value>],
    object: &Object,
) -> Result<Vec<Value>, NoMemory>
    ensures { IfOk result (λ v. v.items ≡ values_over structures.now object.now) }
{
    if object.init.all().is_empty() {
        return Ok(zeros_over(alloc, structures, &object.ctype)?.into_vec());
    }
    given_values(alloc, object.init.all())
}

/// How all objects start, over structures that have these zeros.
#[tactic(auto, using(crate::proofs::StartLemmas::of_statics))]
fn statics(
    alloc: Global,
    structures: &[List<Value>],
    objects: &[Object],
) -> Result<Vec<Vec<Value>>, NoMemory>
    ensures { IfOk result (λ v. cells_of v.items ≡ map (values_over structures.now) objects.now) }
{
    let mut all = Vec::new(alloc);
    for object in objects {
        all.push(first_values(alloc, structures, object)?)?;
    }
    Ok(all)
}

/// The stack that has an activation of main alone.
#[tactic(auto, using(crate::proofs::StackLemmas::of_push))]
fn first_stack<'p>(alloc: Global, p: &'p Program) -> Result<Vec<Activation<'p>>, NoMemory>
    requires { AreSized p.now.structures p.now.target }
    ensures { IfOk result (λ v. actives_of v.items ≡ first_of_stack p.now (slice_get p.now.funcs p.now.main)) }
{
    let mut stack = Vec::new(alloc);
    if let Some(f) = at(p.funcs.all(), p.main as usize) {
        stack.push(activation(alloc, p, 0, p.main, false, &[], f)?)?;
    }
    Ok(stack)
}

/// The state before the first turn: the flag is off, each object has its first values, and main runs. The inputs are what
/// the devices give, in order.
#[tactic(auto, using(crate::proofs::StartLemmas::of_start))]
pub fn start<'p>(alloc: Global, p: &'p Program, inputs: Vec<i128>) -> Result<Run<'p>, NoMemory>
    requires { IsSound p.now }
    ensures program { IfOk result (λ m. m.program.now ≡ p.now) }
    ensures state { IfOk result (λ m. state_of m ≡ start_of p.now inputs.items) }
{
    let mut inputs = inputs;
    inputs.reverse();
    let zeros = structure_zeros(alloc, p.structures.all())?;
    Ok(Run {
        program: p,
        flag: false,
        statics: statics(alloc, zeros.all(), p.objects.all())?,
        stack: first_stack(alloc, p)?,
        inputs,
        trace: Vec::new(alloc),
        opened: 1,
        end: End::Going,
    })
}
