//! The first values of static objects.

ghost use Rattle.std.specs.Prelude.{◌≡◌, IfOk, map};
ghost use Rattle.cc_rules_asked.specs.CcSteps.State.{first_value as first_value_of, first_values as first_values_of};
ghost use Rattle.cc_rules_asked.specs.CcSteps.Whole.{values_over};

use cc_program::num::{List, NoMemory};
use cc_program::{Leaf, Object, Program, Value};
use cc_rules_asked::cells::{structure_zeros, zeros_over};
use std::alloc::Global;

fn first_value(alloc: Global, leaf: &Leaf) -> Result<Value, NoMemory>
    ensures { IfOk result (λ v. v ≡ first_value_of leaf.now) }
{
    match leaf {
        Leaf::Int(n) => Ok(Value::Int(*n)),
        Leaf::Place(address) => Ok(Value::Place(address.copy(alloc)?)),
    }
}

#[tactic(auto, using(crate::proofs::FirstValues::of_values))]
fn given_values(alloc: Global, leaves: &[Leaf]) -> Result<List<Value>, NoMemory>
    ensures { IfOk result (λ values. values ≡ map first_value_of leaves.now) }
{
    let mut values = Vec::new(alloc);
    for leaf in leaves {
        values.push(first_value(alloc, leaf)?)?;
    }
    Ok(List::of(values))
}

/// How the scalars of an object start, over structures that have these zeros (C99 6.7.8, 10).
#[tactic(auto, using(crate::proofs::FirstValues::of_values))]
fn first_values(
    alloc: Global,
    structures: &[List<Value>],
    object: &Object,
) -> Result<List<Value>, NoMemory>
    ensures { IfOk result (λ values. values ≡ values_over structures.now object.now) }
{
    if object.init.all().is_empty() {
        return zeros_over(alloc, structures, &object.ctype);
    }
    given_values(alloc, object.init.all())
}

/// How some objects start.
#[tactic(auto, using(crate::proofs::FirstValues::of_values))]
fn all_over(
    alloc: Global,
    structures: &[List<Value>],
    objects: &[Object],
) -> Result<Vec<List<Value>>, NoMemory>
    ensures { IfOk result (λ values. values.items ≡ map (values_over structures.now) objects.now) }
{
    let mut all = Vec::new(alloc);
    for object in objects {
        let values = first_values(alloc, structures, object)?;
        all.push(values)?;
    }
    Ok(all)
}

/// How the static objects of a program start.
pub(crate) fn all_first_values(alloc: Global, p: &Program) -> Result<Vec<List<Value>>, NoMemory>
    ensures { IfOk result (λ values. values.items ≡ map (first_values_of p.now) p.now.objects) }
{
    let structures = p.structures.all();
    let zeros = structure_zeros(alloc, structures)?;
    let structures_zeros = zeros.all();
    let objects = p.objects.all();
    all_over(alloc, structures_zeros, objects)
}
