//! The scalars of an object (C99 6.2.5, 21), in order of path: members in order, elements in order.

ghost use Rattle.std.specs.Prelude.{◌≡◌, ◌++◌, ◌∷◌, [], IfOk, replicate, unwrap_or};
ghost use Rattle.std.specs.List.{flat_map};
ghost use Rattle.std.specs.Option.{option_copied};
ghost use Rattle.cc_cells.specs.Scalars.{zeros_over as zeros_over_of, member_zeros as member_zeros_of, structure_zeros as structure_zeros_of};

use cc_program::num::{List, Name, NoMemory, at};
use cc_program::{Address, CType, Shape, Structure, Value};
use std::alloc::Global;

/// The values of a vector, and others behind them.
#[tactic(auto, using(crate::proofs::ScalarLemmas::of_lists))]
fn appended(alloc: Global, front: Vec<Value>, values: &[Value]) -> Result<Vec<Value>, NoMemory>
    ensures { IfOk result (λ r. r.items ≡ front.items ++ values.now) }
{
    let mut all = front;
    for value in values {
        all.push(value.copy(alloc)?)?;
    }
    Ok(all)
}

fn one(alloc: Global, value: Value) -> Result<List<Value>, NoMemory>
    ensures { IfOk result (λ r. r ≡ value ∷ []) }
{
    let mut all = Vec::new(alloc);
    all.push(value)?;
    Ok(List::of(all))
}

/// The values so many times, one after the other.
#[tactic(auto, using(crate::proofs::ScalarLemmas::of_repeats))]
fn repeated(alloc: Global, values: &List<Value>, times: u32) -> Result<List<Value>, NoMemory>
    ensures { IfOk result (λ r. r ≡ flat_map (λ zeros. zeros) (replicate times values.now)) }
{
    let mut all = Vec::new(alloc);
    for _time in 0..times {
        all = appended(alloc, all, values.all())?;
    }
    Ok(List::of(all))
}

fn of_structure(alloc: Global, zeros: Option<&List<Value>>) -> Result<List<Value>, NoMemory>
    ensures { IfOk result (λ r. r ≡ unwrap_or (option_copied zeros.entry) []) }
{
    match zeros {
        None => Ok(List::of(Vec::new(alloc))),
        Some(zeros) => Ok(List::of(appended(alloc, Vec::new(alloc), zeros.all())?)),
    }
}

/// The zero or null of each scalar in a type, over structures that have these (C99 6.7.8, 10).
#[tactic(auto, unfolding(crate::specs::Scalars::zeros_over))]
pub fn zeros_over(
    alloc: Global,
    structures: &[List<Value>],
    t: &CType,
) -> Result<List<Value>, NoMemory>
    ensures { IfOk result (λ r. r ≡ zeros_over_of structures.now t.now) }
{
    match &t.shape {
        Shape::Void => Ok(List::of(Vec::new(alloc))),
        Shape::Int(_) => one(alloc, Value::Int(0)),
        Shape::Pointer(_) => one(alloc, Value::Place(Address::Null)),
        Shape::Array(of, n) => {
            let zeros = zeros_over(alloc, structures, of.get())?;
            repeated(alloc, &zeros, *n)
        }
        Shape::Struct(s) => of_structure(alloc, at(structures, *s as usize)),
        Shape::Func(_) => Ok(List::of(Vec::new(alloc))),
    }
}

#[tactic(auto, using(crate::proofs::ScalarLemmas::of_members))]
fn member_zeros(
    alloc: Global,
    structures: &[List<Value>],
    members: &[(Name, CType)],
) -> Result<List<Value>, NoMemory>
    ensures { IfOk result (λ r. r ≡ member_zeros_of structures.now members.now) }
{
    let mut all = Vec::new(alloc);
    for member in members {
        let zeros = zeros_over(alloc, structures, &member.1)?;
        all = appended(alloc, all, zeros.all())?;
    }
    Ok(List::of(all))
}

/// The zeros of each structure; it stands on those before it.
#[tactic(auto, using(crate::proofs::ScalarLemmas::of_structures))]
pub fn structure_zeros(
    alloc: Global,
    structures: &[Structure],
) -> Result<List<List<Value>>, NoMemory>
    ensures { IfOk result (λ r. r ≡ structure_zeros_of structures.now) }
{
    let mut before = Vec::new(alloc);
    for structure in structures {
        let zeros = member_zeros(alloc, &before, structure.members.all())?;
        before.push(zeros)?;
    }
    Ok(List::of(before))
}
