//! Marks of the numbers below a bound that a list has.

ghost use Rattle.std.specs.Prelude.{◌≡◌, false, IfOk, replicate};
ghost use Rattle.cc_registers.specs.Marks.{marks_of, with_mark};

use cc_program::num::NoMemory;
use std::alloc::Global;

/// As many marks, none of which is set.
#[tactic(auto, using(crate::proofs::MarkLemmas::of_marks))]
fn unmarked(alloc: Global, count: usize) -> Result<Vec<bool>, NoMemory>
    ensures { IfOk result (λ r. r.items ≡ replicate count false) }
{
    let mut marks = Vec::new(alloc);
    for number in 0..count {
        marks.push(false)?;
    }
    Ok(marks)
}

/// Sets the mark of a number, where it is below the bound.
#[tactic(auto, using(std::proofs::lemmas::Grind::common_steps))]
fn mark(number: usize, marks: &mut Vec<bool>)
    ensures { marks.new.items ≡ with_mark marks.old.items number }
{
    if number < marks.len() {
        marks[number] = true;
    }
}

/// Of each number below a bound, whether it stands in a list.
#[tactic(auto, using(crate::proofs::MarkLemmas::of_marks, std::proofs::lemmas::Grind::common_steps))]
pub fn marks(alloc: Global, count: usize, list: &[u32]) -> Result<Vec<bool>, NoMemory>
    ensures { IfOk result (λ r. r.items ≡ marks_of count list.now) }
{
    let mut marks = unmarked(alloc, count)?;
    for number in list {
        mark(*number as usize, &mut marks);
    }
    Ok(marks)
}
