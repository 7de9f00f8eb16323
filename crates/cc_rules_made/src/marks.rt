//! Which locals of functions are registers.

ghost use Rattle.std.specs.List.{AllZip};
ghost use Rattle.std.specs.Prelude.{IfOk};
ghost use Rattle.cc_rules_asked.specs.CcRegisters.Kept.{AreKept};

use cc_program::Func;
use cc_program::num::{List, NoMemory};
use cc_rules_asked::registers::registers_of;
use std::alloc::Global;

/// Of each of some functions, which locals are registers.
pub(crate) fn marks_of(alloc: Global, functions: &[Func]) -> Result<Vec<List<bool>>, NoMemory>
    ensures { IfOk result (λ marks. AllZip AreKept functions.now marks.items) }
{
    let mut marks = Vec::new(alloc);
    for function in functions {
        let kept = registers_of(alloc, function)?;
        marks.push(List::of(kept))?;
    }
    Ok(marks)
}
