//! Which locals of a function are registers.

ghost use Rattle.std.specs.Prelude.{◌≡◌, ◌&&◌, not, length, slice_get, IfOk};
ghost use Rattle.std.specs.Option.{option_copied};
ghost use Rattle.cc_registers.specs.Kept.{AreKept, if_kept};
ghost use Rattle.cc_registers.specs.Marks.{marks_of};
ghost use Rattle.cc_registers.specs.Taken.{taken_by_all};
ghost use Rattle.cc_typed.specs.CcSyntax.Registers.{may_be_register as may_be_register_of};

use crate::marks::marks;
use crate::statements::put_list;
use cc_program::num::{Name, NoMemory, at};
use cc_program::{CType, Func};
use cc_typed::scalar_value;
use std::alloc::Global;

/// Whether a local is a scalar that is not volatile.
fn may_be_register(local: Option<&(Name, CType)>) -> bool
    ensures { result ≡ may_be_register_of (option_copied local.entry) }
{
    match local {
        None => false,
        Some((_, t)) => scalar_value(t).is_some() && !t.volatile,
    }
}

fn is_marked(mark: Option<&bool>) -> bool
    ensures { result ≡ if_kept (option_copied mark.entry) }
{
    match mark {
        None => false,
        Some(is) => *is,
    }
}

/// Marks of the locals whose addresses are taken.
fn addressed(alloc: Global, f: &Func) -> Result<Vec<bool>, NoMemory>
    ensures { IfOk result (λ r. r.items ≡ marks_of (length f.now.locals) (taken_by_all f.now.body)) }
{
    let mut taken = Vec::new(alloc);
    put_list(&f.body, &mut taken)?;
    marks(alloc, f.locals.all().len(), &taken)
}

/// Whether a local is a register, by the marks of those whose addresses are taken.
fn is_kept(f: &Func, addressed: &[bool], local: usize) -> bool
    ensures { result ≡ (may_be_register_of (slice_get f.now.locals local) && not (if_kept (slice_get addressed.now local))) }
{
    may_be_register(at(f.locals.all(), local)) && !is_marked(at(addressed, local))
}

/// Of each local, whether it is a register. The only error is want of memory.
#[tactic(auto, using(crate::proofs::KeptLemmas::kept_rules))]
pub fn registers_of(alloc: Global, f: &Func) -> Result<Vec<bool>, NoMemory>
    ensures kept { IfOk result (λ kept. AreKept f.now kept.items) }
{
    let addressed = addressed(alloc, f)?;
    let mut kept = Vec::new(alloc);
    for local in 0..f.locals.all().len() {
        kept.push(is_kept(f, &addressed, local))?;
    }
    Ok(kept)
}
