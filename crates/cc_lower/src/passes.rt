//! All passes, one after the other.

ghost use Rattle.std.specs.Prelude.{◌≡◌, ◌^◌, nat_lt, length, IfOk, OnOk};
ghost use Rattle.std.specs.List.{list_all};
ghost use Rattle.cc_lower.specs.Lowered.{HasIds, lowered};
ghost use Rattle.cc_states.specs.CcSyntax.Sizes.{AreSized};

use cc_lower_bodies::lower_expressions;
use cc_lower_continues::lower_continues;
use cc_lower_numbers::number_program;
use cc_lower_statements::lower_statements;
use cc_program::num::NoMemory;
use cc_program::{Func, Program};
use std::alloc::Global;

fn has_ids(f: &Func) -> bool
    ensures { result ≡ nat_lt (length f.now.locals) (2 ^ 32) }
{
    u32::try_from(f.locals.all().len()).is_ok()
}

fn have_ids(p: &Program) -> bool
    ensures { result ≡ list_all (λ f. nat_lt (length f.locals) (2 ^ 32)) p.now.funcs }
{
    p.funcs.all().iter().all(|f| has_ids(f))
}

/// The program that a program is lowered to. Want of memory is the only error; a function of 2^32 locals or more is such a want.
#[tactic(auto, unfolding(crate::specs::Lowered::lowered))]
pub fn lower(alloc: Global, p: Program) -> Result<Program, NoMemory>
    requires sized { AreSized p.structures p.target }
    ensures exact { IfOk result (λ q. q ≡ lowered p) }
    ensures ids { OnOk result (HasIds p) }
{
    let p = lower_continues(alloc, p)?;
    let p = lower_statements(alloc, p)?;
    let p = lower_expressions(alloc, p)?;
    if !have_ids(&p) {
        return Err(NoMemory);
    }
    number_program(alloc, p)
}
