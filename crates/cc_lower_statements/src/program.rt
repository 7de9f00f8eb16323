//! Whole programs.

ghost use Rattle.std.specs.Prelude.{◌≡◌, map, IfOk};
ghost use Rattle.cc_lower_statements.specs.Statements.{lower_func as lower_func_of, lower_program};

use crate::statements::lower_list;
use cc_program::num::{List, NoMemory};
use cc_program::{Func, Program, copy_list, copy_named};
use std::alloc::Global;

fn lower_func(alloc: Global, f: &Func) -> Result<Func, NoMemory>
    ensures { IfOk result (λ r. r ≡ lower_func_of f.now) }
{
    let step = None;
    let body = lower_list(alloc, &f.body, &step, Vec::new(alloc))?;
    let name = copy_list(alloc, &f.name)?;
    let sig = f.sig.copy(alloc)?;
    let locals = copy_named(alloc, &f.locals)?;
    Ok(Func {
        name,
        sig,
        entry: f.entry,
        params: f.params,
        locals,
        body: List::of(body),
    })
}

fn lower_funcs(alloc: Global, funcs: &List<Func>) -> Result<List<Func>, NoMemory>
    ensures { IfOk result (λ r. r ≡ map lower_func_of funcs.now) }
{
    let mut out = Vec::new(alloc);
    for f in funcs.all() {
        out.push(lower_func(alloc, f)?)?;
    }
    Ok(List::of(out))
}

/// The program whose loops are all `while (1)`, without blocks and without empty statements. Want of memory is the only error.
pub fn lower_statements(alloc: Global, p: Program) -> Result<Program, NoMemory>
    ensures exact { IfOk result (λ q. q ≡ lower_program p) }
{
    let Program {
        target,
        roles,
        structures,
        devices,
        objects,
        funcs,
        main,
    } = p;
    let funcs = lower_funcs(alloc, &funcs)?;
    Ok(Program {
        target,
        roles,
        structures,
        devices,
        objects,
        funcs,
        main,
    })
}
