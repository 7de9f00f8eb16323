//! Whole programs.

ghost use Rattle.std.specs.Prelude.{◌≡◌, map, IfOk};
ghost use Rattle.cc_lower_expressions.specs.Programs.{lower_func as lower_func_of, lower_expressions_program};
ghost use Rattle.cc_eval.specs.CcSyntax.Sizes.{AreSized};

use crate::statements::lower_list;
use cc_lower_accesses::Body;
use cc_program::num::{List, NoMemory};
use cc_program::{Func, Program, copy_list, copy_named};
use cc_registers::registers_of;
use std::alloc::Global;

#[tactic(auto, using(cc_lower_accesses::proofs::AccessRules::locals_rules), unfolding(crate::specs::Lists::list_made, cc_lower_accesses::specs::Modes::as_locals))]
fn lower_func(alloc: Global, p: &Program, f: &Func) -> Result<Func, NoMemory>
    requires { AreSized p.now.structures p.now.target }
    ensures { IfOk result (λ r. r ≡ lower_func_of p.now f.now) }
{
    let registers = registers_of(alloc, f)?;
    let body = Body {
        alloc,
        program: p,
        func: f,
        registers: &registers,
    };
    let mut locals = copy_named(alloc, &f.locals)?.into_vec();
    let statements = lower_list(body, &f.body, &mut locals)?;
    let name = copy_list(alloc, &f.name)?;
    let sig = f.sig.copy(alloc)?;
    Ok(Func {
        name,
        sig,
        entry: f.entry,
        params: f.params,
        locals: List::of(locals),
        body: statements,
    })
}

fn lower_funcs(alloc: Global, p: &Program) -> Result<List<Func>, NoMemory>
    requires { AreSized p.now.structures p.now.target }
    ensures { IfOk result (λ r. r ≡ map (lower_func_of p.now) p.now.funcs) }
{
    let mut out = Vec::new(alloc);
    for f in p.funcs.all() {
        out.push(lower_func(alloc, p, f)?)?;
    }
    Ok(List::of(out))
}

/// The program whose full expressions are in normal form. The only error is want of memory, which includes a function
/// that would have more than 2 ^ 32 locals.
pub fn lower_expressions(alloc: Global, p: Program) -> Result<Program, NoMemory>
    requires sized { AreSized p.structures p.target }
    ensures exact { IfOk result (λ q. q ≡ lower_expressions_program p) }
{
    let funcs = lower_funcs(alloc, &p)?;
    let Program {
        target,
        roles,
        structures,
        devices,
        objects,
        funcs: _,
        main,
    } = p;
    Ok(Program {
        target,
        roles,
        structures,
        devices,
        objects,
        funcs,
        main,
    })
}
