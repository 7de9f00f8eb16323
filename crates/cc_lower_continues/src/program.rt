//! Whole programs.

ghost use Rattle.std.specs.Prelude.{◌≡◌, ◌++◌, map, IfOk};
ghost use Rattle.cc_lower_continues.specs.Continues.{flag_locals, flagged_func as flagged_func_of, flagged_program};

use crate::statements::flagged_list;
use cc_program::num::{IntType, List, Name, NoMemory};
use cc_program::{CType, Func, Program, Shape, copy_list};
use std::alloc::Global;

/// The locals of flags, behind others.
#[tactic(auto, using(crate::proofs::CodeEquations::flag_rules, std::proofs::lemmas::Grind::common_steps))]
fn push_flags(
    alloc: Global,
    count: u32,
    locals: Vec<(Name, CType)>,
) -> Result<Vec<(Name, CType)>, NoMemory>
    ensures { IfOk result (λ v. v.items ≡ locals.items ++ flag_locals count) }
{
    let mut out = locals;
    for _flag in 0..count {
        let ctype = CType {
            constant: false,
            volatile: false,
            shape: Shape::Int(IntType::UChar),
        };
        out.push((List::of(Vec::new(alloc)), ctype))?;
    }
    Ok(out)
}

/// The locals of a function.
fn copy_locals(alloc: Global, locals: &List<(Name, CType)>) -> Result<Vec<(Name, CType)>, NoMemory>
    ensures { IfOk result (λ v. v.items ≡ locals.now) }
{
    let mut out = Vec::new(alloc);
    for (name, ctype) in locals.all() {
        let name = copy_list(alloc, name)?;
        out.push((name, ctype.copy(alloc)?))?;
    }
    Ok(out)
}

#[tactic(auto, using(std::proofs::lemmas::Grind::common_steps))]
fn flagged_func(alloc: Global, f: &Func) -> Result<Func, NoMemory>
    ensures { IfOk result (λ r. r ≡ flagged_func_of f.now) }
{
    let first = u32::try_from(f.locals.all().len()).ok().ok_or(NoMemory)?;
    let (body, behind) = flagged_list(alloc, &f.body, first)?;
    let locals = copy_locals(alloc, &f.locals)?;
    let locals = push_flags(alloc, behind - first, locals)?;
    let name = copy_list(alloc, &f.name)?;
    let sig = f.sig.copy(alloc)?;
    Ok(Func {
        name,
        sig,
        entry: f.entry,
        params: f.params,
        locals: List::of(locals),
        body: List::of(body),
    })
}

fn flagged_funcs(alloc: Global, funcs: &List<Func>) -> Result<List<Func>, NoMemory>
    ensures { IfOk result (λ r. r ≡ map flagged_func_of funcs.now) }
{
    let mut out = Vec::new(alloc);
    for f in funcs.all() {
        out.push(flagged_func(alloc, f)?)?;
    }
    Ok(List::of(out))
}

/// The program where no `do` whose test may fail has a `continue` of its own. The only error is want of memory, which includes a
/// function that would have more than 2 ^ 32 locals.
pub fn lower_continues(alloc: Global, p: Program) -> Result<Program, NoMemory>
    ensures exact { IfOk result (λ q. q ≡ flagged_program p) }
{
    let Program {
        target,
        roles,
        structures,
        devices,
        objects,
        funcs,
        main,
    } = p;
    let funcs = flagged_funcs(alloc, &funcs)?;
    Ok(Program {
        target,
        roles,
        structures,
        devices,
        objects,
        funcs,
        main,
    })
}
