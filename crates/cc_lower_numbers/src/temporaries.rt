//! The temporaries of functions.

ghost use Rattle.std.specs.Prelude.{◌≡◌, ◌++◌, ◌+◌, ◌-◌, ◌^◌, ◌<◌, if◌then◌else◌, IfOk, OnOk, length, map};
ghost use Rattle.std.specs.List.{flat_map};
ghost use Rattle.cc_program.specs.declared.expr.Place.{out-Place};
ghost use Rattle.cc_program.specs.declared.stmt.Case.{out-Case};
ghost use Rattle.cc_syntax.specs.Forms.{form_of};
ghost use Rattle.cc_lower_numbers.specs.Temporaries.{has_name as has_name_of, named_count as named_count_of, kept_count as kept_count_of, temporary_count as temporary_count_of, local_in, local_written, written_by, written_in, temporaries as temporaries_of};

use crate::order::ordered;
use cc_program::num::{List, Name, NoMemory};
use cc_program::{CType, Case, Expr, Func, Place, Stmt};
use std::alloc::Global;

fn has_name(local: &(Name, CType)) -> bool
    ensures { result ≡ has_name_of local.now }
{
    !local.0.all().is_empty()
}

/// How many locals stand up to the last one with a name, where so many did before the one at this position.
fn counted(count: usize, position: usize, named: bool) -> usize
    requires { position < 2 ^ 64 - 1 }
    ensures { result ≡ (if named then position + 1 else count) }
{
    if named { position + 1 } else { count }
}

/// How many locals stand up to the last one that has a name.
#[tactic(auto, using(crate::proofs::Counts::of_counts))]
fn named_count(locals: &[(Name, CType)]) -> usize
    ensures { result ≡ named_count_of locals.now }
{
    let mut count = 0;
    let mut position: usize = 0;
    for local in locals {
        count = counted(count, position, has_name(local));
        position += 1;
    }
    count
}

/// How many locals are no temporaries.
pub fn kept_count(f: &Func) -> usize
    ensures { result ≡ kept_count_of f.now }
{
    let named = named_count(f.locals.all());
    let kept = if named < f.params as usize {
        f.params as usize
    } else {
        named
    };
    if f.locals.all().len() < kept {
        f.locals.all().len()
    } else {
        kept
    }
}

pub fn temporary_count(f: &Func) -> usize
    ensures { result ≡ temporary_count_of f.now }
{
    f.locals.all().len() - kept_count(f)
}

fn put_place(a: &Place, numbers: &mut Vec<usize>) -> Result<(), NoMemory>
    ensures { OnOk result (numbers.new.items ≡ numbers.old.items ++ local_in (out-Place a.now)) }
{
    match a {
        Place::Local(local) => {
            numbers.push(*local as usize)?;
            Ok(())
        }
        _ => Ok(()),
    }
}

fn put_effect(e: &Expr, numbers: &mut Vec<usize>) -> Result<(), NoMemory>
    ensures { OnOk result (numbers.new.items ≡ numbers.old.items ++ local_written (form_of e.now)) }
{
    match e {
        Expr::Assign(a, _) => put_place(a.get(), numbers),
        _ => Ok(()),
    }
}

#[cycle(written)]
#[tactic(auto, using(crate::proofs::Texts::of_written))]
fn put_stmt(s: &Stmt, numbers: &mut Vec<usize>) -> Result<(), NoMemory>
    ensures { OnOk result (numbers.new.items ≡ numbers.old.items ++ written_by s.now) }
{
    match s {
        Stmt::Do(e) => put_effect(e.get(), numbers),
        Stmt::If(_, a, b) => {
            put_list(a, numbers)?;
            put_list(b, numbers)
        }
        Stmt::While(_, a) => put_list(a, numbers),
        Stmt::DoWhile(a, _) => put_list(a, numbers),
        Stmt::For(_, _, _, a) => put_list(a, numbers),
        Stmt::Switch(_, cases) => put_cases(cases, numbers),
        Stmt::Block(a) => put_list(a, numbers),
        Stmt::Break | Stmt::Continue | Stmt::Return(_) | Stmt::Empty => Ok(()),
    }
}

#[cycle(written)]
#[tactic(auto, using(crate::proofs::Texts::of_written))]
fn put_list(list: &List<Stmt>, numbers: &mut Vec<usize>) -> Result<(), NoMemory>
    ensures { OnOk result (numbers.new.items ≡ numbers.old.items ++ written_in list.now) }
{
    for s in list.all() {
        put_stmt(s, numbers)?;
    }
    Ok(())
}

#[cycle(written)]
#[tactic(auto, using(crate::proofs::Texts::of_written))]
fn put_cases(cases: &List<Case>, numbers: &mut Vec<usize>) -> Result<(), NoMemory>
    ensures { OnOk result (numbers.new.items ≡ numbers.old.items ++ flat_map (λ c. written_in (out-Case c).body) cases.now) }
{
    for case in cases.all() {
        put_list(&case.body, numbers)?;
    }
    Ok(())
}

/// The locals that a function writes, from the beginning of its text to the end.
fn written(alloc: Global, f: &Func) -> Result<Vec<usize>, NoMemory>
    ensures { IfOk result (λ r. r.items ≡ written_in f.now.body) }
{
    let mut numbers = Vec::new(alloc);
    put_list(&f.body, &mut numbers)?;
    Ok(numbers)
}

/// The temporaries in their new order.
pub fn temporaries(alloc: Global, f: &Func) -> Result<Vec<usize>, NoMemory>
    ensures { IfOk result (λ r. r.items ≡ temporaries_of f.now) }
{
    let text = written(alloc, f)?;
    ordered(alloc, kept_count(f), f.locals.all().len(), text)
}
