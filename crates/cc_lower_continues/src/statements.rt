//! What statements become, and how many flags they take.

ghost use Rattle.std.specs.Prelude.{◌≡◌, ◌+◌, map, IfOk};
ghost use Rattle.cc_lower_continues.specs.Continues.{any_continues, needs_flag, do_flagging, flagging, case_flagging, flags_of, flagged_list as flagged_list_of, flags_in_cases, cases_become};

use crate::continues::list_continues;
use crate::flags::flagged_do;
use cc_lower_statements::is_nonzero_constant;
use cc_program::num::{Boxed, List, NoMemory};
use cc_program::{Case, Expr, Stmt, copy_list};
use std::alloc::Global;

/// What a statement becomes, whose flags are the locals from `first` on, and the first local behind them.
#[cycle(flagged)]
#[tactic(auto, using(crate::proofs::CodeEquations::flagged_statements, std::proofs::lemmas::Grind::common_steps))]
fn flagged(alloc: Global, s: &Stmt, first: u32) -> Result<(Stmt, u32), NoMemory>
    ensures becomes { IfOk result (λ r. r.0 ≡ (flagging s.now).becomes first) }
    ensures behind { IfOk result (λ r. r.1 ≡ first + (flagging s.now).flags) }
{
    match s {
        Stmt::Do(e) => Ok((Stmt::Do(copied(alloc, e)?), first)),
        Stmt::If(e, these, those) => {
            let (these, middle) = flagged_list(alloc, these, first)?;
            let (those, behind) = flagged_list(alloc, those, middle)?;
            let s = Stmt::If(copied(alloc, e)?, List::of(these), List::of(those));
            Ok((s, behind))
        }
        Stmt::While(e, body) => {
            let (body, behind) = flagged_list(alloc, body, first)?;
            Ok((Stmt::While(copied(alloc, e)?, List::of(body)), behind))
        }
        Stmt::DoWhile(body, e) => flagged_do_while(alloc, body, e.get(), first),
        Stmt::For(start, test, step, body) => {
            let (body, behind) = flagged_list(alloc, body, first)?;
            let start = copied_if(alloc, start)?;
            let test = copied_if(alloc, test)?;
            let step = copied_if(alloc, step)?;
            Ok((Stmt::For(start, test, step, List::of(body)), behind))
        }
        Stmt::Switch(e, cases) => {
            let (cases, behind) = flagged_cases(alloc, cases, first)?;
            Ok((Stmt::Switch(copied(alloc, e)?, List::of(cases)), behind))
        }
        Stmt::Break => Ok((Stmt::Break, first)),
        Stmt::Continue => Ok((Stmt::Continue, first)),
        Stmt::Return(e) => Ok((Stmt::Return(copied_if(alloc, e)?), first)),
        Stmt::Empty => Ok((Stmt::Empty, first)),
        Stmt::Block(body) => {
            let (body, behind) = flagged_list(alloc, body, first)?;
            Ok((Stmt::Block(List::of(body)), behind))
        }
    }
}

/// What a `do` becomes, which takes a flag where it has a `continue` of its own and its test may fail.
#[cycle(flagged)]
#[tactic(auto, using(crate::proofs::CodeEquations::made_statements, std::proofs::lemmas::Grind::common_steps))]
fn flagged_do_while(
    alloc: Global,
    body: &List<Stmt>,
    e: &Expr,
    first: u32,
) -> Result<(Stmt, u32), NoMemory>
    ensures becomes { IfOk result (λ r. r.0 ≡ (do_flagging (needs_flag (any_continues (map flagging body.now)) e.now) (map flagging body.now) e.now).becomes first) }
    ensures behind { IfOk result (λ r. r.1 ≡ first + (do_flagging (needs_flag (any_continues (map flagging body.now)) e.now) (map flagging body.now) e.now).flags) }
{
    if list_continues(body) && !is_nonzero_constant(e) {
        let inner = first.checked_add(1).ok_or(NoMemory)?;
        let (body, behind) = flagged_list(alloc, body, inner)?;
        return Ok((flagged_do(alloc, first, e, body)?, behind));
    }
    let (body, behind) = flagged_list(alloc, body, first)?;
    let e = Boxed::new(alloc, e.copy(alloc)?)?;
    Ok((Stmt::DoWhile(List::of(body), e), behind))
}

/// What statements become, and the first local behind their flags.
#[cycle(flagged)]
#[tactic(auto, using(crate::proofs::CodeEquations::list_rules, std::proofs::lemmas::Grind::common_steps))]
pub fn flagged_list(
    alloc: Global,
    list: &List<Stmt>,
    first: u32,
) -> Result<(Vec<Stmt>, u32), NoMemory>
    ensures becomes { IfOk result (λ r. r.0.items ≡ flagged_list_of list.now first) }
    ensures behind { IfOk result (λ r. r.1 ≡ first + flags_of list.now) }
{
    let mut out = Vec::new(alloc);
    let mut behind = first;
    for s in list.all() {
        let (s, next) = flagged(alloc, s, behind)?;
        out.push(s)?;
        behind = next;
    }
    Ok((out, behind))
}

/// What the cases of a `switch` become, and the first local behind their flags.
#[cycle(flagged)]
#[tactic(auto, using(crate::proofs::CodeEquations::list_rules, std::proofs::lemmas::Grind::common_steps))]
fn flagged_cases(
    alloc: Global,
    cases: &List<Case>,
    first: u32,
) -> Result<(Vec<Case>, u32), NoMemory>
    ensures becomes { IfOk result (λ r. r.0.items ≡ cases_become (map case_flagging cases.now) first) }
    ensures behind { IfOk result (λ r. r.1 ≡ first + flags_in_cases (map case_flagging cases.now)) }
{
    let mut out = Vec::new(alloc);
    let mut behind = first;
    for case in cases.all() {
        let (case, next) = flagged_case(alloc, case, behind)?;
        out.push(case)?;
        behind = next;
    }
    Ok((out, behind))
}

#[cycle(flagged)]
#[tactic(auto, using(crate::proofs::CodeEquations::flagged_cases, std::proofs::lemmas::Grind::common_steps))]
fn flagged_case(alloc: Global, case: &Case, first: u32) -> Result<(Case, u32), NoMemory>
    ensures becomes { IfOk result (λ r. r.0 ≡ (case_flagging case.now).becomes first) }
    ensures behind { IfOk result (λ r. r.1 ≡ first + (case_flagging case.now).flags) }
{
    let labels = copy_list(alloc, &case.labels)?;
    let (body, behind) = flagged_list(alloc, &case.body, first)?;
    let body = List::of(body);
    Ok((Case { labels, body }, behind))
}

/// A copy of an expression.
fn copied(alloc: Global, e: &Boxed<Expr>) -> Result<Boxed<Expr>, NoMemory>
    ensures { IfOk result (λ r. r ≡ e.now) }
{
    Boxed::new(alloc, e.get().copy(alloc)?)
}

/// A copy of an expression that may be missing.
fn copied_if(alloc: Global, e: &Option<Boxed<Expr>>) -> Result<Option<Boxed<Expr>>, NoMemory>
    ensures { IfOk result (λ r. r ≡ e.now) }
{
    match e {
        None => Ok(None),
        Some(e) => Ok(Some(copied(alloc, e)?)),
    }
}
