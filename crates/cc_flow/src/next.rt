//! Where control goes from a statement.

ghost use Rattle.std.specs.Prelude.{◌≡◌, ◌≤◌, ◌<◌, ◌+◌, ◌-◌, ◌^◌, ◌++◌, [], ◌∷◌, length, slice_get, sum, IfOk, OnOk, is_none, nat_eq, ◌||◌};
ghost use Rattle.std.specs.List.{list_any};
ghost use Rattle.cc_program.specs.declared.stmt.Case.{out-Case};
ghost use Rattle.cc_program.specs.declared.stmt.Stmt.{out-Stmt};
ghost use Rattle.cc_flow.specs.Points.{switch_next as switch_next_of};
ghost use Rattle.cc_flow.specs.View.{case_pieces, total_of_cases, simple_next as simple_next_of};
ghost use Rattle.cc_flow.specs.Next.{reached as reached_of, head, heads, branches as branches_of, is_zero, may_pass as may_pass_of};

use crate::counts::sizes;
use cc_program::num::NoMemory;
use cc_program::{Case, Stmt};
use std::alloc::Global;

/// Where a statement stands, by the numbers of points.
#[derive(Clone, Copy)]
pub struct Site {
    /// The function, by id.
    pub func: u32,
    /// The statement's own point.
    pub number: u32,
    /// Where control goes from the statement's end.
    pub behind: u32,
    /// Where `break` goes: behind the loop or `switch` around.
    pub breaks: u32,
    /// Where `continue` goes: to the loop around.
    pub continues: u32,
    /// The exit of the function.
    pub exit: u32,
}

/// Where control goes that comes to a number in a list whose points end before `end`: to what is behind the list where
/// it has come to its end.
pub fn reached(number: u32, end: u32, behind: u32) -> u32
    requires { number ≤ end }
    ensures { result ≡ reached_of (end - number) number behind }
{
    if number == end { behind } else { number }
}

/// Where control goes from a statement with none inside.
pub fn simple_next(s: &Stmt, site: Site) -> u32
    ensures { result ≡ simple_next_of (out-Stmt s.now) site }
{
    match s {
        Stmt::Break => site.breaks,
        Stmt::Continue => site.continues,
        Stmt::Return(_) => site.exit,
        _ => site.behind,
    }
}

/// A point alone.
pub fn one(alloc: Global, number: u32) -> Result<Vec<u32>, NoMemory>
    ensures { IfOk result (λ next. next.items ≡ number ∷ []) }
{
    Ok(Vec::from_slice(alloc, &[number])?)
}

/// Puts the first point of a list behind others, where it has any.
fn put_head(next: &mut Vec<u32>, number: u32, count: u32) -> Result<(), NoMemory>
    ensures { OnOk result (next.new.items ≡ next.old.items ++ head number count) }
{
    if count > 0 {
        next.push(number)?;
    }
    Ok(())
}

/// Puts the first points of lists behind others.
fn put_heads(next: &mut Vec<u32>, first: u32, counts: &[u32]) -> Result<(), NoMemory>
    requires { first + sum counts.now < 2 ^ 32 }
    ensures { OnOk result (next.new.items ≡ next.old.items ++ heads first counts.now) }
{
    let mut number = first;
    for count in counts {
        put_head(next, number, *count)?;
        number += *count;
    }
    Ok(())
}

/// The first points of the lists in a statement, by how many points each has, and what is behind it where control goes
/// on there too.
fn branches(alloc: Global, passes: bool, site: Site, counts: &[u32]) -> Result<Vec<u32>, NoMemory>
    requires { site.number + 1 + sum counts.now < 2 ^ 32 }
    ensures { IfOk result (λ next. next.items ≡ branches_of passes site counts.now) }
{
    let mut next = Vec::new(alloc);
    if !passes {
        put_heads(&mut next, site.number + 1, counts)?;
        return Ok(next);
    }
    if site.behind <= site.number {
        next.push(site.behind)?;
        put_heads(&mut next, site.number + 1, counts)?;
        return Ok(next);
    }
    put_heads(&mut next, site.number + 1, counts)?;
    next.push(site.behind)?;
    Ok(next)
}

/// Whether the last of lists with so many points is empty.
fn ends_empty(counts: &[u32]) -> bool
    ensures { result ≡ is_zero (slice_get counts.now (length counts.now - 1)) }
{
    match counts.last() {
        None => false,
        Some(count) => *count == 0,
    }
}

/// Whether `default` is among the labels of a case.
fn is_default(case: &Case) -> bool
    ensures { result ≡ list_any is_none (out-Case case.now).labels }
{
    case.labels.all().iter().any(|label| label.is_none())
}

fn has_default(cases: &[Case]) -> bool
    ensures { result ≡ list_any (λ c. list_any is_none (out-Case c).labels) cases.now }
{
    for case in cases {
        if is_default(case) {
            return true;
        }
    }
    false
}

/// Whether control may go behind a `switch` at once, whose cases have so many points.
fn may_pass(cases: &[Case], counts: &[u32]) -> bool
    ensures { result ≡ may_pass_of (list_any (λ c. list_any is_none (out-Case c).labels) cases.now) counts.now }
{
    !has_default(cases) || ends_empty(counts)
}

/// Where control goes from an `if` whose lists have so many points.
pub fn if_next(alloc: Global, site: Site, these: u32, those: u32) -> Result<Vec<u32>, NoMemory>
    requires { site.number + 1 + (these + those) < 2 ^ 32 }
    ensures { IfOk result (λ next. next.items ≡ branches_of (nat_eq these 0 || nat_eq those 0) site (these ∷ those ∷ [])) }
{
    let passes = these == 0 || those == 0;
    branches(alloc, passes, site, &[these, those])
}

/// Where control goes from a `switch`.
#[tactic(auto, using(crate::proofs::Pieces::of_cases))]
pub fn switch_next(alloc: Global, site: Site, cases: &[Case]) -> Result<Vec<u32>, NoMemory>
    requires { site.number + 1 + total_of_cases cases.now < 2 ^ 32 }
    ensures { IfOk result (λ next. next.items ≡ switch_next_of (case_pieces cases.now) site) }
{
    let counts = sizes(alloc, cases)?;
    branches(alloc, may_pass(cases, &counts), site, &counts)
}
