//! How many points there are.

ghost use Rattle.std.specs.Prelude.{◌≡◌, ◌<◌, ◌-◌, ◌^◌, min, map, IfOk};
ghost use Rattle.cc_flow.specs.Points.{size_of as size_of_stmt, total_of, count_in};
ghost use Rattle.cc_flow.specs.View.{case_total, total_of_cases};

use cc_program::num::NoMemory;
use cc_program::{Case, Func, Stmt};
use std::alloc::Global;

/// How many points a statement has, its own and those inside it, up to the end of the type.
#[cycle(count)]
#[tactic(auto, using(crate::proofs::Pieces::of_counts))]
fn count_stmt(s: &Stmt) -> u64
    ensures { result ≡ min (size_of_stmt s.now) (2 ^ 64 - 1) }
{
    match s {
        Stmt::If(_, a, b) => {
            let these = count_list(a.all());
            let those = count_list(b.all());
            these.saturating_add(those).saturating_add(1)
        }
        Stmt::While(_, a) => count_list(a.all()).saturating_add(1),
        Stmt::Switch(_, cases) => count_cases(cases.all()).saturating_add(1),
        Stmt::Do(_) | Stmt::DoWhile(_, _) | Stmt::For(_, _, _, _) | Stmt::Block(_) => 1,
        Stmt::Break | Stmt::Continue | Stmt::Return(_) | Stmt::Empty => 1,
    }
}

#[cycle(count)]
fn count_list(list: &[Stmt]) -> u64
    ensures { result ≡ min (total_of list.now) (2 ^ 64 - 1) }
{
    let mut count: u64 = 0;
    for s in list {
        count = count.saturating_add(count_stmt(s));
    }
    count
}

#[cycle(count)]
fn count_cases(cases: &[Case]) -> u64
    ensures { result ≡ min (total_of_cases cases.now) (2 ^ 64 - 1) }
{
    let mut count: u64 = 0;
    for case in cases {
        count = count.saturating_add(count_list(case.body.all()));
    }
    count
}

/// How many points functions have, each with its exit, up to the end of the type.
pub fn count_funcs(funcs: &[Func]) -> u64
    ensures { result ≡ min (count_in funcs.now) (2 ^ 64 - 1) }
{
    let mut count: u64 = 0;
    for f in funcs {
        count = count
            .saturating_add(count_list(f.body.all()))
            .saturating_add(1);
    }
    count
}

/// How many points a statement has, where they are few.
pub fn size_of(s: &Stmt) -> u32
    requires { size_of_stmt s.now < 2 ^ 32 }
    ensures { result ≡ size_of_stmt s.now }
{
    count_stmt(s) as u32
}

/// How many points a list has, where they are few.
pub fn size(list: &[Stmt]) -> u32
    requires { total_of list.now < 2 ^ 32 }
    ensures { result ≡ total_of list.now }
{
    count_list(list) as u32
}

/// How many points cases have, where they are few.
pub fn size_of_cases(cases: &[Case]) -> u32
    requires { total_of_cases cases.now < 2 ^ 32 }
    ensures { result ≡ total_of_cases cases.now }
{
    count_cases(cases) as u32
}

/// How many points each case has, where they are few.
pub fn sizes(alloc: Global, cases: &[Case]) -> Result<Vec<u32>, NoMemory>
    requires { total_of_cases cases.now < 2 ^ 32 }
    ensures { IfOk result (λ sizes. sizes.items ≡ map case_total cases.now) }
{
    let mut sizes = Vec::new(alloc);
    for case in cases {
        sizes.push(size(case.body.all()))?;
    }
    Ok(sizes)
}
