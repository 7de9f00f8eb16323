//! How many points lists of statements have.

ghost use Rattle.std.specs.Prelude.{◌≡◌, ◌<◌, ◌-◌, ◌^◌, min};
ghost use Rattle.cc_flow.specs.Points.{size_of, total_of};
ghost use Rattle.cc_flow.specs.View.{total_of_cases};

use cc_program::{Case, Stmt};

/// How many points a statement has, its own and those inside it, up to the end of the type.
#[cycle(count)]
#[tactic(auto, using(cc_flow::proofs::Pieces::of_counts))]
fn count_stmt(s: &Stmt) -> u64
    ensures { result ≡ min (size_of s.now) (2 ^ 64 - 1) }
{
    match s {
        Stmt::If(_, a, b) => {
            let these = count_list(a.all());
            let those = count_list(b.all());
            these.saturating_add(those).saturating_add(1)
        }
        Stmt::While(_, a) => count_list(a.all()).saturating_add(1),
        Stmt::Switch(_, cases) => count_cases(cases.all()).saturating_add(1),
        Stmt::Do(_) | Stmt::DoWhile(_, _) | Stmt::For(_, _, _, _) | Stmt::Block(_) => 1,
        Stmt::Break | Stmt::Continue | Stmt::Return(_) | Stmt::Empty => 1,
    }
}

#[cycle(count)]
fn count_list(list: &[Stmt]) -> u64
    ensures { result ≡ min (total_of list.now) (2 ^ 64 - 1) }
{
    let mut count: u64 = 0;
    for s in list {
        count = count.saturating_add(count_stmt(s));
    }
    count
}

#[cycle(count)]
fn count_cases(cases: &[Case]) -> u64
    ensures { result ≡ min (total_of_cases cases.now) (2 ^ 64 - 1) }
{
    let mut count: u64 = 0;
    for case in cases {
        count = count.saturating_add(count_list(case.body.all()));
    }
    count
}

/// How many points a list has, where they are few.
pub(crate) fn size(list: &[Stmt]) -> u32
    requires { total_of list.now < 2 ^ 32 }
    ensures { result ≡ total_of list.now }
{
    count_list(list) as u32
}

/// How many points cases have, where they are few.
pub(crate) fn size_of_cases(cases: &[Case]) -> u32
    requires { total_of_cases cases.now < 2 ^ 32 }
    ensures { result ≡ total_of_cases cases.now }
{
    count_cases(cases) as u32
}
