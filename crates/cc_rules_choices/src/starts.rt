//! Where control goes from a test: to the first point of a list, and behind the statement where the list has none.

ghost use Rattle.std.specs.Prelude.{◌≡◌, ◌<◌, ◌≤◌, ◌+◌, ◌^◌, ◌++◌, map, replicate, IfOk, OnOk};
ghost use Rattle.cc_flow.specs.Laws.{starts as starts_of};
ghost use Rattle.cc_flow.specs.Next.{reached as reached_of};
ghost use Rattle.cc_flow.specs.View.{case_total, total_of_cases};
ghost use Rattle.cc_rules_choices.specs.Starts.{AreStarted};
ghost use Rattle.cc_rules_flows.specs.Nexts.{behind_in as behind_of};

use crate::counts::size;
use cc_program::Case;
use cc_program::num::NoMemory;
use std::alloc::Global;

/// Of the next points of a statement of so many points the one that is not inside it.
pub(crate) fn behind_in(number: u32, size: u32, next: &[u32]) -> u32
    requires { number + size < 2 ^ 32 }
    ensures { result ≡ behind_of number size next.now }
{
    let end = number + size;
    for k in next {
        if *k <= number || end <= *k {
            return *k;
        }
    }
    number
}

/// Where control goes that comes to a list of so many points.
pub(crate) fn reached(count: u32, number: u32, behind: u32) -> u32
    ensures { result ≡ reached_of count number behind }
{
    if count == 0 { behind } else { number }
}

/// Puts a number some times behind others.
fn put_times(all: &mut Vec<u32>, number: u32, times: usize) -> Result<(), NoMemory>
    ensures { OnOk result (all.new.items ≡ all.old.items ++ replicate times number) }
{
    for _ in 0..times {
        all.push(number)?;
    }
    Ok(())
}

/// Puts the start of each list that waits for one with points, where one that comes has some. How many wait then.
fn put_starts(
    all: &mut Vec<u32>,
    waiting: usize,
    number: u32,
    count: u32,
) -> Result<usize, NoMemory>
    requires { waiting + 1 < 2 ^ 64 }
    ensures few { IfOk result (λ left. left ≤ waiting + 1) }
    ensures started { IfOk result (λ left. AreStarted all.old.items waiting number count all.new.items left) }
{
    if count == 0 {
        return Ok(waiting + 1);
    }
    put_times(all, number, waiting + 1)?;
    Ok(0)
}

/// Where control goes that comes to each case of a `switch`: an empty one starts where the next one does.
pub(crate) fn starts(
    alloc: Global,
    first: u32,
    behind: u32,
    cases: &[Case],
) -> Result<Vec<u32>, NoMemory>
    requires { first + total_of_cases cases.now < 2 ^ 32 }
    ensures { IfOk result (λ all. all.items ≡ starts_of first behind (map case_total cases.now)) }
{
    let mut all = Vec::new(alloc);
    let mut waiting = 0;
    let mut number = first;
    for case in cases {
        let count = size(case.body.all());
        waiting = put_starts(&mut all, waiting, number, count)?;
        number += count;
    }
    put_times(&mut all, behind, waiting)?;
    Ok(all)
}
