//! How often functions run, as a profile says it.

ghost use Rattle.std.specs.Prelude.{◌≡◌, ◌≤◌, ◌^◌, All, IfOk, bytes_eq};
ghost use Rattle.cc_plan_costs.specs.Counts.{count_for as count_for_name, counts_of as counts_of_program};

use cc_program::Program;
use cc_program::num::{Name, NoMemory};
use std::alloc::Global;

fn is_same(name: &[u8], other: &[u8]) -> bool
    ensures { result ≡ bytes_eq name.now other.now }
{
    name == other
}

/// The count that is given for a name: 1 where none is.
fn count_for(given: &[(Name, u64)], name: &[u8]) -> u64
    requires { All (λ g. g.1 ≤ 1000000000) given.now }
    ensures value { result ≡ count_for_name given.now name.now }
    ensures most { result ≤ 2 ^ 30 }
{
    let mut left = given;
    while let [first, rest @ ..] = left {
        if is_same(first.0.all(), name) {
            return first.1;
        }
        left = rest;
    }
    1
}

/// How often each function of a program runs, by its id: as often as is given for its name, and else once. The only error is want of memory.
pub fn counts_of(alloc: Global, p: &Program, given: &[(Name, u64)]) -> Result<Vec<u64>, NoMemory>
    requires { All (λ g. g.1 ≤ 1000000000) given.now }
    ensures value { IfOk result (λ counts. counts.items ≡ counts_of_program given.now p.now) }
    ensures most { IfOk result (λ counts. All (λ c. c ≤ 2 ^ 30) counts.items) }
{
    let mut counts = Vec::new(alloc);
    for func in p.funcs.all() {
        counts.push(count_for(given, func.name.all()))?;
    }
    Ok(counts)
}
