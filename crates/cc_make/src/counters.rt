//! What is drawn from a seed.

ghost use Rattle.std.specs.Prelude.{◌≡◌, ◌<◌, ◌^◌, IfOk};
ghost use Rattle.cc_make.specs.Draws.{next as next_of, drawn as drawn_of, counter_of, counters as counters_of};

use cc_num::NoMemory;
use std::alloc::Global;

/// States are below it.
const MODULUS: u64 = 1 << 31;

/// A static object and a function that counts it up to a limit, and then from 0.
#[derive(Clone, Copy)]
pub struct Counter {
    /// 1 to 30.
    pub limit: u64,
    /// Whether the handler clears it.
    pub cleared: bool,
}

/// The state of the generator behind another.
fn next(state: u64) -> u64
    requires { state < 2 ^ 31 }
    ensures value { result ≡ next_of state }
    ensures small { result < 2 ^ 31 }
{
    (1_103_515_245 * state + 12_345) % MODULUS
}

/// What a state gives.
fn drawn(state: u64) -> u64
    ensures { result ≡ drawn_of state }
{
    state / 65_536
}

/// The counter of two states.
fn counter_from(first: u64, second: u64) -> Counter
    ensures { result ≡ counter_of (drawn_of first) (drawn_of second) }
{
    Counter {
        limit: 1 + drawn(first) % 30,
        cleared: drawn(second) % 4 == 0,
    }
}

/// So many counters, drawn from a seed.
pub fn counters(alloc: Global, seed: u64, count: u32) -> Result<Vec<Counter>, NoMemory>
    ensures { IfOk result (λ made. made.items ≡ counters_of seed count) }
{
    let mut made = Vec::new(alloc);
    let mut state = seed % MODULUS;
    for _i in 0..count {
        let first = next(state);
        let second = next(first);
        made.push(counter_from(first, second))?;
        state = second;
    }
    Ok(made)
}
