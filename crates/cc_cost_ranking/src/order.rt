//! The order in which slots are ranked.

ghost use Rattle.std.specs.Prelude.{◌≡◌, ◌≤◌, ◌^◌, map, All, IfOk, IsPermutation, IsSorted};
ghost use Rattle.cc_cost_ranking.specs.Priced.{priced_order};
ghost use Rattle.cc_cost_ranking.specs.Ranking.{rank_order, AreWeights};

use crate::priced::{Priced, all_priced};
use crate::types::{Costed, Weights};
use cc_program::num::NoMemory;
use std::alloc::Global;
use std::cmp::Ordering;

/// Which of two slots comes first.
fn compare(x: &Priced, y: &Priced) -> Ordering
    ensures { result ≡ priced_order x.now y.now }
{
    let gained = u128::from(y.costed.gain) * x.price;
    let other = u128::from(x.costed.gain) * y.price;
    gained.cmp(&other).then(x.costed.slot.cmp(&y.costed.slot))
}

/// Slots whose prices are known, in rank order.
fn sorted(mut all: Vec<Priced>) -> Result<Vec<Priced>, NoMemory>
    ensures permuted { IfOk result (λ order. IsPermutation all.items order.items) }
    ensures sorted { IfOk result (λ order. IsSorted priced_order order.items) }
{
    all.sort_by(compare)?;
    Ok(all)
}

/// Slots without their prices.
fn without_prices(alloc: Global, all: &[Priced]) -> Result<Vec<Costed>, NoMemory>
    ensures { IfOk result (λ list. list.items ≡ map (λ p. p.costed) all.now) }
{
    let mut list = Vec::new(alloc);
    for priced in all {
        list.push(priced.costed)?;
    }
    Ok(list)
}

/// Slots in rank order.
pub fn in_order(alloc: Global, weights: &Weights, list: &[Costed]) -> Result<Vec<Costed>, NoMemory>
    requires weights { AreWeights weights.now }
    requires gains { All (λ c. c.gain ≤ 2 ^ 40) list.now }
    ensures permuted { IfOk result (λ order. IsPermutation list.now order.items) }
    ensures sorted { IfOk result (λ order. IsSorted (rank_order weights.now) order.items) }
{
    let priced = all_priced(alloc, weights, list)?;
    let order = sorted(priced)?;
    without_prices(alloc, &order)
}
