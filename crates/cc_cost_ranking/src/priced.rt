//! Slots with their prices.

ghost use Rattle.std.specs.Prelude.{◌≡◌, ◌≤◌, ◌^◌, map, All, IfOk};
ghost use Rattle.cc_cost_ranking.specs.Ranking.{price as price_of, AreWeights};

use crate::types::{Costed, Weights};
use cc_program::num::NoMemory;
use std::alloc::Global;

/// A slot and its price.
#[derive(Clone, Copy)]
pub struct Priced {
    pub costed: Costed,
    pub price: u128,
    pub ghost gain: { costed.gain ≤ 2 ^ 40 },
    pub ghost some: { 1 ≤ price },
    pub ghost most: { price ≤ 2 ^ 80 },
}

fn price(weights: &Weights, costed: &Costed) -> u128
    requires { AreWeights weights.now }
    ensures value { result ≡ price_of weights.now costed.now }
    ensures most { result ≤ 2 ^ 80 }
{
    1 + u128::from(weights.code) * u128::from(costed.code)
        + u128::from(weights.time) * u128::from(costed.time)
}

/// Slots with their prices, in their order.
pub fn all_priced(
    alloc: Global,
    weights: &Weights,
    list: &[Costed],
) -> Result<Vec<Priced>, NoMemory>
    requires weights { AreWeights weights.now }
    requires gains { All (λ c. c.gain ≤ 2 ^ 40) list.now }
    ensures slots { IfOk result (λ all. map (λ p. p.costed) all.items ≡ list.now) }
    ensures prices { IfOk result (λ all. All (λ p. p.price ≡ price_of weights.now p.costed) all.items) }
{
    let mut all = Vec::new(alloc);
    for costed in list {
        all.push(Priced {
            costed: *costed,
            price: price(weights, costed),
        })?;
    }
    Ok(all)
}
