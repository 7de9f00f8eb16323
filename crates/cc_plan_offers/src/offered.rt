//! What slots are offered to the ranking.

ghost use Rattle.std.specs.Prelude.{◌≡◌, ◌≤◌, ◌-◌, ◌*◌, ◌^◌, All, IfOk, length};
ghost use Rattle.cc_plan_legal.specs.Short.{element_bits as element_bits_of};
ghost use Rattle.cc_plan_offers.specs.Offers.{bits_by, gain_of, offer_of, offers_from};

use cc_cost_ranking::{Cost, Costed};
use cc_plan_legal::{Candidate, Form};
use cc_program::num::NoMemory;
use std::alloc::Global;

/// The bits that an element of a packed array takes.
fn element_bits(bits: u32) -> u32
    ensures { result ≡ element_bits_of bits }
{
    match bits {
        0..=2 => bits,
        3 | 4 => 4,
        5..=8 => 8,
        _ => 16,
    }
}

/// The bits that a scalar of a coded slot keeps.
fn stored_bits(form: Form, bits: u32) -> u32
    ensures { result ≡ bits_by form bits }
{
    match form {
        Form::Field | Form::Const => bits,
        Form::Array => element_bits(bits),
    }
}

/// The bits by which a scalar of a coded slot is shorter.
fn saved_bits(candidate: &Candidate) -> u64
    ensures { result ≡ 8 * candidate.now.bytes - bits_by candidate.now.form candidate.now.bits }
{
    let whole = 8 * u64::from(candidate.bytes);
    let stored = u64::from(stored_bits(candidate.form, candidate.bits));
    if stored < whole { whole - stored } else { 0 }
}

/// The bits of RAM that coding a slot gains.
fn gain(candidate: &Candidate) -> u64
    requires { gain_of candidate.now ≤ 2 ^ 40 }
    ensures { result ≡ gain_of candidate.now }
{
    saved_bits(candidate) * u64::from(candidate.count)
}

fn offer(slot: u32, candidate: &Candidate, cost: &Cost) -> Costed
    requires { gain_of candidate.now ≤ 2 ^ 40 }
    ensures { result ≡ offer_of slot candidate.now cost.now }
{
    Costed {
        slot,
        gain: gain(candidate),
        code: cost.code,
        time: cost.time,
    }
}

/// What is offered to the ranking: the slots without a reason, each with what coding it gains and costs.
pub fn offers(alloc: Global, slots: &[Candidate], costs: &[Cost]) -> Result<Vec<Costed>, NoMemory>
    requires few { length slots.now ≤ 2 ^ 32 }
    requires costs { length slots.now ≡ length costs.now }
    requires gains { All (λ o. o.gain ≤ 2 ^ 40) (offers_from costs.now 0 slots.now) }
    ensures { IfOk result (λ offers. offers.items ≡ offers_from costs.now 0 slots.now) }
{
    let mut offers = Vec::new(alloc);
    let mut number: u64 = 0;
    let mut left = slots;
    while let [candidate, rest @ ..] = left {
        if candidate.reason.is_none() {
            offers.push(offer(number as u32, candidate, &costs[number as usize]))?;
        }
        number += 1;
        left = rest;
    }
    Ok(offers)
}
