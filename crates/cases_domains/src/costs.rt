//! What codings cost, and which slots are coded: what the calls of `cc_cost_ranking` give.
//!
//! Behind `$ estimate` a case is
//!
//!     3 2 1 scalar Direct 4    READS WRITES GUARDED, `scalar` or `array`, the kind of a coding, and how many members there are
//!
//! and what is printed is units of code and of time. Behind `$ rank 1,1 10,-`, with the weights of code and time and the
//! budgets of both, a `-` where there is none, it is
//!
//!     7:6/1,1 3:5/2,0          slots, as SLOT:GAIN/CODE,TIME
//!
//! and what is printed is the slots that are coded, in rank order.

ghost use Rattle.std.specs.Prelude.{◌≡◌, ◌≤◌, ◌^◌, ◌==◌, IfOk, IfSome, IsTrue, sum_by};
ghost use Rattle.std.specs.List.{list_any};
ghost use Rattle.cc_cost_ranking.specs.Ranking.{AreApart, AreWeights};

use cases_script::{Page, split};
use cc_code::kinds::Coding;
use cc_cost_ranking::{Budgets, Costed, Sites, Weights, estimate, rank};
use std::alloc::{AllocError, Global};

/// The most accesses that are reckoned with.
const MOST_SITES: u64 = 1 << 48;

/// The most bits that may be gained together, and the most code or time that may be spent.
const MOST_GAIN: u128 = 1 << 32;

const MOST_COST: u128 = 1 << 60;

/// The greatest weight that a profile may have.
const MOST_WEIGHT: u64 = 1000;

fn kind_of(word: &str) -> Option<Coding> {
    match word {
        "Const" => Some(Coding::Const),
        "Direct" => Some(Coding::Direct),
        "Biased" => Some(Coding::Biased(-3)),
        "Table" => Some(Coding::Table),
        _ => None,
    }
}

fn is_array(word: &str) -> Option<bool> {
    match word {
        "array" => Some(true),
        "scalar" => Some(false),
        _ => None,
    }
}

/// Writes what some accesses cost.
fn write_cost(page: &mut Page, sites: &Sites, coding: &Coding, members: u32) -> Option<()> {
    let few = sites.reads <= MOST_SITES
        && sites.writes <= MOST_SITES
        && sites.guarded <= MOST_SITES;
    if !few || members > 64 {
        return None;
    }
    let cost = estimate(sites, coding, members);
    page.show(cost.code);
    page.put_with(" ", cost.time);
    Some(())
}

fn write_estimate(page: &mut Page, case: &str) -> Option<()> {
    let (reads, rest) = split(case);
    let (writes, rest) = split(rest);
    let (guarded, rest) = split(rest);
    let (array, rest) = split(rest);
    let (kind, members) = split(rest);
    let sites = Sites {
        reads: reads.parse::<u64>().ok()?,
        writes: writes.parse::<u64>().ok()?,
        guarded: guarded.parse::<u64>().ok()?,
        array: is_array(array)?,
    };
    write_cost(page, &sites, &kind_of(kind)?, members.parse::<u32>().ok()?)
}

/// Writes what codings cost.
pub fn write_estimate_outcome(page: &mut Page, case: &str) {
    if write_estimate(page, case).is_none() {
        page.put("unclear");
    }
}

/// The weights that a word writes.
fn weights_of(word: &str) -> Option<Weights> {
    let (code, time) = word.split_once(',')?;
    let code = code.parse::<u64>().ok()?;
    let time = time.parse::<u64>().ok()?;
    Some(Weights { code, time })
}

/// A budget, where the word has a meaning.
fn budget_of(word: &str) -> Option<Option<u64>> {
    if word == "-" {
        Some(None)
    } else {
        Some(Some(word.parse::<u64>().ok()?))
    }
}

/// The weights and budgets that a setting writes.
pub fn terms_of(setting: &str) -> Option<(Weights, Budgets)> {
    let (weights, budgets) = split(setting);
    let (code, time) = budgets.split_once(',')?;
    let budgets = Budgets {
        code: budget_of(code)?,
        time: budget_of(time)?,
    };
    Some((weights_of(weights)?, budgets))
}

/// The slot that a word writes.
fn costed_of(word: &str) -> Option<Costed> {
    let (slot, rest) = word.split_once(':')?;
    let (gain, costs) = rest.split_once('/')?;
    let (code, time) = costs.split_once(',')?;
    Some(Costed {
        slot: slot.parse::<u32>().ok()?,
        gain: gain.parse::<u64>().ok()?,
        code: code.parse::<u64>().ok()?,
        time: time.parse::<u64>().ok()?,
    })
}

/// Whether a slot of this number is there.
fn has_slot(list: &[Costed], slot: u32) -> bool
    ensures { result ≡ list_any (λ c. c.slot == slot) list.now }
{
    list.iter().any(|c| c.slot == slot)
}

/// Adds a slot, where there is none of its number.
#[tactic(auto, using(crate::proofs::Apart::apart_more))]
fn add(list: &mut Vec<Costed>, costed: Costed) -> Result<bool, AllocError>
    requires { AreApart list.old.items }
    ensures { AreApart list.new.items }
{
    if has_slot(list, costed.slot) {
        return Ok(false);
    }
    list.push(costed)?;
    Ok(true)
}

/// The slots that a case writes, no two of one number, if it has a meaning.
#[tactic(auto, using(crate::proofs::Apart::apart_none))]
fn list_of(alloc: Global, case: &str) -> Result<Option<Vec<Costed>>, AllocError>
    ensures { IfOk result (λ r. IfSome r (λ list. AreApart list.items)) }
{
    let mut list = Vec::new(alloc);
    for word in case.split_whitespace() {
        let Some(costed) = costed_of(word) else {
            return Ok(None);
        };
        if !add(&mut list, costed)? {
            return Ok(None);
        }
    }
    Ok(Some(list))
}

fn gain_of(list: &[Costed]) -> u128
    ensures { result ≡ sum_by (λ c. c.gain) list.now }
{
    let mut sum: u128 = 0;
    for costed in list {
        sum += u128::from(costed.gain);
    }
    sum
}

fn code_of(list: &[Costed]) -> u128
    ensures { result ≡ sum_by (λ c. c.code) list.now }
{
    let mut sum: u128 = 0;
    for costed in list {
        sum += u128::from(costed.code);
    }
    sum
}

fn time_of(list: &[Costed]) -> u128
    ensures { result ≡ sum_by (λ c. c.time) list.now }
{
    let mut sum: u128 = 0;
    for costed in list {
        sum += u128::from(costed.time);
    }
    sum
}

/// Writes the slots that are coded.
fn write_ranked(
    alloc: Global,
    page: &mut Page,
    weights: &Weights,
    budgets: &Budgets,
    list: &[Costed],
)
    requires apart { AreApart list.now }
    requires weights { AreWeights weights.now }
    requires gains { sum_by (λ c. c.gain) list.now ≤ 2 ^ 32 }
{
    match rank(alloc, list, weights, budgets) {
        Ok(slots) => {
            page.put("slots");
            for slot in &slots {
                page.put_with(" ", *slot);
            }
        }
        Err(_) => page.put("no memory"),
    }
}

/// Writes the slots that are coded, where weights are such as a profile may have, and sums are not too large.
fn write_slots(
    alloc: Global,
    page: &mut Page,
    weights: &Weights,
    budgets: &Budgets,
    list: &[Costed],
)
    requires { AreApart list.now }
{
    if weights.code > MOST_WEIGHT || weights.time > MOST_WEIGHT {
        page.put("unclear");
        return;
    }
    if gain_of(list) > MOST_GAIN || code_of(list) > MOST_COST || time_of(list) > MOST_COST {
        page.put("too much");
        return;
    }
    write_ranked(alloc, page, weights, budgets, list);
}

/// Writes which slots are coded.
pub fn write_rank_outcome(
    alloc: Global,
    page: &mut Page,
    weights: &Weights,
    budgets: &Budgets,
    case: &str,
) {
    let case = if case == "nothing" { "" } else { case };
    match list_of(alloc, case) {
        Ok(Some(list)) => write_slots(alloc, page, weights, budgets, &list),
        Ok(None) => page.put("unclear"),
        Err(_) => page.put("no memory"),
    }
}
