//! Reads a script of cases for domains of sets of numbers, for the solver and for sets of addresses, and prints it with what
//! each case gives.
//!
//! The settings, and what the cases behind them may be:
//!
//!     $ chain    a chain of 1,000 constraints, whose parts are no or yes. `least`: its least solution; what is
//!                printed is how many parts are yes, and whether the solver made at most 8,000 calls of `met`
//!                and `raise`. `order`: whether the lowest facts are below the solution, and the solution below
//!                them, how many parts are yes in their join and in a copy, and the rooms of both. `met`:
//!                whether two constraints are met
//!     $ span 2   intervals, for an `int` of so many bytes; `sets.rt` says what the cases are
//!     $ vals 2   explicit sets and ranges of all numbers of some bits, likewise
//!     $ often 9  the same, each call so many times, for an `int` of two bytes; `often.rt` says what the cases are
//!     $ addrs    sets of addresses; `places/sets.rt` says what the cases are
//!     $ abs vals integers or addresses, with explicit sets and ranges of numbers; `places/values.rt` says what the cases are
//!     $ abs span the same, with intervals
//!     $ codes    codes of values; `codes.rt` says what the cases are
//!     $ estimate, $ rank 1,1 10,-    what codings cost, and which slots are coded; `costs.rt` says what the cases are
//!     $ facts    a set of numbers beside a table of two sets of addresses; `places/facts.rt` says what the cases are
#![tactic(auto)]

mod chain;
mod codes;
mod costs;
mod often;
mod places;
mod sets;
mod solver;
mod words;
mod written;

use cases_script::{Cases, Page, run, split};
use cc_cost_ranking::{Budgets, Weights};
use cc_program::num::Target;
use cc_ranges::Span;
use cc_sets::Vals;
use places::Places;
use std::alloc::Global;
use std::io;

/// What the cases of a section are about.
#[derive(Clone, Copy)]
enum Subject {
    Nothing,
    Chain,
    Spans(Target),
    Sets(Target),
    Often(u32, Target),
    Places(Places),
    Codes,
    Costs,
    Ranking(Weights, Budgets),
}

impl Cases for Subject {
    fn behind(setting: &str) -> Subject {
        match split(setting) {
            ("chain", "") => Subject::Chain,
            ("span", bytes) => match words::target_of(bytes) {
                Some(target) => Subject::Spans(target),
                None => Subject::Nothing,
            },
            ("vals", bytes) => match words::target_of(bytes) {
                Some(target) => Subject::Sets(target),
                None => Subject::Nothing,
            },
            ("addrs", "") => Subject::Places(Places::Addrs),
            ("abs", "vals") => Subject::Places(Places::Vals),
            ("abs", "span") => Subject::Places(Places::Spans),
            ("codes", "") => Subject::Codes,
            ("estimate", "") => Subject::Costs,
            ("rank", terms) => match costs::terms_of(terms) {
                Some((weights, budgets)) => Subject::Ranking(weights, budgets),
                None => Subject::Nothing,
            },
            ("facts", "") => Subject::Places(Places::Facts),
            ("often", times) => often_of(times).unwrap_or(Subject::Nothing),
            _ => Subject::Nothing,
        }
    }

    fn write_outcome(self, alloc: Global, page: &mut Page, case: &str) {
        match self {
            Subject::Nothing => page.put("unclear"),
            Subject::Chain => solver::write_outcome(alloc, page, case),
            Subject::Spans(target) => sets::write_outcome::<Span>(alloc, page, &target, case),
            Subject::Sets(target) => sets::write_outcome::<Vals>(alloc, page, &target, case),
            Subject::Often(times, target) => {
                often::write_outcome::<Vals>(alloc, page, &target, times, case)
            }
            Subject::Codes => codes::write_outcome(alloc, page, case),
            Subject::Costs => costs::write_estimate_outcome(page, case),
            Subject::Ranking(weights, budgets) => {
                costs::write_rank_outcome(alloc, page, &weights, &budgets, case)
            }
            Subject::Places(places) => places::write_outcome(alloc, page, places, case),
        }
    }
}

/// Calls that are worked so many times.
fn often_of(times: &str) -> Option<Subject> {
    Some(Subject::Often(times.parse().ok()?, words::small_target()))
}

fn main(rt: HostRuntime) -> io::Result<()> {
    cc_lattice::laws();
    cc_places::laws();
    cc_code::laws();
    cc_code::known_codings();
    cc_cost_ranking::laws();
    run(&rt, Subject::Nothing)
}
