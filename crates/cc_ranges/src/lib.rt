//! Intervals of numbers as a domain: each operator of C by a rule on the ends of its operands.
#![tactic(auto)]

mod ends;
mod keep;
mod rules;
mod span;
mod span_domain;

pub use span::{Interval, Span};
