//! What the operators of C give (C99 6.5): over integers, over addresses, and over bad values.
#![tactic(auto)]

mod values;

pub use values::{
    address_in, binary, comparison, conversion, element_at, gap, integer, is_true, movement,
    of_truth, truth, unary,
};
