//! What turns of the parser are made of, and those on expressions (C99 6.5).
#![tactic(auto)]

pub mod attributes;
pub mod cursor;
pub mod expressions;
pub mod forms;
pub mod names;
pub mod operations;
pub mod operators;
pub mod pieces;
pub mod postfixes;
pub mod scope;
pub mod turns;
