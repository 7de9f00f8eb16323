//! The turns of the parser on declarations: specifiers, structures, declarators, parameters and
//! initialisers (C99 6.7).
#![tactic(auto)]

pub mod declarations;
pub mod declarators;
pub mod parameters;
pub mod parts;
pub mod specifiers;
pub mod structures;
