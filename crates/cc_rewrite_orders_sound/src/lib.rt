//! Laws: a program with its static objects in another order, some of them left out, is sound and in normal form where its source is.
#![tactic(auto)]

mod law;

pub use law::ordered_sound_laws;
