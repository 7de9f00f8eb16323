//! Laws: an access of a scalar that stands in a word, and the statements that stand for it, make turns that follow and answer each other.
#![tactic(auto)]

mod law;
mod values;

pub use law::{
    ComparedPrograms, alone_writes, asked_alike, constants, guarded_alone_writes, guarded_reads,
    guarded_writes, plain_reads, plain_writes, worked_out,
};
pub use values::{operands, words};
