//! The turns of the parser on statements and translation units (C99 6.8 and 6.9), and the machine that takes turns:
//! what was read is handed to what waits for it. Its run goes from the first turn to the last.
#![tactic(auto)]

mod depth;
mod handing;
mod items;
mod lines;
mod machine;
mod parts;
pub mod run;
mod statement_parts;
mod statements;
mod waiting;
