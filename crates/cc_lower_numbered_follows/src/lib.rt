//! Laws of programs whose temporaries are numbered: each follows its source, and answers it. Lowered programs are such sources.
#![tactic(auto)]

mod laws;

pub use laws::{lowered_temporary_laws, numbered_program_laws};
