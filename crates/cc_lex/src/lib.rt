//! The tokens of a preprocessed C text (C99 6.4).
#![tactic(auto)]

mod byte;
mod fault;
mod identifiers;
mod laws;
mod lexer;
mod literals;
mod marks;
mod numbers;
mod scan;
mod separators;
mod token;

pub use cc_words::Word;
pub use fault::LexFault;
pub use laws::{spellings_are_longest, texts_have_tokens_or_a_fault};
pub use lexer::lex;
pub use marks::spelling;
pub use token::{Kind, Mark, Suffix, Token};
