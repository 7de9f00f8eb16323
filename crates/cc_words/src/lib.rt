//! The words of C and GNU C: keywords, words that are outside the subset, identifiers and names (C99
//! 6.4.1, 6.4.2).
#![tactic(auto)]

mod keywords;
mod law;
mod names;
mod outside;
mod word;

pub use keywords::word_of;
pub use law::words_are_apart;
pub use names::{is_identifier, is_letter_or_digit, is_name};
pub use outside::is_outside;
pub use word::Word;
