//! Pieces of printed C, and how integers, types and declarations are written in them.
#![tactic(auto)]

mod bytes;
mod constants;
mod piece;
mod puts;
mod spellings;
mod types;

pub use bytes::spell;
pub use constants::{is_narrow, put_constant};
pub use piece::{Piece, Symbol};
pub use puts::{
    close, mark, name, number, number_piece, open, put, put_all, spaced_mark, two_words, word,
};
pub use types::{
    Inside, put_behind, put_cast, put_declaration, put_front, put_int_cast, put_int_name,
    put_parameters, put_qualifiers, put_type_name,
};
