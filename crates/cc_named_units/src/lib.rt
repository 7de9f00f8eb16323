//! Names and counts of a typed unit are those of its text.
#![tactic(auto)]

mod count_law;
mod declaration_law;
mod name_law;
mod term_law;
mod text_law;

pub use count_law::count_laws;
pub use declaration_law::{body_laws, declaration_laws};
pub use name_law::name_laws;
pub use term_law::term_laws;
pub use text_law::text_laws;
