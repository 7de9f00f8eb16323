//! What expressions designate is folded: reading folds each operator whose operands are all constants.
#![tactic(auto)]

mod law;

pub use law::term_laws;
