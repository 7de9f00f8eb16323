//! The sentences of the subset of C (C99 6.5 to 6.9) and their trees, and what is proved of a machine that reads them.
#![tactic(auto)]

mod at;
mod fault;
mod laws;
pub mod state;
pub mod stop;
mod tree;
mod unit;

pub use at::At;
pub use fault::GramFault;
pub use laws::{the_machine_reads_sentences, tokens_have_one_fault, tokens_have_one_tree};
pub use tree::{Attr, Declr, Enumr, MemberDecl, Param, Params, Spec, Tree, TypeName};
pub use unit::{Decl, First, Given, Init, Item, Line, Unit};
