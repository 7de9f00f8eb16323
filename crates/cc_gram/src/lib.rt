//! The tree of a list of tokens, or why it has none.
#![tactic(auto)]

mod outside;
mod parser;

pub use cc_machine::run::discard_unit;
pub use cc_tree::{
    At, Attr, Decl, Declr, Enumr, First, Given, GramFault, Init, Item, Line, MemberDecl, Param,
    Params, Spec, Tree, TypeName, Unit, tokens_have_one_tree,
};
pub use parser::parse;
