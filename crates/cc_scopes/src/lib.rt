//! What is known up to a place of a translation unit: names and tags in scope, structures, and what has a place in
//! memory of its own (C99 6.2.1 to 6.2.4, 6.7.2).
#![tactic(auto)]

mod designated;
mod known;
mod law;
mod linked;
mod scope;
mod standing;
mod state;
mod tags;
mod unit;
mod verdict;

pub use cc_operands as operands;
pub use cc_operands::{lex, syntax, typed_crate as typed};
pub use cc_unit as unit_crate;
pub use cc_unit::{Linkage, UnitKind};
pub use designated::{Designated, Tagged};
pub use law::laws;
pub use scope::Scope;
pub use state::State;
pub use tags::{
    begin_list, closed, declare_tag, enumeration_closed, enumeration_constant, enumeration_named,
    has_tag_here, is_enumeration_here, is_member_name, opened, structure_named,
};
pub use unit::Declared;
pub use verdict::{Fault, Stop, placed};
