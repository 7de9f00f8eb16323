//! The typed unit of one source: what it names, with types, values and bodies, before it is linked to others.
#![tactic(auto)]

mod entry;
mod expr;
mod ids;
mod mentions;
mod spoken;
mod stmt;
mod types;
mod unit;
mod value;

pub use entry::both_entries;
pub use expr::renumber_expr;
pub use ids::{Id, Ids};
pub use mentions::mentioned;
pub use stmt::renumber_stmts;
pub use types::{renumber_sig, renumber_type};
pub use unit::{Linkage, TypedUnit, UnitKind, UnitName, UnitStructure};
pub use value::renumber_leaf;
