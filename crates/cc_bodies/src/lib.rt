//! The printed text of expressions and of statements in normal form.
#![tactic(auto)]

mod effects;
mod exprs;
mod leaves;
mod names;
mod spots;
mod stmts;

pub use effects::intrinsic_name;
pub use exprs::{Context, put_expr, put_place};
pub use names::{func_name, member_name, put_named};
pub use spots::Spot;
pub use stmts::{put_closed, put_ended, put_opened, put_stmts};
