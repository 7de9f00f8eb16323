//! The types of a program: what the reader makes of C, what is rewritten, and what is printed.
//! An id is a `u32` and is the position in the program's list of that kind.
#![tactic(auto)]

mod copies;
mod expr;
mod func;
mod object;
mod program;
mod stmt;
mod types;
mod value;

pub use cc_num as num;
pub use cc_words as words;
pub use copies::copy_list;
pub use expr::{Expr, Intr, Place};
pub use func::{Entry, Func};
pub use object::{Device, Object};
pub use program::{Program, Roles, copy_named, copy_names};
pub use stmt::{Case, Stmt};
pub use types::{CType, Shape, Sig, Structure};
pub use value::{Address, Cell, Leaf, Part, Root, Value};
