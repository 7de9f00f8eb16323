//! The types of a program, and how many bytes their objects take.
#![tactic(auto)]

mod law;
mod sizes;

pub use cc_program::{
    Address, CType, Case, Cell, Device, Entry, Expr, Func, Intr, Leaf, Object, Part, Place,
    Program, Roles, Root, Shape, Sig, Stmt, Structure, Value,
};
pub use law::laws;
pub use sizes::{Layout, align_of, layout_of, size_of};
