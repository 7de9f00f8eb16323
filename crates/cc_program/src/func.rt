use crate::{CType, Sig, Stmt};
use cc_num::{List, Name};

/// How a function is known as an interrupt handler.
#[derive(Clone, Copy, Debug, PartialEq, Eq)]
pub enum Entry {
    /// By the attribute `signal`, or by both attributes.
    Signal,
    /// By the attribute `interrupt`.
    Interrupt,
    /// By the roles alone.
    Listed,
}

/// A function with its body (C99 6.9.1).
#[derive(Drop)]
pub struct Func {
    pub name: Name,
    pub sig: Sig,
    /// Set where the function is an interrupt handler.
    pub entry: Option<Entry>,
    /// How many of the first locals are parameters. They keep the qualifiers of their own.
    pub params: u32,
    /// The objects of an activation, with their types and qualifiers.
    pub locals: List<(Name, CType)>,
    pub body: List<Stmt>,
}
