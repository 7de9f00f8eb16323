use crate::Expr;
use cc_num::{Boxed, List};

/// A statement (C99 6.8). A body that is a block is the list of the block's statements. An initialiser of a local
/// (6.7.8) is an assignment where it stands, one for each scalar.
#[cycle(statements)]
#[derive(Drop)]
pub enum Stmt {
    /// An expression statement (C99 6.8.3).
    Do(Boxed<Expr>),
    /// `if`, with the statements of both its arms (C99 6.8.4.1).
    If(Boxed<Expr>, List<Stmt>, List<Stmt>),
    While(Boxed<Expr>, List<Stmt>),
    DoWhile(List<Stmt>, Boxed<Expr>),
    /// `for`: what is done first, the test, what is done behind each turn, and the body (C99 6.8.5.3).
    For(Option<Boxed<Expr>>, Option<Boxed<Expr>>, Option<Boxed<Expr>>, List<Stmt>),
    Switch(Boxed<Expr>, List<Case>),
    Break,
    Continue,
    Return(Option<Boxed<Expr>>),
    /// `;` (C99 6.8.3, 3).
    Empty,
    Block(List<Stmt>),
}

/// What stands behind labels of a `switch` (C99 6.8.4.2), up to the next ones. It falls through into the next case.
#[cycle(statements)]
#[derive(Drop)]
pub struct Case {
    /// The constants of the labels, in order; `None` is `default`.
    pub labels: List<Option<i128>>,
    /// The statements, but for an empty one right behind the labels.
    pub body: List<Stmt>,
}
