//! Declarations, statements and translation units (C99 6.7 to 6.9).

use crate::at::At;
use crate::tree::{Attr, Declr, Spec, Tree};
use cc_num::{Boxed, List};

/// A translation unit (C99 6.9).
#[derive(Drop)]
pub struct Unit {
    pub items: List<At<Item>>,
}

/// A declaration or a function definition of a translation unit.
#[derive(Drop)]
pub enum Item {
    Decl(Decl),
    /// A function definition: its specifiers, its declarator, its attributes and its body.
    Func(List<At<Spec>>, At<Declr>, List<At<Attr>>, List<At<Line>>),
}

/// A declaration (C99 6.7).
#[derive(Drop)]
pub struct Decl {
    pub specs: List<At<Spec>>,
    pub inits: List<At<Init>>,
}

/// A declarator with its attributes, and what it is given at first.
#[derive(Drop)]
pub struct Init {
    pub declr: At<Declr>,
    pub attrs: List<At<Attr>>,
    pub value: Option<At<Given>>,
}

/// An initialiser (C99 6.7.8): an expression, or a list in braces.
#[cycle(given)]
#[derive(Drop)]
pub enum Given {
    One(At<Tree>),
    Many(List<At<Given>>),
}

/// A statement, or a declaration in a block (C99 6.8).
#[cycle(line)]
#[derive(Drop)]
pub enum Line {
    Block(List<At<Line>>),
    Decl(Decl),
    Expr(Option<Boxed<At<Tree>>>),
    If(Boxed<At<Tree>>, Boxed<At<Line>>, Option<Boxed<At<Line>>>),
    While(Boxed<At<Tree>>, Boxed<At<Line>>),
    DoWhile(Boxed<At<Line>>, Boxed<At<Tree>>),
    For(Boxed<First>, Option<Boxed<At<Tree>>>, Option<Boxed<At<Tree>>>, Boxed<At<Line>>),
    Switch(Boxed<At<Tree>>, Boxed<At<Line>>),
    Case(Boxed<At<Tree>>, Boxed<At<Line>>),
    Default(Boxed<At<Line>>),
    Break,
    Continue,
    Return(Option<Boxed<At<Tree>>>),
}

/// The first part of a `for`.
#[derive(Drop)]
pub enum First {
    Decl(Decl),
    Expr(Option<Boxed<At<Tree>>>),
}
