//! Expressions, specifiers and declarators (C99 6.5 to 6.7).

use crate::at::At;
use cc_lex::{Mark, Suffix, Word};
use cc_num::{Boxed, List, Name};

/// An expression (C99 6.5).
#[cycle(tree)]
#[derive(Drop)]
pub enum Tree {
    Named(Name),
    Number(u64, Suffix),
    Character(u8),
    /// The bytes of neighbouring string literals, joined.
    Text(List<u8>),
    Paren(Boxed<At<Tree>>),
    /// The comma operator, which groups to the left.
    Comma(Boxed<At<Tree>>, Boxed<At<Tree>>),
    Assign(Mark, Boxed<At<Tree>>, Boxed<At<Tree>>),
    Choose(Boxed<At<Tree>>, Boxed<At<Tree>>, Boxed<At<Tree>>),
    Binary(Mark, Boxed<At<Tree>>, Boxed<At<Tree>>),
    Prefix(Mark, Boxed<At<Tree>>),
    Postfix(Boxed<At<Tree>>, Mark),
    SizeOf(Boxed<At<Tree>>),
    SizeOfType(Boxed<TypeName>),
    Extension(Boxed<At<Tree>>),
    Cast(Boxed<TypeName>, Boxed<At<Tree>>),
    Subscript(Boxed<At<Tree>>, Boxed<At<Tree>>),
    Call(Boxed<At<Tree>>, List<At<Tree>>),
    Member(Boxed<At<Tree>>, Name),
    Arrow(Boxed<At<Tree>>, Name),
}

/// A type name (C99 6.7.6).
#[cycle(tree)]
#[derive(Drop)]
pub struct TypeName {
    pub specs: List<At<Spec>>,
    pub declr: At<Declr>,
}

/// A specifier of a declaration (C99 6.7).
#[cycle(tree)]
#[derive(Drop)]
pub enum Spec {
    /// A storage class, a qualifier, `inline`, a basic type's word, or `__extension__`.
    Word(Word),
    /// A typedef name.
    Named(Name),
    /// A structure: its tag, its members where it is defined here, and its attributes, those before the
    /// tag and those behind the brace.
    Struct(Option<Name>, Option<List<At<MemberDecl>>>, List<At<Attr>>, List<At<Attr>>),
    /// An enumeration: its tag, and its constants where it is defined here.
    Enum(Option<Name>, Option<List<At<Enumr>>>),
    Attr(Attr),
}

/// An attribute: its words, each with its argument where it has one.
#[derive(Drop)]
pub struct Attr {
    pub words: List<(Name, Option<Name>)>,
}

/// A declaration of members (C99 6.7.2.1).
#[cycle(tree)]
#[derive(Drop)]
pub struct MemberDecl {
    pub specs: List<At<Spec>>,
    pub declrs: List<At<Declr>>,
}

/// An enumeration constant (C99 6.7.2.2).
#[cycle(tree)]
#[derive(Drop)]
pub struct Enumr {
    pub name: Name,
    pub value: Option<At<Tree>>,
}

/// A declarator (C99 6.7.5, 6.7.6), from the inside out: the outermost part binds last.
#[cycle(tree)]
#[derive(Drop)]
pub enum Declr {
    /// The name that an abstract declarator or a parameter leaves out. It begins at the token behind it.
    Nothing,
    Named(Name),
    Paren(Boxed<At<Declr>>),
    /// A pointer with its qualifiers.
    Pointer(List<Word>, Boxed<At<Declr>>),
    Array(Boxed<At<Declr>>, Option<Boxed<At<Tree>>>),
    Func(Boxed<At<Declr>>, Params),
}

/// What stands between the parentheses of a function's declarator.
#[cycle(tree)]
#[derive(Drop)]
pub enum Params {
    Empty,
    /// `void` alone.
    Void,
    Many(List<At<Param>>),
}

/// A parameter (C99 6.7.5.3).
#[cycle(tree)]
#[derive(Drop)]
pub struct Param {
    pub specs: List<At<Spec>>,
    pub declr: At<Declr>,
}
