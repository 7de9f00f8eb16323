//! The state of the parser: what it is about to do, and what waits for a part that is being read.

use crate::at::At;
use crate::tree::{Attr, Declr, Enumr, MemberDecl, Param, Spec, Tree, TypeName};
use crate::unit::{Decl, First, Given, Init, Item, Line, Unit};
use cc_lex::{Mark, Token};
use cc_num::{Boxed, List, Name};

/// A construct with its height: how many nodes stand on its longest branch.
#[derive(Drop)]
pub struct Tall<T> {
    pub node: T,
    pub height: usize,
}

/// A construct of a tree in a box, with its offset and its height.
pub type Node<T> = Tall<Boxed<At<T>>>;

/// What a type name in parentheses is for.
#[derive(Clone, Copy, Drop)]
pub enum Use {
    Cast,
    SizeOf,
}

/// A structure whose members are being read: the specifiers in front of it, its offset, its tag, the
/// attributes in front of the tag, and its members so far. The height is that of all of them.
#[derive(Drop)]
pub struct Structure {
    pub outer: List<At<Spec>>,
    pub at: u32,
    pub tag: Option<Name>,
    pub attrs: List<At<Attr>>,
    pub members: List<At<MemberDecl>>,
    pub height: usize,
}

/// A declaration of members, whose declarators are being read.
#[derive(Drop)]
pub struct Members {
    pub structure: Structure,
    pub at: u32,
    pub specs: List<At<Spec>>,
    pub declrs: List<At<Declr>>,
    pub height: usize,
}

/// An enumeration whose constants are being read, behind the specifiers in front of it.
#[derive(Drop)]
pub struct Enumeration {
    pub outer: List<At<Spec>>,
    pub at: u32,
    pub tag: Option<Name>,
    pub enumrs: List<At<Enumr>>,
    pub height: usize,
}

/// A function's declarator whose parameters are being read.
#[derive(Drop)]
pub struct Function {
    pub declr: Boxed<At<Declr>>,
    pub params: List<At<Param>>,
    pub height: usize,
}

/// A declaration whose declarators are being read. `outside` says that it stands in no function, and so may
/// become a function's definition.
#[derive(Drop)]
pub struct Declaration {
    pub outside: bool,
    pub at: u32,
    pub specs: List<At<Spec>>,
    pub inits: List<At<Init>>,
    pub height: usize,
}

/// The head of a function's definition, whose body is being read.
#[derive(Drop)]
pub struct Head {
    pub at: u32,
    pub specs: List<At<Spec>>,
    pub declr: Boxed<At<Declr>>,
    pub attrs: List<At<Attr>>,
    pub height: usize,
}

/// A block, or a function's body, whose lines are being read. `scope` is how many typedef names are in scope
/// around it.
#[derive(Drop)]
pub struct Block {
    pub body: bool,
    pub scope: usize,
    pub at: u32,
    pub lines: List<At<Line>>,
    pub height: usize,
}

/// A `for` whose parts are being read. `scope` is how many typedef names are in scope around it.
#[derive(Drop)]
pub struct For {
    pub at: u32,
    pub scope: usize,
    pub first: Boxed<First>,
    pub test: Option<Boxed<At<Tree>>>,
    pub step: Option<Boxed<At<Tree>>>,
    pub height: usize,
}

/// The declarations and functions so far.
#[derive(Drop)]
pub struct Items {
    pub items: List<At<Item>>,
    pub height: usize,
}

/// What waits for an expression in an expression. A number in front is the least level of the operators that
/// may stand behind the whole.
#[derive(Drop)]
pub enum TreeFrame {
    /// Operators of this level and tighter ones may follow.
    Operators(usize),
    /// The right operand of a binary operator of a level.
    Binary(usize, Mark, usize, Node<Tree>),
    /// What stands between `?` and `:`.
    Choice(usize, Node<Tree>),
    /// What stands behind `:`.
    Otherwise(usize, Node<Tree>, Node<Tree>),
    Assign(usize, Mark, Node<Tree>),
    Comma(usize, Node<Tree>),
    Paren(u32),
    Subscript(Node<Tree>),
    /// An argument, behind those so far.
    Call(Node<Tree>, List<At<Tree>>),
    Prefix(u32, Mark),
    SizeOf(u32),
    Extension(u32),
    Cast(u32, Tall<Boxed<TypeName>>),
}

/// What waits for an expression elsewhere.
#[derive(Drop)]
pub enum PartFrame {
    /// The bound of an array.
    Bound(Node<Declr>),
    /// The value of an enumeration constant, with its offset and name.
    Enumr(Enumeration, u32, Name),
    /// An initialiser.
    Value,
    If(u32),
    While(u32),
    Switch(u32),
    /// The test behind the body of a `do`.
    Do(u32, Node<Line>),
    First(u32, usize),
    Test(For),
    Step(For),
    Case(u32),
    Return(u32),
    Expr(u32),
}

/// What waits for specifiers.
#[derive(Drop)]
pub enum SpecsFrame {
    TypeName(Use, u32),
    /// Those of a parameter that begins at an offset.
    Param(Function, u32),
    /// Those of members that are declared from an offset on.
    Member(Structure, u32),
    /// Those of a declaration that begins at an offset, and whether it stands in no function.
    Decl(bool, u32),
}

/// What waits for a declarator.
#[derive(Drop)]
pub enum DeclrFrame {
    Paren(u32),
    Pointer(u32, List<cc_lex::Word>),
    TypeName(Use, u32, Tall<List<At<Spec>>>),
    Param(Function, u32, Tall<List<At<Spec>>>),
    Member(Members),
    Init(Declaration),
}

/// What waits for an initialiser.
#[derive(Drop)]
pub enum ValueFrame {
    /// That of a declarator with its attributes.
    Init(Declaration, Boxed<At<Declr>>, List<At<Attr>>),
    /// A list in braces that begins at an offset, with its values so far.
    Many(u32, Tall<List<At<Given>>>),
}

/// What waits for a statement.
#[derive(Drop)]
pub enum LineFrame {
    Then(u32, Node<Tree>),
    Else(u32, Node<Tree>, Node<Line>),
    While(u32, Node<Tree>),
    Switch(u32, Node<Tree>),
    Do(u32),
    For(For),
    Case(u32, Node<Tree>),
    Default(u32),
}

/// What waits for a part.
#[derive(Drop)]
pub enum Frame {
    Tree(TreeFrame),
    Part(PartFrame),
    Specs(SpecsFrame),
    Declr(DeclrFrame),
    Value(ValueFrame),
    Line(LineFrame),
    /// Statements and declarations of a block.
    Block(Block),
    /// The declaration at the head of a `for`, with its offset and how many typedef names are in scope.
    First(u32, usize),
    /// A function's body.
    Body(Head),
    /// Declarations and functions.
    Items(Items),
}

/// What the parser is about to do.
#[derive(Drop)]
pub enum Control {
    /// Read an expression of this level or a tighter one.
    Expr(usize),
    /// Read an operand where an expression of this level is wanted.
    Operand(usize),
    /// Look behind a postfix expression.
    Postfix(Node<Tree>),
    /// Look for an operator of the first level or a tighter one, behind an expression of the second level.
    Operators(usize, usize, Node<Tree>),
    /// Hand over an expression of this level.
    Tree(usize, Node<Tree>),
    /// Read specifiers behind these.
    Specs(Tall<List<At<Spec>>>),
    HaveSpecs(Tall<List<At<Spec>>>),
    Structure(Structure),
    Enumr(Enumeration),
    /// Look behind an enumeration constant.
    Enumeration(Enumeration),
    Declr,
    /// Look behind a direct declarator.
    Suffix(Node<Declr>),
    HaveDeclr(Node<Declr>),
    Value,
    HaveValue(Node<Given>),
    /// Read a declaration, which stands in no function or in one.
    Decl(bool),
    /// Look behind a declarator with what it is given.
    Inits(Declaration),
    HaveDecl(u32, Tall<Decl>),
    Statement,
    Block(Block),
    HaveLine(Node<Line>),
    /// Read the test of a `for`.
    Test(For),
    /// Read the last part of a `for`.
    Step(For),
    HaveBody(Tall<List<At<Line>>>),
    Items(Items),
    HaveItem(Node<Item>),
    Done(Tall<Unit>),
}

/// What becomes of the typedef names in scope.
#[derive(Drop)]
pub enum Scoping {
    Same,
    /// This one is behind them.
    Declares(Name),
    /// As many as this stay.
    Leaves(usize),
}

/// A turn of the parser: what waits from now on, what is to do next, the tokens behind what was read, and
/// what becomes of the typedef names.
#[derive(Drop)]
pub struct Turn<'t> {
    pub frame: Option<Boxed<Frame>>,
    pub control: Boxed<Control>,
    pub rest: &'t [Token],
    pub scoping: Scoping,
}
