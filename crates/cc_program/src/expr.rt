mod copies;

use crate::CType;
use cc_num::{BinOp, Boxed, IntType, List, UnOp};

/// What an lvalue designates (C99 6.3.2.1).
#[cycle(expressions)]
#[derive(Drop)]
pub enum Place {
    /// A local of the function, by id.
    Local(u32),
    /// A static object, by id.
    Static(u32),
    /// A device, by id.
    Device(u32),
    /// An element of the array that a place holds (C99 6.5.2.1), by its subscript.
    Element(Boxed<Place>, Boxed<Expr>),
    /// A member of the structure that a place holds (C99 6.5.2.3), by position.
    Member(Boxed<Place>, u32),
    /// What a pointer points to (C99 6.5.3.2).
    Deref(Boxed<Expr>),
}

/// An intrinsic, which acts on the interrupt flag.
#[derive(Clone, Copy, Debug, PartialEq, Eq)]
pub enum Intr {
    /// Clears the flag.
    Off,
    /// Sets the flag.
    On,
    /// Clears the flag, and gives what it was.
    Save,
    /// Sets the flag where its operand is not 0, else clears it.
    Restore,
}

/// An expression (C99 6.5) with each conversion of integers written out (6.3).
#[cycle(expressions)]
#[derive(Drop)]
pub enum Expr {
    /// A value and its type.
    Const(i128, IntType),
    /// A null pointer of a pointer type.
    Null(Boxed<CType>),
    /// A pointer to a function, by id.
    FuncAddr(u32),
    /// The value of a scalar (C99 6.3.2.1, 2).
    Load(Boxed<Place>),
    /// A pointer to a place (C99 6.5.3.2). The value of an array is one to its first element (6.3.2.1, 3).
    AddrOf(Boxed<Place>),
    /// An operator in the type to which its operand was promoted (C99 6.5.3.3).
    Un(UnOp, IntType, Boxed<Expr>),
    /// An operator in the type to which its operands were brought (C99 6.3.1.8), or for a shift its first one
    /// (6.5.7).
    Bin(BinOp, IntType, Boxed<Expr>, Boxed<Expr>),
    /// A conversion of an integer.
    Conv(IntType, Boxed<Expr>),
    /// A cast of a pointer to a type with the same qualifiers or more (C99 6.5.4). The value is the operand's.
    /// Where no cast stands, qualifiers that are added (6.3.2.3, 2) leave nothing.
    Qualify(Boxed<CType>, Boxed<Expr>),
    /// A pointer moved by an integer (C99 6.5.6, 8), back where the flag is set.
    Move(Boxed<Expr>, Boxed<Expr>, bool),
    /// The difference of two pointers (C99 6.5.6, 9).
    Gap(Boxed<Expr>, Boxed<Expr>),
    /// A comparison of two pointers (C99 6.5.8, 6.5.9). `!` of a pointer is one by `==` with a null, and its
    /// conversion to `_Bool` converts one by `!=`.
    Compare(BinOp, Boxed<Expr>, Boxed<Expr>),
    /// `&&` (C99 6.5.13).
    Both(Boxed<Expr>, Boxed<Expr>),
    /// `||` (C99 6.5.14).
    Either(Boxed<Expr>, Boxed<Expr>),
    /// `? :` (C99 6.5.15).
    Choose(Boxed<Expr>, Boxed<Expr>, Boxed<Expr>),
    /// `=` (C99 6.5.16.1).
    Assign(Boxed<Place>, Boxed<Expr>),
    /// A compound assignment (C99 6.5.16.2) or a prefix `++` or `--` (6.5.3.1). The type is that in which the
    /// operator works; where the place is a pointer it is that of the integer.
    Change(Boxed<Place>, BinOp, IntType, Boxed<Expr>),
    /// A postfix `++`, or `--` where the flag is set (C99 6.5.2.4).
    After(Boxed<Place>, bool),
    /// A call of what a pointer to a function points to (C99 6.5.2.2).
    Call(Boxed<Expr>, List<Expr>),
    /// A call of an intrinsic. `Restore` has an operand, the others have none.
    Intr(Intr, Option<Boxed<Expr>>),
    /// A comma (C99 6.5.17).
    Seq(Boxed<Expr>, Boxed<Expr>),
}
