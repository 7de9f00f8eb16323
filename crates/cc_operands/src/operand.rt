//! Values of expressions with their types, constants (C99 6.4.4, 6.6), and conversions of integers (6.3.1).

ghost use Rattle.std.specs.Prelude.{◌≡◌, IfOk, drop};
ghost use Rattle.cc_operands.specs.Operands.{operand as typed_of, integer as integer_of, constancy as constancy_of, folded as folded_of, first_with as first_with_of, number_type as number_type_of, character_value as character_value_of, size_type as size_type_of, cast_to as cast_to_of, converted_to as converted_to_of, is_zero_constant, is_null_constant as is_null_constant_of, null_of as null_of_of, against_null as against_null_of, as_nothing as as_nothing_of, is_void_value as is_void_value_of};
ghost use Rattle.cc_operands.specs.View.{operand_view, type_view, constant_view};

use crate::constants::Constant;
use crate::qualified::type_of_value;
use crate::types::OperandType;
use cc_lex::Suffix;
use cc_program::num::{BinOp, Boxed, IntType, NoMemory, Target, convert};
use cc_typed::same_int;
use cc_typed::syntax::Expr;
use std::alloc::Global;

/// What an expression gives, and its type.
#[derive(Drop)]
pub struct Operand {
    pub value: Boxed<Expr>,
    pub ctype: OperandType,
    /// Whether it is a constant expression that has no value.
    pub traps: bool,
    /// Whether it is a structure, which has a type but no value.
    pub structure: bool,
}

/// What is no constant expression.
pub fn typed(value: Boxed<Expr>, ctype: OperandType) -> Operand
    ensures { operand_view result ≡ typed_of value (type_view ctype) }
{
    Operand {
        value,
        ctype,
        traps: false,
        structure: false,
    }
}

/// A constant.
pub fn integer(alloc: Global, n: i128, t: IntType) -> Result<Operand, NoMemory>
    ensures { IfOk result (λ r. operand_view r ≡ integer_of n t) }
{
    let value = Boxed::new(alloc, Expr::Const(n, t))?;
    Ok(typed(value, OperandType::Integer(t)))
}

/// An operation, folded where it has a value.
pub fn folded(
    alloc: Global,
    t: IntType,
    constant: Constant,
    value: Boxed<Expr>,
) -> Result<Operand, NoMemory>
    ensures { IfOk result (λ r. operand_view r ≡ folded_of t (constant_view constant) value) }
{
    match constant {
        Constant::Value(n) => integer(alloc, n, t),
        Constant::Traps => Ok(Operand {
            value,
            ctype: OperandType::Integer(t),
            traps: true,
            structure: false,
        }),
        Constant::NoConstant => Ok(typed(value, OperandType::Integer(t))),
    }
}

impl Operand {
    /// The expression that gives it.
    pub fn into_value(self) -> Boxed<Expr>
        ensures { result ≡ self.value }
    {
        self.value
    }

    /// What it is as a constant expression.
    pub fn constancy(&self) -> Constant
        ensures { constant_view result ≡ constancy_of (operand_view self.now) }
    {
        if self.traps {
            Constant::Traps
        } else {
            match self.value.get() {
                Expr::Const(n, _) => Constant::Value(*n),
                _ => Constant::NoConstant,
            }
        }
    }

    /// Whether it is the value of a void expression.
    pub fn is_void(&self) -> bool
        ensures { result ≡ is_void_value_of (operand_view self.now) }
    {
        self.ctype.is_nothing() && !self.structure
    }

    fn is_zero(&self) -> bool
        ensures { result ≡ is_zero_constant (constancy_of (operand_view self.now)) }
    {
        match self.constancy() {
            Constant::Value(n) => n == 0,
            Constant::NoConstant => false,
            Constant::Traps => false,
        }
    }

    /// Whether it is a null pointer constant (C99 6.3.2.3, 3).
    pub fn is_null_constant(&self) -> bool
        ensures { result ≡ is_null_constant_of (operand_view self.now) }
    {
        self.is_zero() || (self.ctype.is_to_void() && matches!(self.value.get(), Expr::Null(_)))
    }
}

/// A value that is not used: what it was as a constant expression, it stays.
pub fn as_nothing(x: Operand) -> Operand
    ensures { operand_view result ≡ as_nothing_of (operand_view x) }
{
    Operand {
        value: x.value,
        ctype: OperandType::NoValue,
        traps: x.traps,
        structure: false,
    }
}

/// Converts an integer to a type, where a cast is written.
pub fn cast_to(alloc: Global, target: &Target, t: IntType, x: Operand) -> Result<Operand, NoMemory>
    ensures { IfOk result (λ r. operand_view r ≡ cast_to_of target.now t (operand_view x)) }
{
    let constant = x.constancy().converted(t, target);
    let value = Boxed::new(alloc, Expr::Conv(t, x.into_value()))?;
    folded(alloc, t, constant, value)
}

/// Converts an integer to a type, where the language asks for it: to the type that it has, nothing is done.
pub fn converted_to(
    alloc: Global,
    target: &Target,
    t: IntType,
    x: Operand,
) -> Result<Operand, NoMemory>
    ensures { IfOk result (λ r. operand_view r ≡ converted_to_of target.now t (operand_view x)) }
{
    let OperandType::Integer(s) = &x.ctype else {
        return Ok(x);
    };
    if same_int(*s, t) {
        Ok(x)
    } else {
        cast_to(alloc, target, t, x)
    }
}

/// A null of a pointer type.
pub fn null_of(alloc: Global, t: &OperandType) -> Result<Boxed<Expr>, NoMemory>
    ensures { IfOk result (λ r. r ≡ null_of_of (type_view t.now)) }
{
    let ctype = Boxed::new(alloc, type_of_value(alloc, t)?)?;
    Boxed::new(alloc, Expr::Null(ctype))
}

/// A pointer, compared with a null.
pub fn against_null(alloc: Global, op: BinOp, x: Operand) -> Result<Boxed<Expr>, NoMemory>
    ensures { IfOk result (λ r. r ≡ against_null_of op (operand_view x)) }
{
    let null = null_of(alloc, &x.ctype)?;
    Boxed::new(alloc, Expr::Compare(op, x.into_value(), null))
}

/// The first of the types that has the value.
#[tactic(auto, using(crate::proofs::FirstTypes::of_first))]
fn first_with(target: &Target, n: u64, types: &[IntType]) -> IntType
    ensures { result ≡ first_with_of target.now n types.now }
{
    for t in types {
        if t.contains(i128::from(n), target) {
            return *t;
        }
    }
    IntType::ULongLong
}

/// The first of the types behind so many that has the value.
fn first_behind(target: &Target, n: u64, skipped: usize, types: &[IntType]) -> IntType
    ensures { result ≡ first_with_of target.now n (drop skipped types.now) }
{
    if skipped < types.len() {
        first_with(target, n, &types[skipped..])
    } else {
        IntType::ULongLong
    }
}

/// The type of an integer constant: the first in its list that has the value (C99 6.4.4.1, 5).
pub fn number_type(target: &Target, n: u64, suffix: Suffix) -> IntType
    ensures { result ≡ number_type_of target.now n suffix }
{
    let longs = usize::from(suffix.longs);
    if suffix.unsigned {
        let types = [IntType::UInt, IntType::ULong, IntType::ULongLong];
        first_behind(target, n, longs, &types)
    } else if suffix.decimal {
        let types = [IntType::Int, IntType::Long, IntType::LongLong];
        first_behind(target, n, longs, &types)
    } else {
        let types = [
            IntType::Int,
            IntType::UInt,
            IntType::Long,
            IntType::ULong,
            IntType::LongLong,
            IntType::ULongLong,
        ];
        first_behind(target, n, 2 * longs, &types)
    }
}

/// The value of a character: its byte as a char (C99 6.4.4.4, 10).
pub fn character_value(target: &Target, byte: u8) -> i128
    ensures { result ≡ character_value_of target.now byte }
{
    convert(i128::from(byte), IntType::Char, target)
}

/// size_t: `unsigned int` where `int` is as wide as a pointer, else `unsigned long`.
pub fn size_type(target: &Target) -> IntType
    ensures { result ≡ size_type_of target.now }
{
    if target.pointer_bytes <= target.int_bytes {
        IntType::UInt
    } else {
        IntType::ULong
    }
}
