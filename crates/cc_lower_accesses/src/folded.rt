//! Operators whose operands are constants become constants, where nothing traps (C99 6.6).

ghost use Rattle.std.specs.Prelude.{◌≡◌, IfOk, option_map};
ghost use Rattle.cc_lower_expressions.specs.Expressions.{constant_in as constant_in_of, constant_or as constant_or_of, binary_type as binary_type_of, folded_un as folded_un_of, folded_bin as folded_bin_of, folded_conv as folded_conv_of, conv_unless as conv_unless_of, truth_of as truth_of_of, changed as changed_of};
ghost use Rattle.cc_lower_expressions.specs.Temporaries.{declared_type as declared_type_of, is_same_type as is_same_type_of};
ghost use Rattle.cc_operands.specs.View.{constant_view};
ghost use Rattle.cc_syntax.specs.Forms.{form_of};
ghost use Rattle.cc_syntax.specs.Operators.{is_comparison as is_comparison_of, unary_result as unary_result_of};
ghost use Rattle.cc_syntax.specs.Values.{Integer};
ghost use Rattle.cc_eval.specs.Eval.{is_back as is_back_of, one_more_type as one_more_type_of, sum_or_difference as sum_or_difference_of};
ghost use Rattle.cc_eval.specs.CcTyped.View.{value_view};

use crate::body::Body;
use crate::temporaries::declared_type;
use cc_eval::typed::{ValueType, same_int};
use cc_operands::Constant;
use cc_program::Expr;
use cc_program::num::{BinOp, Boxed, IntType, NoMemory, UnOp, promote, usual};
use std::alloc::Global;

fn constant_in(e: &Expr) -> Constant
    ensures { constant_view result ≡ constant_in_of (form_of e.now) }
{
    match e {
        Expr::Const(n, _) => Constant::Value(*n),
        _ => Constant::NoConstant,
    }
}

fn is_comparison(op: BinOp) -> bool
    ensures { result ≡ is_comparison_of op }
{
    match op {
        BinOp::Lt | BinOp::Le | BinOp::Gt | BinOp::Ge | BinOp::Eq | BinOp::Ne => true,
        BinOp::Add | BinOp::Sub | BinOp::Mul | BinOp::Div | BinOp::Rem => false,
        BinOp::And | BinOp::Or | BinOp::Xor | BinOp::Shl | BinOp::Shr => false,
    }
}

fn binary_type(op: BinOp, t: IntType) -> IntType
    ensures { result ≡ binary_type_of op t }
{
    if is_comparison(op) { IntType::Int } else { t }
}

fn unary_type(op: UnOp, t: IntType) -> IntType
    ensures { result ≡ unary_result_of op t }
{
    match op {
        UnOp::Lnot => IntType::Int,
        UnOp::Neg | UnOp::Not => t,
    }
}

fn is_back(op: BinOp) -> bool
    ensures { result ≡ is_back_of op }
{
    match op {
        BinOp::Sub => true,
        BinOp::Lt | BinOp::Le | BinOp::Gt | BinOp::Ge | BinOp::Eq | BinOp::Ne => false,
        BinOp::Add | BinOp::Mul | BinOp::Div | BinOp::Rem => false,
        BinOp::And | BinOp::Or | BinOp::Xor | BinOp::Shl | BinOp::Shr => false,
    }
}

fn constant_or(t: IntType, constant: Constant, e: Expr) -> Expr
    ensures { result ≡ constant_or_of t (constant_view constant) e }
{
    match constant {
        Constant::Value(n) => Expr::Const(n, t),
        Constant::NoConstant => e,
        Constant::Traps => e,
    }
}

/// `a + 1` or `a - 1`, as an operator.
pub(crate) fn sum_or_difference(down: bool) -> BinOp
    ensures { result ≡ sum_or_difference_of down }
{
    if down { BinOp::Sub } else { BinOp::Add }
}

impl<'p> Body<'p> {
    /// `op a`, computed in type `t`: its value where `a` is a constant and the value exists.
    pub fn folded_un(self, op: UnOp, t: IntType, a: Expr) -> Result<Expr, NoMemory>
        ensures { IfOk result (λ e. e ≡ folded_un_of self.entry.program.now self.entry.func.now declared_type_of is_same_type_of op t a) }
    {
        let constant = constant_in(&a).unary(op, t, self.target());
        let e = Expr::Un(op, t, Boxed::new(self.alloc, a)?);
        Ok(constant_or(unary_type(op, t), constant, e))
    }

    /// `a op b`, computed in type `t`: its value where both are constants and the value exists.
    pub fn folded_bin(self, op: BinOp, t: IntType, a: Expr, b: Expr) -> Result<Expr, NoMemory>
        ensures { IfOk result (λ e. e ≡ folded_bin_of self.entry.program.now self.entry.func.now declared_type_of is_same_type_of op t a b) }
    {
        let constant = constant_in(&a).binary(op, t, constant_in(&b), self.target());
        let e = Expr::Bin(
            op,
            t,
            Boxed::new(self.alloc, a)?,
            Boxed::new(self.alloc, b)?,
        );
        Ok(constant_or(binary_type(op, t), constant, e))
    }

    /// `a` converted to `t`: its value where `a` is a constant.
    pub fn folded_conv(self, t: IntType, a: Expr) -> Result<Expr, NoMemory>
        ensures { IfOk result (λ e. e ≡ folded_conv_of self.entry.program.now self.entry.func.now declared_type_of is_same_type_of t a) }
    {
        let constant = constant_in(&a).converted(t, self.target());
        let e = Expr::Conv(t, Boxed::new(self.alloc, a)?);
        Ok(constant_or(t, constant, e))
    }

    /// A conversion, which is left out where it changes no type.
    fn conv_unless(self, from: IntType, t: IntType, e: Expr) -> Result<Expr, NoMemory>
        ensures { IfOk result (λ r. r ≡ conv_unless_of self.entry.program.now self.entry.func.now declared_type_of is_same_type_of from t e) }
    {
        if same_int(from, t) {
            return Ok(e);
        }
        self.folded_conv(t, e)
    }

    fn integer_truth(self, t: IntType, e: Expr) -> Result<Expr, NoMemory>
        ensures { IfOk result (λ r. r ≡ truth_of_of self.entry.program.now self.entry.func.now declared_type_of is_same_type_of (Some (Integer t)) e) }
    {
        let wide = promote(t, self.target());
        let e = self.conv_unless(t, wide, e)?;
        self.folded_bin(BinOp::Ne, wide, e, Expr::Const(0, wide))
    }

    fn pointer_truth(self, t: Option<ValueType>, e: Expr) -> Result<Expr, NoMemory>
        ensures { IfOk result (λ r. r ≡ Expr.Compare BinOp.Ne e (Expr.Null (declared_type_of (option_map value_view t.entry)))) }
    {
        let null = Expr::Null(Boxed::new(self.alloc, declared_type(self.alloc, t)?)?);
        let e = Boxed::new(self.alloc, e)?;
        Ok(Expr::Compare(BinOp::Ne, e, Boxed::new(self.alloc, null)?))
    }

    /// `e != 0`.
    pub fn truth_of(self, t: Option<ValueType>, e: Expr) -> Result<Expr, NoMemory>
        ensures { IfOk result (λ r. r ≡ truth_of_of self.entry.program.now self.entry.func.now declared_type_of is_same_type_of (option_map value_view t.entry) e) }
    {
        match t {
            None | Some(ValueType::NoValue) => Ok(e),
            Some(ValueType::Integer(i)) => self.integer_truth(i, e),
            Some(ValueType::ToObject(_, _, _)) | Some(ValueType::ToFunction(_)) => {
                self.pointer_truth(t, e)
            }
        }
    }

    fn changed_integer(
        self,
        op: BinOp,
        t: IntType,
        place: IntType,
        old: Expr,
        b: Expr,
    ) -> Result<Expr, NoMemory>
        ensures { IfOk result (λ r. r ≡ changed_of self.entry.program.now self.entry.func.now declared_type_of is_same_type_of op t (Some (Integer place)) old b) }
    {
        let old = self.conv_unless(place, t, old)?;
        let sum = self.folded_bin(op, t, old, b)?;
        self.conv_unless(t, place, sum)
    }

    /// What `op=` makes of the value that a place had.
    pub(crate) fn changed(
        self,
        op: BinOp,
        t: IntType,
        place: Option<ValueType>,
        old: Expr,
        b: Expr,
    ) -> Result<Expr, NoMemory>
        ensures { IfOk result (λ r. r ≡ changed_of self.entry.program.now self.entry.func.now declared_type_of is_same_type_of op t (option_map value_view place.entry) old b) }
    {
        match place {
            Some(ValueType::Integer(s)) => self.changed_integer(op, t, s, old, b),
            Some(ValueType::ToObject(_, _, _)) => {
                let old = Boxed::new(self.alloc, old)?;
                Ok(Expr::Move(old, Boxed::new(self.alloc, b)?, is_back(op)))
            }
            None | Some(ValueType::NoValue) | Some(ValueType::ToFunction(_)) => Ok(old),
        }
    }

    /// The type in which `a + 1` works.
    pub(crate) fn one_more_type(self, place: Option<ValueType>) -> IntType
        ensures { result ≡ one_more_type_of self.entry.program.now.target (option_map value_view place.entry) }
    {
        match place {
            Some(ValueType::Integer(s)) => usual(s, IntType::Int, self.target()),
            None | Some(ValueType::NoValue) => IntType::Int,
            Some(ValueType::ToObject(_, _, _)) | Some(ValueType::ToFunction(_)) => IntType::Int,
        }
    }
}
