//! Calls of functions and of intrinsics, by their prototypes (C99 6.5.2.2).

ghost use Rattle.std.specs.Prelude.{◌≡◌, IfOk, map};
ghost use Rattle.cc_designators.specs.Calls.{byte_type as byte_type_of, intrinsic_signature as intrinsic_signature_of, first_or_none as first_or_none_of, passed_to as passed_to_of, passed as passed_of, result_of as result_of_type, called_with, called_by as called_by_of, called as called_of, intrinsic as intrinsic_of};
ghost use Rattle.cc_operands.specs.Qualified.{plain as plain_of};
ghost use Rattle.cc_operands.specs.Verdicts.{Judges};
ghost use Rattle.cc_operands.specs.View.{operand_view, type_view};
ghost use Rattle.cc_program.specs.declared.expr.Expr.{Call as CallOf};
ghost use Rattle.cc_operands.specs.CcSyntax.Values.{result_value as result_value_of, scalar_value as scalar_value_of};

use cc_operands::syntax::{CType, Expr, Intr, Shape, Sig};
use cc_operands::typed_crate::{result_value, scalar_value};
use cc_operands::{Breach, Operand, OperandType, Rule, assigned, owned, typed};
use cc_program::num::{Boxed, IntType, List, NoMemory, Target};
use std::alloc::Global;

/// An argument as it is assigned to a parameter of the type.
fn passed_to(alloc: Global, target: &Target, t: &CType, x: Operand) -> Result<Operand, Breach>
    ensures { Judges operand_view result (passed_to_of target.now t.now (operand_view x) (scalar_value_of t.now)) }
{
    match scalar_value(t) {
        None => Err(Breach::Breaks(Rule::NotAssignable)),
        Some(to) => {
            let to = owned(alloc, to)?;
            assigned(alloc, target, &to, x)
        }
    }
}

/// The expression of an operand.
fn value_of(x: Operand) -> Expr
    ensures { result ≡ x.value }
{
    let Operand { value, .. } = x;
    value.into_inner()
}

/// Each argument as it is assigned to its parameter (C99 6.5.2.2, 2 and 4).
#[tactic(auto, using(crate::proofs::Arguments::of_arguments))]
fn passed(
    alloc: Global,
    target: &Target,
    params: &[CType],
    args: List<Operand>,
) -> Result<List<Expr>, Breach>
    ensures { Judges (λ es. es) result (passed_of target.now params.now (map operand_view args)) }
{
    let mut values = Vec::new(alloc);
    let mut xs = args.into_vec().into_iter();
    for t in params {
        let Some(x) = xs.next() else {
            return Err(Breach::Breaks(Rule::ArgumentCount));
        };
        let y = passed_to(alloc, target, t, x)?;
        values.push(value_of(y))?;
    }
    if xs.next().is_some() {
        return Err(Breach::Breaks(Rule::ArgumentCount));
    }
    Ok(List::of(values))
}

/// What a call gives of a function of such a result.
fn result_of(alloc: Global, call: Boxed<Expr>, ctype: &CType) -> Result<Operand, Breach>
    ensures { Judges operand_view result (result_of_type call (result_value_of ctype.now)) }
{
    match result_value(ctype) {
        None => Err(Breach::Breaks(Rule::Callee)),
        Some(t) => {
            let t = owned(alloc, t)?;
            Ok(typed(call, t))
        }
    }
}

fn called_by(
    alloc: Global,
    target: &Target,
    f: Operand,
    args: List<Operand>,
) -> Result<Operand, Breach>
    ensures { Judges operand_view result (called_by_of target.now f.value (type_view f.ctype) (map operand_view args)) }
{
    let Operand { value, ctype, .. } = f;
    let OperandType::ToFunction(sig) = ctype else {
        return Err(Breach::Breaks(Rule::Callee));
    };
    let args = passed(alloc, target, sig.get().params.all(), args)?;
    let call = Boxed::new(alloc, Expr::Call(value, args))?;
    result_of(alloc, call, &sig.get().result)
}

/// `f(a, ..)` (C99 6.5.2.2).
pub fn called(
    alloc: Global,
    target: &Target,
    f: Operand,
    args: List<Operand>,
) -> Result<Operand, Breach>
    ensures { Judges operand_view result (called_of target.now (operand_view f) (map operand_view args)) }
{
    if f.is_void() {
        return Err(Breach::Breaks(Rule::VoidUsed));
    }
    called_by(alloc, target, f, args)
}

fn plain(shape: Shape) -> CType
    ensures { result ≡ plain_of shape }
{
    CType {
        constant: false,
        volatile: false,
        shape,
    }
}

fn byte_type() -> CType
    ensures { result ≡ byte_type_of }
{
    plain(Shape::Int(IntType::UChar))
}

/// The prototype of an intrinsic: what `Save` gives, `Restore` takes.
fn intrinsic_signature(alloc: Global, i: Intr) -> Result<Sig, NoMemory>
    ensures { IfOk result (λ sig. sig ≡ intrinsic_signature_of i) }
{
    let mut params = Vec::new(alloc);
    let result = match i {
        Intr::Off => plain(Shape::Void),
        Intr::On => plain(Shape::Void),
        Intr::Save => byte_type(),
        Intr::Restore => {
            params.push(byte_type())?;
            plain(Shape::Void)
        }
    };
    Ok(Sig {
        result,
        params: List::of(params),
    })
}

fn first_or_none(alloc: Global, args: List<Expr>) -> Result<Option<Boxed<Expr>>, NoMemory>
    ensures { IfOk result (λ e. e ≡ first_or_none_of args) }
{
    match args.into_vec().into_iter().next() {
        None => Ok(None),
        Some(e) => Ok(Some(Boxed::new(alloc, e)?)),
    }
}

/// A call of an intrinsic.
pub fn intrinsic(
    alloc: Global,
    target: &Target,
    i: Intr,
    args: List<Operand>,
) -> Result<Operand, Breach>
    ensures { Judges operand_view result (intrinsic_of target.now i (map operand_view args)) }
{
    let sig = intrinsic_signature(alloc, i)?;
    let args = passed(alloc, target, sig.params.all(), args)?;
    let first = first_or_none(alloc, args)?;
    let call = Boxed::new(alloc, Expr::Intr(i, first))?;
    result_of(alloc, call, &sig.result)
}
