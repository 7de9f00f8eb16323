//! New temporaries: locals behind those that there are, without names.

ghost use Rattle.std.specs.Prelude.{◌≡◌, ◌++◌, ◌∷◌, [], length, IfOk, OnOk, option_map};
ghost use Rattle.cc_lower_expressions.specs.Expressions.{temp, set as set_of};
ghost use Rattle.cc_lower_accesses.specs.Modes.{as_locals};
ghost use Rattle.cc_lower_expressions.specs.Temporaries.{declared_type as declared_type_of, is_same_type as is_same_type_of, is_same_value as is_same_value_of};
ghost use Rattle.cc_operands.specs.Qualified.{plain as plain_of, type_of_value};
ghost use Rattle.cc_eval.specs.CcTyped.View.{value_view};
ghost use Rattle.cc_program.specs.declared.types.Shape.{Pointer as PointerTo, Func as FuncShape};

use cc_eval::typed::{ValueType, alike, same_flag, same_int};
use cc_operands::qualified_as;
use cc_program::num::{Boxed, IntType, List, Name, NoMemory};
use cc_program::{CType, Expr, Place, Shape, Sig, Stmt};
use std::alloc::Global;

fn plain(shape: Shape) -> CType
    ensures { result ≡ plain_of shape }
{
    CType {
        constant: false,
        volatile: false,
        shape,
    }
}

fn function_pointer(alloc: Global, sig: &Sig) -> Result<CType, NoMemory>
    ensures { IfOk result (λ t. t ≡ plain_of (PointerTo (plain_of (FuncShape sig.now)))) }
{
    let sig = Boxed::new(alloc, sig.copy(alloc)?)?;
    Ok(plain(Shape::Pointer(Boxed::new(alloc, plain(Shape::Func(sig)))?)))
}

/// The type that a temporary is declared with.
pub fn declared_type(alloc: Global, t: Option<ValueType>) -> Result<CType, NoMemory>
    ensures { IfOk result (λ r. r ≡ declared_type_of (option_map value_view t.entry)) }
{
    match t {
        None | Some(ValueType::NoValue) => Ok(plain(Shape::Int(IntType::Int))),
        Some(ValueType::Integer(i)) => Ok(plain(Shape::Int(i))),
        Some(ValueType::ToObject(constant, volatile, to)) => {
            let to = qualified_as(alloc, constant, volatile, to)?;
            Ok(plain(Shape::Pointer(Boxed::new(alloc, to)?)))
        }
        Some(ValueType::ToFunction(sig)) => function_pointer(alloc, sig),
    }
}

/// Whether two values are of one type.
pub(crate) fn is_same_type(a: Option<ValueType>, b: Option<ValueType>) -> bool
    ensures { result ≡ is_same_type_of (option_map value_view a.entry) (option_map value_view b.entry) }
{
    match (a, b) {
        (None, None) => true,
        (Some(a), Some(b)) => is_same_value(a, b),
        _ => false,
    }
}

fn is_same_value(a: ValueType, b: ValueType) -> bool
    ensures { result ≡ is_same_value_of (value_view a.entry) (value_view b.entry) }
{
    match (a, b) {
        (ValueType::NoValue, ValueType::NoValue) => true,
        (ValueType::Integer(s), ValueType::Integer(t)) => same_int(s, t),
        (
            ValueType::ToObject(constant, volatile, t),
            ValueType::ToObject(other_constant, other_volatile, u),
        ) => same_flag(constant, other_constant)
            && same_flag(volatile, other_volatile)
            && alike(t, u),
        (ValueType::ToFunction(_), ValueType::ToFunction(_)) => a.points_alike(b),
        _ => false,
    }
}

/// A new temporary.
#[tactic(auto, unfolding(crate::specs::Modes::as_locals))]
pub fn fresh(
    alloc: Global,
    t: Option<ValueType>,
    locals: &mut Vec<(Name, CType)>,
) -> Result<u32, NoMemory>
    ensures number { IfOk result (λ n. n ≡ length locals.old.items) }
    ensures locals { OnOk result (locals.new.items ≡ locals.old.items ++ as_locals (option_map value_view t.entry ∷ [])) }
{
    let n = u32::try_from(locals.len()).ok().ok_or(NoMemory)?;
    let ctype = declared_type(alloc, t)?;
    locals.push((List::of(Vec::new(alloc)), ctype))?;
    Ok(n)
}

/// The value of a local.
pub fn load(alloc: Global, local: u32) -> Result<Expr, NoMemory>
    ensures { IfOk result (λ e. e ≡ temp local) }
{
    Ok(Expr::Load(Boxed::new(alloc, Place::Local(local))?))
}

/// The assignment of a value to a place, behind other statements.
pub fn assign(alloc: Global, a: Place, e: Expr, out: &mut Vec<Stmt>) -> Result<(), NoMemory>
    ensures { OnOk result (out.new.items ≡ out.old.items ++ Stmt.Do (Expr.Assign a e) ∷ []) }
{
    let a = Boxed::new(alloc, a)?;
    let e = Boxed::new(alloc, e)?;
    let s = Stmt::Do(Boxed::new(alloc, Expr::Assign(a, e))?);
    Ok(out.push(s)?)
}

/// The assignment of a value to a local, behind other statements.
pub fn set(alloc: Global, local: u32, e: Expr, out: &mut Vec<Stmt>) -> Result<(), NoMemory>
    ensures { OnOk result (out.new.items ≡ out.old.items ++ set_of local e ∷ []) }
{
    assign(alloc, Place::Local(local), e, out)
}

/// A right side goes to a new temporary.
pub fn into(
    alloc: Global,
    t: Option<ValueType>,
    e: Expr,
    locals: &mut Vec<(Name, CType)>,
    out: &mut Vec<Stmt>,
) -> Result<Expr, NoMemory>
    ensures value { IfOk result (λ v. v ≡ temp (length locals.old.items)) }
    ensures locals { OnOk result (locals.new.items ≡ locals.old.items ++ as_locals (option_map value_view t.entry ∷ [])) }
    ensures statements { OnOk result (out.new.items ≡ out.old.items ++ set_of (length locals.old.items) e ∷ []) }
{
    let n = fresh(alloc, t, locals)?;
    set(alloc, n, e, out)?;
    load(alloc, n)
}
