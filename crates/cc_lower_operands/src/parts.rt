//! What is made of operands that are lowered already.

ghost use Rattle.std.specs.Prelude.{◌≡◌, ◌++◌, ◌∷◌, [], pos, length, IfOk, OnOk, option_map, Some};
ghost use Rattle.cc_registers.specs.Kept.{AreKept};
ghost use Rattle.cc_lower_accesses.specs.Modes.{as_locals, callee_of};
ghost use Rattle.cc_lower_expressions.specs.Expressions.{temp, is_void_value, set as set_of, truth_of as truth_of_of};
ghost use Rattle.cc_lower_expressions.specs.Temporaries.{declared_type, is_same_type};
ghost use Rattle.cc_lower_operands.specs.Branches.{alone_of};
ghost use Rattle.cc_eval.specs.CcSyntax.Programs.{type_of as type_of_of};
ghost use Rattle.cc_eval.specs.CcSyntax.Sizes.{AreSized};
ghost use Rattle.cc_eval.specs.CcTyped.View.{value_view};

use cc_eval::typed::ValueType;
use cc_lower_accesses::{Body, assign, load, set};
use cc_program::num::{Boxed, IntType, List, Name, NoMemory};
use cc_program::{CType, Expr, Intr, Place, Stmt};

/// Whether a value is none (C99 6.2.5, 19).
pub(crate) fn is_void(t: Option<ValueType>) -> bool
    ensures { result ≡ is_void_value (option_map value_view t.entry) }
{
    match t {
        Some(ValueType::NoValue) => true,
        _ => false,
    }
}

pub(crate) fn boxed(body: Body<'_>, e: Expr) -> Result<Boxed<Expr>, NoMemory>
    ensures { IfOk result (λ b. b ≡ e) }
{
    Boxed::new(body.alloc, e)
}

pub(crate) fn boxed_place(body: Body<'_>, a: Place) -> Result<Boxed<Place>, NoMemory>
    ensures { IfOk result (λ b. b ≡ a) }
{
    Boxed::new(body.alloc, a)
}

/// The address of a place.
pub(crate) fn address(body: Body<'_>, b: Place) -> Result<Expr, NoMemory>
    ensures { IfOk result (λ v. v ≡ Expr.AddrOf b) }
{
    Ok(Expr::AddrOf(boxed_place(body, b)?))
}

/// An element of an array.
pub(crate) fn element(body: Body<'_>, b: Place, x: Expr) -> Result<Place, NoMemory>
    ensures { IfOk result (λ v. v ≡ Place.Element b x) }
{
    Ok(Place::Element(boxed_place(body, b)?, boxed(body, x)?))
}

/// A member of a structure.
pub(crate) fn member(body: Body<'_>, b: Place, m: u32) -> Result<Place, NoMemory>
    ensures { IfOk result (λ v. v ≡ Place.Member b m) }
{
    Ok(Place::Member(boxed_place(body, b)?, m))
}

/// What a pointer points to.
pub(crate) fn pointed_to(body: Body<'_>, x: Expr) -> Result<Place, NoMemory>
    ensures { IfOk result (λ v. v ≡ Place.Deref x) }
{
    Ok(Place::Deref(boxed(body, x)?))
}

/// An intrinsic with its operand.
pub(crate) fn with_operand(body: Body<'_>, i: Intr, x: Expr) -> Result<Expr, NoMemory>
    ensures { IfOk result (λ v. v ≡ Expr.Intr i (Some x)) }
{
    Ok(Expr::Intr(i, Some(boxed(body, x)?)))
}

/// A call, once its callee and its arguments are lowered.
#[tactic(auto, using(cc_lower_accesses::proofs::AccessRules::locals_rules))]
pub(crate) fn called<'p>(
    body: Body<'p>,
    g: &'p Expr,
    callee: Boxed<Expr>,
    values: Vec<Expr>,
    locals: &mut Vec<(Name, CType)>,
    out: &mut Vec<Stmt>,
) -> Result<Expr, NoMemory>
    requires sized { AreSized body.program.now.structures body.program.now.target }
    requires kept { AreKept body.func.now body.registers.now }
    ensures value { IfOk result (λ v. v ≡ Expr.Call (callee_of body.entry.program.now body.entry.func.now (type_of_of body.entry.program.now body.entry.func.now.locals g.now) callee (length locals.old.items)).value values.items) }
    ensures locals { OnOk result (locals.new.items ≡ locals.old.items ++ as_locals (callee_of body.entry.program.now body.entry.func.now (type_of_of body.entry.program.now body.entry.func.now.locals g.now) callee (length locals.old.items)).temps) }
    ensures statements { OnOk result (out.new.items ≡ out.old.items ++ (callee_of body.entry.program.now body.entry.func.now (type_of_of body.entry.program.now body.entry.func.now.locals g.now) callee (length locals.old.items)).stmts) }
{
    let callee = body.named_callee(g, callee.into_inner(), locals, out)?;
    Ok(Expr::Call(boxed(body, callee)?, List::of(values)))
}

/// A right side as an expression statement, behind other statements.
pub(crate) fn put_right(body: Body<'_>, x: Expr, out: &mut Vec<Stmt>) -> Result<(), NoMemory>
    ensures { OnOk result (out.new.items ≡ out.old.items ++ Stmt.Do x ∷ []) }
{
    Ok(out.push(Stmt::Do(boxed(body, x)?))?)
}

/// The assignment of a local to a place, behind other statements, and its value.
pub(crate) fn put_value(
    body: Body<'_>,
    b: Boxed<Place>,
    local: u32,
    out: &mut Vec<Stmt>,
) -> Result<Expr, NoMemory>
    ensures value { IfOk result (λ v. v ≡ temp local) }
    ensures statements { OnOk result (out.new.items ≡ out.old.items ++ Stmt.Do (Expr.Assign b (temp local)) ∷ []) }
{
    let value = load(body.alloc, local)?;
    assign(body.alloc, b.into_inner(), value, out)?;
    load(body.alloc, local)
}

/// The value of a branch, which nobody uses: one that is pure is as other operands.
#[tactic(auto, using(cc_lower_accesses::proofs::AccessRules::locals_rules))]
pub(crate) fn branch_alone(
    body: Body<'_>,
    is_pure: bool,
    t: Option<ValueType>,
    x: Expr,
    locals: &mut Vec<(Name, CType)>,
    out: &mut Vec<Stmt>,
) -> Result<(), NoMemory>
    ensures locals { OnOk result (locals.new.items ≡ locals.old.items ++ as_locals (alone_of is_pure (option_map value_view t.entry) x (length locals.old.items)).temps) }
    ensures statements { OnOk result (out.new.items ≡ out.old.items ++ (alone_of is_pure (option_map value_view t.entry) x (length locals.old.items)).stmts) }
{
    if is_pure {
        return body.unused(t, x, locals, out);
    }
    Ok(())
}

/// The arm that sets a register to the truth of an operand, behind the statements of the operand.
pub(crate) fn settled_by<'p>(
    body: Body<'p>,
    b: &'p Expr,
    y: Expr,
    register: u32,
    ahead: Vec<Stmt>,
) -> Result<List<Stmt>, NoMemory>
    requires { AreSized body.program.now.structures body.program.now.target }
    ensures { IfOk result (λ s. s ≡ ahead.items ++ set_of register (truth_of_of body.entry.program.now body.entry.func.now declared_type is_same_type (type_of_of body.entry.program.now body.entry.func.now.locals b.now) y) ∷ []) }
{
    let mut out = ahead;
    let y = body.truth_of(body.type_of(b), y)?;
    set(body.alloc, register, y, &mut out)?;
    Ok(List::of(out))
}

/// An `if` behind other statements.
pub(crate) fn put_if(
    x: Boxed<Expr>,
    these: List<Stmt>,
    those: List<Stmt>,
    out: &mut Vec<Stmt>,
) -> Result<(), NoMemory>
    ensures { OnOk result (out.new.items ≡ out.old.items ++ Stmt.If x these those ∷ []) }
{
    Ok(out.push(Stmt::If(x, these, those))?)
}

/// The value of an `&&`: 0, or what the arm sets the register to.
pub(crate) fn both(
    body: Body<'_>,
    x: Boxed<Expr>,
    register: u32,
    arm: List<Stmt>,
    out: &mut Vec<Stmt>,
) -> Result<Expr, NoMemory>
    ensures value { IfOk result (λ v. v ≡ temp register) }
    ensures statements { OnOk result (out.new.items ≡ out.old.items ++ Stmt.If x arm (set_of register (Expr.Const (pos 0) IntType.Int) ∷ []) ∷ []) }
{
    let settled = body.settled(0, register)?;
    put_if(x, arm, settled, out)?;
    load(body.alloc, register)
}

/// The value of an `||`: 1, or what the arm sets the register to.
pub(crate) fn either(
    body: Body<'_>,
    x: Boxed<Expr>,
    register: u32,
    arm: List<Stmt>,
    out: &mut Vec<Stmt>,
) -> Result<Expr, NoMemory>
    ensures value { IfOk result (λ v. v ≡ temp register) }
    ensures statements { OnOk result (out.new.items ≡ out.old.items ++ Stmt.If x (set_of register (Expr.Const (pos 1) IntType.Int) ∷ []) arm ∷ []) }
{
    let settled = body.settled(1, register)?;
    put_if(x, settled, arm, out)?;
    load(body.alloc, register)
}

/// The value of a `?:`, which both arms set the register to.
pub(crate) fn chosen(
    body: Body<'_>,
    x: Boxed<Expr>,
    register: u32,
    these: Vec<Stmt>,
    those: Vec<Stmt>,
    out: &mut Vec<Stmt>,
) -> Result<Expr, NoMemory>
    ensures value { IfOk result (λ v. v ≡ temp register) }
    ensures statements { OnOk result (out.new.items ≡ out.old.items ++ Stmt.If x these.items those.items ∷ []) }
{
    put_if(x, List::of(these), List::of(those), out)?;
    load(body.alloc, register)
}
