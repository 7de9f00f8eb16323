//! What a scalar of an object is given at first (C99 6.7.8).

ghost use Rattle.std.specs.Prelude.{◌≡◌, IfOk, slice_get};
ghost use Rattle.std.specs.Option.{option_copied};
ghost use Rattle.cc_objects.specs.Values.{zero_leaf as zero_leaf_of, zero_expr as zero_expr_of, no_leaf as no_leaf_of, no_expr as no_expr_of, object_of as object_of_declared, objects_in, leaf_given as leaf_given_of, expr_given as expr_given_of, assignments as assignments_of};
ghost use Rattle.cc_typed_terms.specs.CcOperands.Verdicts.{Judges};
ghost use Rattle.cc_typed_terms.specs.CcOperands.View.{operand_view, type_view};
ghost use Rattle.cc_typed_terms.specs.CcScopes.View.{state_of};

use cc_initial::{Statics, leaf_of};
use cc_program::num::{Boxed, List, NoMemory, Target, at};
use cc_syntax::{Address, CType, Expr, Leaf, Place};
use cc_typed_terms::operands::{Breach, Operand, OperandType, Rule, assigned, null_of};
use cc_typed_terms::scopes::{Declared, State, UnitKind};
use std::alloc::Global;

fn zero_leaf(t: &OperandType) -> Leaf
    ensures { result ≡ zero_leaf_of (type_view t.now) }
{
    match t {
        OperandType::Integer(_) => Leaf::Int(0),
        _ => Leaf::Place(Address::Null),
    }
}

fn zero_expr(alloc: Global, t: &OperandType) -> Result<Expr, NoMemory>
    ensures { IfOk result (λ e. e ≡ zero_expr_of (type_view t.now)) }
{
    match t {
        OperandType::Integer(i) => Ok(Expr::Const(0, *i)),
        _ => Ok(null_of(alloc, t)?.into_inner()),
    }
}

/// The first value of a scalar of a static object that is given nothing (C99 6.7.8, 10).
pub fn no_leaf(constant: bool, t: &OperandType) -> Result<Leaf, Breach>
    ensures { Judges (λ l. l) result (no_leaf_of constant (type_view t.now)) }
{
    Ok(zero_leaf(t))
}

/// What a scalar of an automatic object is assigned that is given nothing: a const one is not written.
pub fn no_expr(alloc: Global, constant: bool, t: &OperandType) -> Result<Expr, Breach>
    ensures { Judges (λ e. e) result (no_expr_of constant (type_view t.now)) }
{
    if constant {
        Err(Breach::Breaks(Rule::NotModifiable))
    } else {
        Ok(zero_expr(alloc, t)?)
    }
}

fn object_of(d: Option<&Declared>) -> Option<&CType>
    ensures { option_copied result ≡ object_of_declared (option_copied d.entry) }
{
    match d {
        None => None,
        Some(d) => match &d.kind {
            UnitKind::Object(_) => Some(&d.ctype),
            UnitKind::Device(_) => None,
            UnitKind::Func(_, _) => None,
        },
    }
}

/// The static objects that are known.
#[derive(Clone, Copy)]
struct Objects<'s>(&'s State);

impl<'s> Statics for Objects<'s> {
    ghost use Rattle.cc_objects.specs.Values.{objects_in};
    ghost use Rattle.cc_typed_terms.specs.CcScopes.View.{state_of};

    ghost types = { λ o i. objects_in (state_of o.0.now) i };

    fn object_type(&self, id: u32) -> Option<&CType> {
        object_of(at(self.0.names(), id as usize))
    }
}

/// The first value of a scalar of a static object that is given an operand.
pub fn leaf_given(
    alloc: Global,
    target: &Target,
    constant: bool,
    t: &OperandType,
    x: Operand,
    state: &State,
) -> Result<Leaf, Breach>
    ensures { Judges (λ l. l) result (leaf_given_of target.now constant (type_view t.now) (operand_view x) (state_of state.now)) }
{
    let y = assigned(alloc, target, t, x)?;
    leaf_of(alloc, state.structures(), &Objects(state), &y)
}

/// What a scalar of an automatic object is assigned that is given an operand.
pub fn expr_given(
    alloc: Global,
    target: &Target,
    constant: bool,
    t: &OperandType,
    x: Operand,
    state: &State,
) -> Result<Expr, Breach>
    ensures { Judges (λ e. e) result (expr_given_of target.now constant (type_view t.now) (operand_view x) (state_of state.now)) }
{
    if constant {
        return Err(Breach::Breaks(Rule::NotModifiable));
    }
    let y = assigned(alloc, target, t, x)?;
    Ok(y.value.into_inner())
}

/// The scalars of an automatic object are assigned what they are given.
pub fn assignments(
    alloc: Global,
    places: &[Place],
    values: Vec<Expr>,
) -> Result<List<Expr>, NoMemory>
    ensures { IfOk result (λ es. es ≡ assignments_of places.now values.items) }
{
    let mut es = Vec::new(alloc);
    let mut values = values.into_iter();
    for a in places {
        let Some(e) = values.next() else {
            return Ok(List::of(es));
        };
        let e = Boxed::new(alloc, e)?;
        let place = Boxed::new(alloc, a.copy(alloc)?)?;
        es.push(Expr::Assign(place, e))?;
    }
    Ok(List::of(es))
}
