//! Address constants (C99 6.6, 9), and the first values of static objects (6.7.8, 4).

ghost use Rattle.std.specs.Prelude.{◌≡◌, IfOk};
ghost use Rattle.cc_initial.specs.Addresses.{constant_expression, place_located as place_located_of, located as located_of, address_leaf as address_leaf_of, integer_leaf as integer_leaf_of, leaf_of as leaf_of_operand};
ghost use Rattle.cc_initial.specs.View.{located_view};
ghost use Rattle.cc_operands.specs.Verdicts.{Judges};
ghost use Rattle.cc_operands.specs.View.{operand_view, constant_view};

use crate::spot::{Located, whole_object};
use crate::statics::Statics;
use cc_operands::syntax::{Address, Expr, Leaf, Place, Root, Structure};
use cc_operands::{Breach, Constant, Operand, OperandType, Rule};
use cc_program::num::NoMemory;
use std::alloc::Global;

/// The number that a constant is.
#[tactic(auto, unfolding(crate::specs::Addresses::constant_expression))]
fn number<N: Statics>(structures: &[Structure], statics: &N, e: &Expr) -> Option<i128>
    ensures { result ≡ (constant_expression structures.now (N.types statics.now) e.now).number }
{
    match e {
        Expr::Const(n, _) => Some(*n),
        _ => None,
    }
}

/// What an expression points to as an address constant.
#[cycle(located)]
#[tactic(auto, unfolding(crate::specs::Addresses::constant_expression, crate::specs::Addresses::place_located))]
fn located<'p, N: Statics>(
    alloc: Global,
    structures: &'p [Structure],
    statics: &'p N,
    e: &Expr,
) -> Result<Located<'p>, NoMemory>
    ensures { IfOk result (λ l. located_view l ≡ located_of structures.now (N.types statics.now) e.now) }
{
    match e {
        Expr::Null(_) => Ok(Located::Null),
        Expr::FuncAddr(f) => Ok(Located::Function(*f)),
        Expr::AddrOf(a) => place_located(alloc, structures, statics, a.get()),
        Expr::Qualify(_, a) => located(alloc, structures, statics, a.get()),
        Expr::Move(a, b, back) => {
            let from = located(alloc, structures, statics, a.get())?;
            Ok(from.moved(*back, number(structures, statics, b.get())))
        }
        _ => Ok(Located::NotConstant),
    }
}

/// Where a place lies that an address constant designates.
#[cycle(located)]
#[tactic(auto, unfolding(crate::specs::Addresses::constant_expression, crate::specs::Addresses::place_located))]
fn place_located<'p, N: Statics>(
    alloc: Global,
    structures: &'p [Structure],
    statics: &'p N,
    a: &Place,
) -> Result<Located<'p>, NoMemory>
    ensures { IfOk result (λ l. located_view l ≡ place_located_of structures.now (N.types statics.now) a.now) }
{
    match a {
        Place::Static(i) => Ok(whole_object(alloc, *i, statics.object_type(*i))),
        Place::Element(a, i) => {
            let array = place_located(alloc, structures, statics, a.get())?;
            array.element_at(number(structures, statics, i.get()))
        }
        Place::Member(a, m) => {
            let structure = place_located(alloc, structures, statics, a.get())?;
            structure.member_at(structures, *m)
        }
        Place::Deref(e) => located(alloc, structures, statics, e.get()),
        Place::Local(_) => Ok(Located::NotConstant),
        Place::Device(_) => Ok(Located::NotConstant),
    }
}

fn address_leaf(a: Located) -> Result<Leaf, Breach>
    ensures { Judges (λ l. l) result (address_leaf_of (located_view a.entry)) }
{
    match a {
        Located::NotConstant => Err(Breach::Breaks(Rule::StaticInitialiser)),
        Located::Trapping => Err(Breach::Breaks(Rule::ConstantTraps)),
        Located::Null => Ok(Leaf::Place(Address::Null)),
        Located::Function(f) => Ok(Leaf::Place(Address::Func(f))),
        Located::Spot(spot) => Ok(Leaf::Place(Address::At {
            object: Root::Static(spot.object),
            path: spot.path,
            index: spot.index,
            count: spot.count,
        })),
    }
}

fn integer_leaf(constant: Constant) -> Result<Leaf, Breach>
    ensures { Judges (λ l. l) result (integer_leaf_of (constant_view constant)) }
{
    match constant {
        Constant::NoConstant => Err(Breach::Breaks(Rule::StaticInitialiser)),
        Constant::Value(n) => Ok(Leaf::Int(n)),
        Constant::Traps => Err(Breach::Breaks(Rule::ConstantTraps)),
    }
}

/// The first value of a scalar of a static object that is given an operand of its type.
pub fn leaf_of<N: Statics>(
    alloc: Global,
    structures: &[Structure],
    statics: &N,
    x: &Operand,
) -> Result<Leaf, Breach>
    ensures { Judges (λ l. l) result (leaf_of_operand structures.now (N.types statics.now) (operand_view x.now)) }
{
    match &x.ctype {
        OperandType::Integer(_) => integer_leaf(x.constancy()),
        OperandType::NoValue => Err(Breach::Breaks(Rule::StaticInitialiser)),
        _ => address_leaf(located(alloc, structures, statics, x.value.get())?),
    }
}
