//! Members of structures (C99 6.5.2.3).

ghost use Rattle.std.specs.Prelude.{◌≡◌, position};
ghost use Rattle.std.specs.Option.{option_copied};
ghost use Rattle.std.specs.Str.{bytes_eq};
ghost use Rattle.cc_designators.specs.Postfix.{position_in as position_in_of, position_of as position_of_of, member_at as member_at_of, member_in as member_in_of, dot as dot_of, arrow as arrow_of};
ghost use Rattle.cc_designators.specs.View.{designated_view, expr_view};
ghost use Rattle.cc_operands.specs.Verdicts.{Judges};
ghost use Rattle.cc_operands.specs.View.{operand_view};

use crate::designated::{DesignatedType, TypedExpr, placed, pointed_to};
use cc_operands::syntax::{CType, Place, Shape, Structure};
use cc_operands::{Breach, Operand, Rule};
use cc_program::num::{Boxed, Name, at};
use std::alloc::Global;

fn same(name: &[u8], other: &[u8]) -> bool
    ensures { result ≡ bytes_eq name.now other.now }
{
    name == other
}

/// The position of the first member with the name.
fn position_named(name: &[u8], members: &[(Name, CType)]) -> Option<usize>
    ensures { result ≡ position (λ m. bytes_eq name.now m.0) members.now }
{
    members.iter().position(|m| same(name, m.0.all()))
}

fn position_in(name: &[u8], structure: Option<&Structure>) -> Option<usize>
    ensures { result ≡ position_in_of name.now (option_copied structure.entry) }
{
    match structure {
        None => None,
        Some(s) => position_named(name, s.members.all()),
    }
}

/// The position of the member with the name in the structure that a place holds.
pub fn position_of(structures: &[Structure], name: &[u8], t: &DesignatedType) -> Option<usize>
    ensures { result ≡ position_of_of structures.now name.now (designated_view t.now) }
{
    match t {
        DesignatedType::Object(_, _, t) => match &t.get().shape {
            Shape::Struct(id) => position_in(name, at(structures, *id as usize)),
            _ => None,
        },
        DesignatedType::Device(_, _) => None,
        DesignatedType::Function(_) => None,
    }
}

/// The member at a position of the structure that a place holds.
fn member_at(
    alloc: Global,
    structures: &[Structure],
    broken: Rule,
    place: Boxed<Place>,
    t: &DesignatedType,
    position: Option<usize>,
) -> Result<TypedExpr, Breach>
    ensures { Judges expr_view result (member_at_of structures.now broken place (designated_view t.now) position) }
{
    let Some(position) = position else {
        return Err(Breach::Breaks(broken));
    };
    let Ok(member) = u32::try_from(position) else {
        return Err(Breach::NoMemory);
    };
    match t.member(alloc, structures, member)? {
        None => Err(Breach::Breaks(broken)),
        Some(t) => Ok(placed(alloc, Place::Member(place, member), t)?),
    }
}

/// The member with the name; the rule that is broken where there is none.
fn member_in(
    alloc: Global,
    structures: &[Structure],
    broken: Rule,
    name: &[u8],
    place: Boxed<Place>,
    t: &DesignatedType,
) -> Result<TypedExpr, Breach>
    ensures { Judges expr_view result (member_in_of structures.now broken name.now place (designated_view t.now)) }
{
    let position = position_of(structures, name, t);
    member_at(alloc, structures, broken, place, t, position)
}

/// `a.m` (C99 6.5.2.3, 1). A structure of so many members that no `u32` counts them is as want of memory.
pub fn dot(
    alloc: Global,
    structures: &[Structure],
    name: &[u8],
    a: TypedExpr,
) -> Result<TypedExpr, Breach>
    ensures { Judges expr_view result (dot_of structures.now name.now (expr_view a)) }
{
    match a {
        TypedExpr::Place(place, t) => {
            member_in(alloc, structures, Rule::Member, name, place, t.get())
        }
        TypedExpr::Value(x) => {
            if x.get().is_void() {
                Err(Breach::Breaks(Rule::VoidUsed))
            } else {
                Err(Breach::Breaks(Rule::Member))
            }
        }
        TypedExpr::Function(_, _) => Err(Breach::Breaks(Rule::Member)),
        TypedExpr::Intrinsic(_, _) => Err(Breach::Breaks(Rule::Member)),
        TypedExpr::Address(_, _, _) => Err(Breach::Breaks(Rule::Member)),
    }
}

/// `p->m` (C99 6.5.2.3, 2).
pub fn arrow(
    alloc: Global,
    structures: &[Structure],
    name: &[u8],
    p: Operand,
) -> Result<TypedExpr, Breach>
    ensures { Judges expr_view result (arrow_of structures.now name.now (operand_view p)) }
{
    if p.is_void() {
        return Err(Breach::Breaks(Rule::VoidUsed));
    }
    match pointed_to(p.ctype) {
        None => Err(Breach::Breaks(Rule::Arrow)),
        Some(t) => {
            let place = Boxed::new(alloc, Place::Deref(p.value))?;
            member_in(alloc, structures, Rule::Arrow, name, place, &t)
        }
    }
}
