//! What a pure expression may give, and the addresses of a place (C99 6.5).

ghost use Rattle.std.specs.Prelude.{◌≡◌, option_map, IfOk};
ghost use Rattle.cc_state_operators.specs.CcLattice.Domains.{IsIntValue};
ghost use Rattle.cc_program.specs.declared.expr.Expr.TheOpen as layer;
ghost use Rattle.cc_state_operators.specs.CcSyntax.Programs.{type_of, place_type as place_type_of};
ghost use Rattle.cc_state_operators.specs.CcSyntax.Sizes.{AreSized};
ghost use Rattle.cc_state_operators.specs.CcSyntax.Values.{ValueType};
ghost use Rattle.cc_state_operators.specs.CcTyped.View.{place_view};
ghost use Rattle.cc_state_values.specs.Contexts.{HaveSetsIn, IsPureIn, IsPurePlaceIn, IsValIn, DesignatesIn, IsKnownIn, ArePointersIn, IsPureAs, IsPurePlaceAs, IsKnownAs, DesignatesAs, IsConstant, IsOneAddress};
ghost use Rattle.cc_state_operators.specs.Domains.{domain};
ghost use Rattle.cc_state_values.specs.Layers.{of_one as one_layer, of_two as two_layer};
ghost use Rattle.cc_state_operators.specs.Types.{AreOf};

use crate::context::{Context, set_at};
use cc_program::num::NoMemory;
use cc_program::{Address, Expr, Place, Root};
use cc_state_operators::lattice::{IntDomain, copied};
use cc_state_operators::places_crate::{Abs, Addrs};
use cc_state_operators::typed::{PlaceType, Scope};
use cc_state_operators::{
    OneOperand, TwoOperands, chosen, elements, integers, members, object, only, result_of_one,
    result_of_two,
};
use std::alloc::Global;

/// What a pure expression may give, where the registers of its function hold values of these sets.
pub fn value_of<I: IntDomain>(
    alloc: Global,
    c: &Context<'_, I>,
    e: &Expr,
) -> Result<Abs<I>, NoMemory>
    requires sized { AreSized c.now.program.now.structures c.now.program.now.target }
    requires sets { HaveSetsIn (domain I.Has I.IsBelow I.OpGives I.OpOneGives I.ToGives I.KeepGives I.members_of) c.now }
    requires pure { IsPureIn (domain I.Has I.IsBelow I.OpGives I.OpOneGives I.ToGives I.KeepGives I.members_of) c.now e.now }
    ensures value { IfOk result (λ y. IsValIn (domain I.Has I.IsBelow I.OpGives I.OpOneGives I.ToGives I.KeepGives I.members_of) c.now e.now y) }
    ensures typed { IfOk result (λ y. (t : ValueType) → type_of c.now.program.now c.now.func.now.locals e.now ≡ Some t → AreOf (domain I.Has I.IsBelow I.OpGives I.OpOneGives I.ToGives I.KeepGives I.members_of) c.now.program.now.target t y) }
{
    known(alloc, c, e)
}

/// The addresses of a place, the operands in which are pure.
pub fn addresses_of<I: IntDomain>(
    alloc: Global,
    c: &Context<'_, I>,
    a: &Place,
) -> Result<Addrs, NoMemory>
    requires sized { AreSized c.now.program.now.structures c.now.program.now.target }
    requires sets { HaveSetsIn (domain I.Has I.IsBelow I.OpGives I.OpOneGives I.ToGives I.KeepGives I.members_of) c.now }
    requires pure { IsPurePlaceIn (domain I.Has I.IsBelow I.OpGives I.OpOneGives I.ToGives I.KeepGives I.members_of) c.now a.now }
    ensures { IfOk result (λ s. DesignatesIn (domain I.Has I.IsBelow I.OpGives I.OpOneGives I.ToGives I.KeepGives I.members_of) c.now a.now s) }
{
    designated(alloc, c, a)
}

/// What an expression may give, each a value of its type.
#[cycle(values)]
fn known<I: IntDomain>(alloc: Global, c: &Context<'_, I>, e: &Expr) -> Result<Abs<I>, NoMemory>
    requires sized { AreSized c.now.program.now.structures c.now.program.now.target }
    requires sets { HaveSetsIn (domain I.Has I.IsBelow I.OpGives I.OpOneGives I.ToGives I.KeepGives I.members_of) c.now }
    requires pure { IsPureIn (domain I.Has I.IsBelow I.OpGives I.OpOneGives I.ToGives I.KeepGives I.members_of) c.now e.now }
    ensures { IfOk result (λ y. IsKnownIn (domain I.Has I.IsBelow I.OpGives I.OpOneGives I.ToGives I.KeepGives I.members_of) c.now e.now y) }
{
    match e {
        Expr::Const(n, _) => Ok(constant(alloc, n)),
        Expr::Null(_) => one_address(alloc, &Address::Null),
        Expr::FuncAddr(g) => one_address(alloc, &Address::Func(*g)),
        Expr::Load(a) => register(alloc, c, a.get()),
        Expr::AddrOf(a) => pointers(alloc, c, a.get()),
        Expr::Un(op, t, a) => of_one(alloc, c, OneOperand::Operator(*op, *t), a.get()),
        Expr::Bin(op, t, a, b) => {
            of_two(alloc, c, TwoOperands::Operator(*op, *t), a.get(), b.get())
        }
        Expr::Conv(t, a) => of_one(alloc, c, OneOperand::Conversion(*t), a.get()),
        Expr::Qualify(_, a) => known(alloc, c, a.get()),
        Expr::Move(a, b, back) => {
            of_two(alloc, c, TwoOperands::Movement(*back), a.get(), b.get())
        }
        Expr::Gap(a, b) => of_two(alloc, c, TwoOperands::Difference, a.get(), b.get()),
        Expr::Compare(op, a, b) => {
            of_two(alloc, c, TwoOperands::Comparison(*op), a.get(), b.get())
        }
        Expr::Both(a, b) => of_two(alloc, c, TwoOperands::Both, a.get(), b.get()),
        Expr::Either(a, b) => of_two(alloc, c, TwoOperands::Either, a.get(), b.get()),
        Expr::Choose(d, a, b) => choice(alloc, c, d.get(), a.get(), b.get()),
        Expr::Assign(_, _) => unreachable!(),
        Expr::Change(_, _, _, _) => unreachable!(),
        Expr::After(_, _) => unreachable!(),
        Expr::Call(_, _) => unreachable!(),
        Expr::Intr(_, _) => unreachable!(),
        Expr::Seq(_, _) => unreachable!(),
    }
}

/// The set of one number.
fn constant<I: IntDomain>(alloc: Global, n: &i128) -> Abs<I>
    requires { IsIntValue n.now }
    ensures { IsConstant (domain I.Has I.IsBelow I.OpGives I.OpOneGives I.ToGives I.KeepGives I.members_of) n.now result }
{
    Abs::Ints(I::one(alloc, *n))
}

/// The set of one address, as what a pointer may be.
fn one_address<I>(alloc: Global, a: &Address) -> Result<Abs<I>, NoMemory>
    ensures { IfOk result (λ y. IsOneAddress a.now y) }
{
    Ok(Abs::Addrs(only(alloc, a)?))
}

/// The pointers to a place.
#[inline(never)]
#[cycle(values)]
fn pointers<I: IntDomain>(alloc: Global, c: &Context<'_, I>, a: &Place) -> Result<Abs<I>, NoMemory>
    requires sized { AreSized c.now.program.now.structures c.now.program.now.target }
    requires sets { HaveSetsIn (domain I.Has I.IsBelow I.OpGives I.OpOneGives I.ToGives I.KeepGives I.members_of) c.now }
    requires pure { IsPurePlaceIn (domain I.Has I.IsBelow I.OpGives I.OpOneGives I.ToGives I.KeepGives I.members_of) c.now a.now }
    ensures { IfOk result (λ y. ArePointersIn (domain I.Has I.IsBelow I.OpGives I.OpOneGives I.ToGives I.KeepGives I.members_of) c.now a.now y) }
{
    Ok(Abs::Addrs(designated(alloc, c, a)?))
}

/// What a register may hold.
fn register<I: IntDomain>(alloc: Global, c: &Context<'_, I>, a: &Place) -> Result<Abs<I>, NoMemory>
    requires sets { HaveSetsIn (domain I.Has I.IsBelow I.OpGives I.OpOneGives I.ToGives I.KeepGives I.members_of) c.now }
    requires pure { IsPureAs (domain I.Has I.IsBelow I.OpGives I.OpOneGives I.ToGives I.KeepGives I.members_of) c.now (layer.Load a.now) }
    ensures { IfOk result (λ y. IsKnownAs (domain I.Has I.IsBelow I.OpGives I.OpOneGives I.ToGives I.KeepGives I.members_of) c.now (layer.Load a.now) y) }
{
    match set_at(c, a) {
        None => unreachable!(),
        Some(set) => copied(alloc, set),
    }
}

/// What an operator of one operand may give.
#[inline(never)]
#[cycle(values)]
fn of_one<I: IntDomain>(
    alloc: Global,
    c: &Context<'_, I>,
    kind: OneOperand,
    a: &Expr,
) -> Result<Abs<I>, NoMemory>
    requires sized { AreSized c.now.program.now.structures c.now.program.now.target }
    requires sets { HaveSetsIn (domain I.Has I.IsBelow I.OpGives I.OpOneGives I.ToGives I.KeepGives I.members_of) c.now }
    requires pure { IsPureAs (domain I.Has I.IsBelow I.OpGives I.OpOneGives I.ToGives I.KeepGives I.members_of) c.now (one_layer kind a.now) }
    ensures { IfOk result (λ y. IsKnownAs (domain I.Has I.IsBelow I.OpGives I.OpOneGives I.ToGives I.KeepGives I.members_of) c.now (one_layer kind a.now) y) }
{
    let x = known(alloc, c, a)?;
    Ok(result_of_one(kind, &x, &c.program.target))
}

/// What an operator of two operands may give.
#[inline(never)]
#[cycle(values)]
fn of_two<I: IntDomain>(
    alloc: Global,
    c: &Context<'_, I>,
    kind: TwoOperands,
    a: &Expr,
    b: &Expr,
) -> Result<Abs<I>, NoMemory>
    requires sized { AreSized c.now.program.now.structures c.now.program.now.target }
    requires sets { HaveSetsIn (domain I.Has I.IsBelow I.OpGives I.OpOneGives I.ToGives I.KeepGives I.members_of) c.now }
    requires pure { IsPureAs (domain I.Has I.IsBelow I.OpGives I.OpOneGives I.ToGives I.KeepGives I.members_of) c.now (two_layer kind a.now b.now) }
    ensures { IfOk result (λ y. IsKnownAs (domain I.Has I.IsBelow I.OpGives I.OpOneGives I.ToGives I.KeepGives I.members_of) c.now (two_layer kind a.now b.now) y) }
{
    let x = known(alloc, c, a)?;
    let w = known(alloc, c, b)?;
    result_of_two(alloc, kind, &x, &w, &c.program.target)
}

/// What `d ? a : b` may give.
#[inline(never)]
#[cycle(values)]
fn choice<I: IntDomain>(
    alloc: Global,
    c: &Context<'_, I>,
    d: &Expr,
    a: &Expr,
    b: &Expr,
) -> Result<Abs<I>, NoMemory>
    requires sized { AreSized c.now.program.now.structures c.now.program.now.target }
    requires sets { HaveSetsIn (domain I.Has I.IsBelow I.OpGives I.OpOneGives I.ToGives I.KeepGives I.members_of) c.now }
    requires pure { IsPureAs (domain I.Has I.IsBelow I.OpGives I.OpOneGives I.ToGives I.KeepGives I.members_of) c.now (layer.Choose d.now a.now b.now) }
    ensures { IfOk result (λ y. IsKnownAs (domain I.Has I.IsBelow I.OpGives I.OpOneGives I.ToGives I.KeepGives I.members_of) c.now (layer.Choose d.now a.now b.now) y) }
{
    let condition = known(alloc, c, d)?;
    let x = known(alloc, c, a)?;
    let w = known(alloc, c, b)?;
    chosen(alloc, &condition, &x, &w)
}

/// The addresses of a place.
#[cycle(values)]
fn designated<I: IntDomain>(alloc: Global, c: &Context<'_, I>, a: &Place) -> Result<Addrs, NoMemory>
    requires sized { AreSized c.now.program.now.structures c.now.program.now.target }
    requires sets { HaveSetsIn (domain I.Has I.IsBelow I.OpGives I.OpOneGives I.ToGives I.KeepGives I.members_of) c.now }
    requires pure { IsPurePlaceIn (domain I.Has I.IsBelow I.OpGives I.OpOneGives I.ToGives I.KeepGives I.members_of) c.now a.now }
    ensures { IfOk result (λ s. DesignatesIn (domain I.Has I.IsBelow I.OpGives I.OpOneGives I.ToGives I.KeepGives I.members_of) c.now a.now s) }
{
    match a {
        Place::Local(r) => {
            let root = Root::Auto {
                activation: 0,
                func: c.id,
                local: *r,
            };
            object(alloc, root)
        }
        Place::Static(i) => object(alloc, Root::Static(*i)),
        Place::Device(_) => Ok(Addrs::none(alloc)),
        Place::Element(b, i) => element(alloc, c, b.get(), i.get()),
        Place::Member(b, m) => member(alloc, c, b.get(), *m),
        Place::Deref(e) => target(alloc, c, e.get()),
    }
}

fn place_type<'a, 'p: 'a, I>(c: &Context<'p, I>, a: &'a Place) -> Option<PlaceType<'a>>
    requires { AreSized c.now.program.now.structures c.now.program.now.target }
    ensures { option_map place_view result ≡ place_type_of c.now.program.now c.now.func.now.locals a.now }
{
    let scope = Scope {
        program: c.program,
        locals: c.func.locals.all(),
    };
    scope.place_type(a)
}

/// The addresses of an element.
#[inline(never)]
#[cycle(values)]
fn element<I: IntDomain>(
    alloc: Global,
    c: &Context<'_, I>,
    b: &Place,
    i: &Expr,
) -> Result<Addrs, NoMemory>
    requires sized { AreSized c.now.program.now.structures c.now.program.now.target }
    requires sets { HaveSetsIn (domain I.Has I.IsBelow I.OpGives I.OpOneGives I.ToGives I.KeepGives I.members_of) c.now }
    requires pure { IsPurePlaceAs (domain I.Has I.IsBelow I.OpGives I.OpOneGives I.ToGives I.KeepGives I.members_of) c.now (layer.Element b.now i.now) }
    ensures { IfOk result (λ s. DesignatesAs (domain I.Has I.IsBelow I.OpGives I.OpOneGives I.ToGives I.KeepGives I.members_of) c.now (layer.Element b.now i.now) s) }
{
    let s = designated(alloc, c, b)?;
    let x = known(alloc, c, i)?;
    match place_type(c, b) {
        None => unreachable!(),
        Some(t) => elements(alloc, c.program, t, integers(&x), &s),
    }
}

/// The addresses of a member.
#[inline(never)]
#[cycle(values)]
fn member<I: IntDomain>(
    alloc: Global,
    c: &Context<'_, I>,
    b: &Place,
    m: u32,
) -> Result<Addrs, NoMemory>
    requires sized { AreSized c.now.program.now.structures c.now.program.now.target }
    requires sets { HaveSetsIn (domain I.Has I.IsBelow I.OpGives I.OpOneGives I.ToGives I.KeepGives I.members_of) c.now }
    requires pure { IsPurePlaceAs (domain I.Has I.IsBelow I.OpGives I.OpOneGives I.ToGives I.KeepGives I.members_of) c.now (layer.Member b.now m) }
    ensures { IfOk result (λ s. DesignatesAs (domain I.Has I.IsBelow I.OpGives I.OpOneGives I.ToGives I.KeepGives I.members_of) c.now (layer.Member b.now m) s) }
{
    let s = designated(alloc, c, b)?;
    match place_type(c, b) {
        None => unreachable!(),
        Some(t) => members(alloc, c.program, t, m, &s),
    }
}

/// The addresses of what a pointer points to.
#[inline(never)]
#[cycle(values)]
fn target<I: IntDomain>(alloc: Global, c: &Context<'_, I>, e: &Expr) -> Result<Addrs, NoMemory>
    requires sized { AreSized c.now.program.now.structures c.now.program.now.target }
    requires sets { HaveSetsIn (domain I.Has I.IsBelow I.OpGives I.OpOneGives I.ToGives I.KeepGives I.members_of) c.now }
    requires pure { IsPurePlaceAs (domain I.Has I.IsBelow I.OpGives I.OpOneGives I.ToGives I.KeepGives I.members_of) c.now (layer.Deref e.now) }
    ensures { IfOk result (λ s. DesignatesAs (domain I.Has I.IsBelow I.OpGives I.OpOneGives I.ToGives I.KeepGives I.members_of) c.now (layer.Deref e.now) s) }
{
    match known(alloc, c, e)? {
        Abs::Ints(_) => unreachable!(),
        Abs::Addrs(s) => Ok(s),
    }
}
