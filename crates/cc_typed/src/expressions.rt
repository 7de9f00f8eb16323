//! The type of each expression and each place of a program.

ghost use Rattle.std.specs.Prelude.{◌≡◌, option_map, map, slice_get, length, None as NoneOf, Some as SomeOf};
ghost use Rattle.std.specs.Option.{option_copied};
ghost use Rattle.cc_program.specs.declared.expr.Expr.{out-Expr};
ghost use Rattle.cc_syntax.specs.Expressions.{of_one};
ghost use Rattle.cc_syntax.specs.Programs.{type_of as type_of_of, place_type as place_type_of, null_type as null_type_of, pointer_type as pointer_type_of, qualified_type as qualified_type_of};
ghost use Rattle.cc_syntax.specs.Operators.{pointer_in as pointer_in_of, void_pointer_in as void_pointer_in_of, is_unqualified as is_unqualified_of, call_type as call_type_of, intrinsic_type as intrinsic_type_of};
ghost use Rattle.cc_syntax.specs.Values.{are_assignable, result_value as result_value_of, is_assignable_some as is_assignable_some_of, object_place as object_place_of};
ghost use Rattle.cc_syntax.specs.Types.{Named};
ghost use Rattle.cc_syntax.specs.Sizes.{AreSized};
ghost use Rattle.cc_typed.specs.View.{value_view, place_view};

use crate::kinds::{is_plain_scalar, kind_in};
use crate::operators::{constant_type, function_type};
use crate::parts::{
    address, assigned, binary, changed, chosen, compared, converted, gap, logical, member, moved,
    pointed_to, read, second, stepped, subscripted, unary,
};
use crate::values::{
    PlaceType, ValueType, is_void, object_place, pointer_to, result_value, scalar_value,
};
use cc_program::num::{IntType, List, Name, at};
use cc_syntax::{CType, Device, Expr, Intr, Object, Place, Program, Shape};

/// A function's surroundings: the program, and the function's locals.
#[derive(Clone, Copy)]
pub struct Scope<'p> {
    pub program: &'p Program,
    pub locals: &'p [(Name, CType)],
}

/// Whether a type has no qualifiers of its own.
pub fn is_unqualified(t: &CType) -> bool
    ensures { result ≡ is_unqualified_of t.now }
{
    !(t.constant || t.volatile)
}

fn pointer_in(good: bool, shape: &Shape) -> Option<ValueType<'_>>
    ensures { option_map value_view result ≡ pointer_in_of good (out-Shape shape.now) }
{
    match shape {
        Shape::Pointer(to) => {
            if good {
                Some(pointer_to(to.get()))
            } else {
                None
            }
        }
        _ => None,
    }
}

fn void_pointer_in(plain: bool, shape: &Shape) -> Option<ValueType<'_>>
    ensures { option_map value_view result ≡ void_pointer_in_of plain (out-Shape shape.now) }
{
    match shape {
        Shape::Pointer(to) => {
            if plain && is_void(to.get()) && is_unqualified(to.get()) {
                Some(pointer_to(to.get()))
            } else {
                None
            }
        }
        _ => None,
    }
}

/// A pointer type without qualifiers of its own.
fn pointer_type<'p>(p: &Program, t: &'p CType) -> Option<ValueType<'p>>
    requires { AreSized p.now.structures p.now.target }
    ensures { option_map value_view result ≡ pointer_type_of p.now t.now }
{
    pointer_in(is_plain_scalar(kind_in(p, t)), &t.shape)
}

/// The type of a null (C99 6.3.2.3, 3).
fn null_type<'p>(p: &Program, t: &'p CType) -> Option<ValueType<'p>>
    requires { AreSized p.now.structures p.now.target }
    ensures { option_map value_view result ≡ null_type_of p.now t.now }
{
    match void_pointer_in(is_unqualified(t), &t.shape) {
        None => pointer_type(p, t),
        Some(v) => Some(v),
    }
}

/// A cast of a pointer that adds qualifiers (C99 6.5.4).
fn qualified_type<'p>(p: &Program, t: &'p CType, a: Option<ValueType>) -> Option<ValueType<'p>>
    requires { AreSized p.now.structures p.now.target }
    ensures { option_map value_view result ≡ of_one (option_map value_view a.entry) (qualified_type_of p.now t.now) }
{
    match (pointer_type(p, t), a) {
        (Some(to), Some(a)) => to.assigned(a),
        _ => None,
    }
}

/// Whether what is there can be assigned to what is there.
pub fn is_assignable_some(to: Option<ValueType>, from: Option<ValueType>) -> bool
    ensures { result ≡ is_assignable_some_of (option_map value_view to.entry) (option_map value_view from.entry) }
{
    match (to, from) {
        (Some(to), Some(from)) => to.is_assignable(from),
        _ => false,
    }
}

/// A call of an intrinsic that takes nothing.
fn intrinsic_type(i: Intr) -> Option<ValueType<'static>>
    ensures { option_map value_view result ≡ intrinsic_type_of i NoneOf }
{
    match i {
        Intr::Off | Intr::On => Some(ValueType::NoValue),
        Intr::Save => Some(ValueType::Integer(IntType::UChar)),
        Intr::Restore => None,
    }
}

/// A call of an intrinsic that takes this.
fn intrinsic_type_with(i: Intr, a: Option<ValueType>) -> Option<ValueType<'static>>
    ensures { option_map value_view result ≡ intrinsic_type_of i (SomeOf (option_map value_view a.entry)) }
{
    match (i, a) {
        (Intr::Restore, Some(a)) => {
            if a.is_of(IntType::UChar) {
                Some(ValueType::NoValue)
            } else {
                None
            }
        }
        _ => None,
    }
}

impl<'p> Scope<'p> {
    /// The type of an expression; none where a rule is broken in it.
    #[cycle(types)]
    #[tactic(auto, unfolding(cc_syntax::specs::Expressions::type_of, cc_syntax::specs::Expressions::place_type))]
    pub fn type_of(self, e: &'p Expr) -> Option<ValueType<'p>>
        requires { AreSized self.program.now.structures self.program.now.target }
        ensures { option_map value_view result ≡ type_of_of self.entry.program.now self.entry.locals.now e.now }
    {
        let p = self.program;
        match e {
            Expr::Const(n, t) => constant_type(*n, *t, &p.target),
            Expr::Null(t) => null_type(p, t.get()),
            Expr::FuncAddr(f) => function_type(at(p.funcs.all(), *f as usize)),
            Expr::Load(a) => read(self.place_type(a.get())),
            Expr::AddrOf(a) => address(self.place_type(a.get())),
            Expr::Un(op, t, a) => unary(p, *op, *t, self.type_of(a.get())),
            Expr::Bin(op, t, a, b) => {
                binary(p, *op, *t, self.type_of(a.get()), self.type_of(b.get()))
            }
            Expr::Conv(t, a) => converted(*t, self.type_of(a.get())),
            Expr::Qualify(t, a) => qualified_type(p, t.get(), self.type_of(a.get())),
            Expr::Move(a, b, _) => moved(p, self.type_of(a.get()), self.type_of(b.get())),
            Expr::Gap(a, b) => gap(p, self.type_of(a.get()), self.type_of(b.get())),
            Expr::Compare(op, a, b) => {
                compared(*op, self.type_of(a.get()), self.type_of(b.get()))
            }
            Expr::Both(a, b) => logical(self.type_of(a.get()), self.type_of(b.get())),
            Expr::Either(a, b) => logical(self.type_of(a.get()), self.type_of(b.get())),
            Expr::Choose(c, a, b) => chosen(
                p,
                self.type_of(c.get()),
                self.type_of(a.get()),
                self.type_of(b.get()),
            ),
            Expr::Assign(a, b) => assigned(self.place_type(a.get()), self.type_of(b.get())),
            Expr::Change(a, op, t, b) => {
                changed(p, self.place_type(a.get()), *op, *t, self.type_of(b.get()))
            }
            Expr::After(a, _) => stepped(p, self.place_type(a.get())),
            Expr::Call(f, args) => self.call_type(self.type_of(f.get()), args),
            Expr::Intr(i, None) => intrinsic_type(*i),
            Expr::Intr(i, Some(a)) => intrinsic_type_with(*i, self.type_of(a.get())),
            Expr::Seq(a, b) => second(self.type_of(a.get()), self.type_of(b.get())),
        }
    }

    /// The type of a call (C99 6.5.2.2).
    #[cycle(types)]
    #[tactic(auto, using(crate::proofs::PairLemmas::of_second_pairs))]
    fn call_type(self, f: Option<ValueType<'p>>, args: &'p List<Expr>) -> Option<ValueType<'p>>
        requires { AreSized self.program.now.structures self.program.now.target }
        ensures { option_map value_view result ≡ of_one (option_map value_view f.entry) (λ f. call_type_of f (map (type_of_of self.entry.program.now self.entry.locals.now) args.now)) }
    {
        match f {
            Some(ValueType::ToFunction(sig)) => {
                let params = sig.params.all();
                if params.len() != args.all().len() {
                    return None;
                }
                for (i, arg) in args.all().iter().enumerate() {
                    if !is_assignable_some(scalar_value(&params[i]), self.type_of(arg)) {
                        return None;
                    }
                }
                result_value(&sig.result)
            }
            _ => None,
        }
    }

    /// The type of a place; none where a rule is broken in it.
    #[cycle(types)]
    #[tactic(auto, unfolding(cc_syntax::specs::Expressions::type_of, cc_syntax::specs::Expressions::place_type))]
    pub fn place_type(self, a: &'p Place) -> Option<PlaceType<'p>>
        requires { AreSized self.program.now.structures self.program.now.target }
        ensures { option_map place_view result ≡ place_type_of self.entry.program.now self.entry.locals.now a.now }
    {
        let p = self.program;
        match a {
            Place::Local(r) => local_type(self.locals, *r),
            Place::Static(i) => static_type(p.objects.all(), *i),
            Place::Device(d) => device_type(p.devices.all(), *d),
            Place::Element(a, i) => subscripted(self.place_type(a.get()), self.type_of(i.get())),
            Place::Member(a, m) => member(p, self.place_type(a.get()), *m),
            Place::Deref(e) => pointed_to(self.type_of(e.get())),
        }
    }
}

fn local_type(locals: &[(Name, CType)], local: u32) -> Option<PlaceType<'_>>
    ensures { option_map place_view result ≡ option_map (λ l. object_place_of l.1) (slice_get locals.now local) }
{
    match at(locals, local as usize) {
        None => None,
        Some((_, t)) => Some(object_place(t)),
    }
}

/// The type of a static object.
pub fn static_type(objects: &[Object], object: u32) -> Option<PlaceType<'_>>
    ensures { option_map place_view result ≡ option_map (λ o. object_place_of o.ctype) (slice_get objects.now object) }
{
    match at(objects, object as usize) {
        None => None,
        Some(o) => Some(object_place(&o.ctype)),
    }
}

fn device_type(devices: &[Device], device: u32) -> Option<PlaceType<'_>>
    ensures { option_map place_view result ≡ option_map (λ d. DevicePlace d.constant d.int) (slice_get devices.now device) }
{
    match at(devices, device as usize) {
        None => None,
        Some(d) => Some(PlaceType::Device(d.constant, d.int)),
    }
}

ghost use Rattle.cc_program.specs.declared.types.Shape.{out-Shape};
ghost use Rattle.cc_syntax.specs.Values.{DevicePlace};
