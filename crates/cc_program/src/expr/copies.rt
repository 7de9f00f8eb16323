//! Copies of expressions and places.

ghost use Rattle.std.specs.Prelude.{◌≡◌, IfOk};

use crate::{Expr, Place};
use cc_num::{Boxed, List, NoMemory};
use std::alloc::Global;

impl Expr {
    /// The same expression.
    #[cycle(copy)]
    pub fn copy(&self, alloc: Global) -> Result<Expr, NoMemory>
        ensures { IfOk result (λ r. r ≡ self.now) }
    {
        match self {
            Expr::Const(n, t) => Ok(Expr::Const(*n, *t)),
            Expr::Null(t) => Ok(Expr::Null(t.get().copy_boxed(alloc)?)),
            Expr::FuncAddr(f) => Ok(Expr::FuncAddr(*f)),
            Expr::Load(p) => Ok(Expr::Load(p.get().copy_boxed(alloc)?)),
            Expr::AddrOf(p) => Ok(Expr::AddrOf(p.get().copy_boxed(alloc)?)),
            Expr::Un(op, t, a) => Ok(Expr::Un(*op, *t, a.get().copy_boxed(alloc)?)),
            Expr::Bin(op, t, a, b) => {
                let (a, b) = copy_two(alloc, a, b)?;
                Ok(Expr::Bin(*op, *t, a, b))
            }
            Expr::Conv(t, a) => Ok(Expr::Conv(*t, a.get().copy_boxed(alloc)?)),
            Expr::Qualify(t, a) => {
                let a = a.get().copy_boxed(alloc)?;
                Ok(Expr::Qualify(t.get().copy_boxed(alloc)?, a))
            }
            Expr::Move(a, b, back) => {
                let (a, b) = copy_two(alloc, a, b)?;
                Ok(Expr::Move(a, b, *back))
            }
            Expr::Gap(a, b) => {
                let (a, b) = copy_two(alloc, a, b)?;
                Ok(Expr::Gap(a, b))
            }
            Expr::Compare(op, a, b) => {
                let (a, b) = copy_two(alloc, a, b)?;
                Ok(Expr::Compare(*op, a, b))
            }
            Expr::Both(a, b) => {
                let (a, b) = copy_two(alloc, a, b)?;
                Ok(Expr::Both(a, b))
            }
            Expr::Either(a, b) => {
                let (a, b) = copy_two(alloc, a, b)?;
                Ok(Expr::Either(a, b))
            }
            Expr::Choose(a, b, c) => {
                let a = a.get().copy_boxed(alloc)?;
                let (b, c) = copy_two(alloc, b, c)?;
                Ok(Expr::Choose(a, b, c))
            }
            Expr::Assign(p, a) => {
                let a = a.get().copy_boxed(alloc)?;
                Ok(Expr::Assign(p.get().copy_boxed(alloc)?, a))
            }
            Expr::Change(p, op, t, a) => {
                let a = a.get().copy_boxed(alloc)?;
                Ok(Expr::Change(p.get().copy_boxed(alloc)?, *op, *t, a))
            }
            Expr::After(p, down) => Ok(Expr::After(p.get().copy_boxed(alloc)?, *down)),
            Expr::Call(f, args) => {
                let args = copy_args(alloc, args)?;
                Ok(Expr::Call(f.get().copy_boxed(alloc)?, args))
            }
            Expr::Intr(i, None) => Ok(Expr::Intr(*i, None)),
            Expr::Intr(i, Some(a)) => Ok(Expr::Intr(*i, Some(a.get().copy_boxed(alloc)?))),
            Expr::Seq(a, b) => {
                let (a, b) = copy_two(alloc, a, b)?;
                Ok(Expr::Seq(a, b))
            }
        }
    }

    #[cycle(copy)]
    fn copy_boxed(&self, alloc: Global) -> Result<Boxed<Expr>, NoMemory>
        ensures { IfOk result (λ r. r ≡ self.now) }
    {
        Boxed::new(alloc, self.copy(alloc)?)
    }
}

#[cycle(copy)]
fn copy_two(
    alloc: Global,
    a: &Boxed<Expr>,
    b: &Boxed<Expr>,
) -> Result<(Boxed<Expr>, Boxed<Expr>), NoMemory>
    ensures { IfOk result (λ r. r ≡ (a.now, b.now)) }
{
    let a = a.get().copy_boxed(alloc)?;
    let b = b.get().copy_boxed(alloc)?;
    Ok((a, b))
}

#[cycle(copy)]
fn copy_args(alloc: Global, args: &List<Expr>) -> Result<List<Expr>, NoMemory>
    ensures { IfOk result (λ r. r ≡ args.now) }
{
    let mut copies = Vec::new(alloc);
    for arg in args.all() {
        copies.push(arg.copy(alloc)?)?;
    }
    Ok(List::of(copies))
}

impl Place {
    /// The same place.
    #[cycle(copy)]
    pub fn copy(&self, alloc: Global) -> Result<Place, NoMemory>
        ensures { IfOk result (λ r. r ≡ self.now) }
    {
        match self {
            Place::Local(local) => Ok(Place::Local(*local)),
            Place::Static(object) => Ok(Place::Static(*object)),
            Place::Device(device) => Ok(Place::Device(*device)),
            Place::Element(p, e) => {
                let e = e.get().copy_boxed(alloc)?;
                Ok(Place::Element(p.get().copy_boxed(alloc)?, e))
            }
            Place::Member(p, m) => Ok(Place::Member(p.get().copy_boxed(alloc)?, *m)),
            Place::Deref(e) => Ok(Place::Deref(e.get().copy_boxed(alloc)?)),
        }
    }

    #[cycle(copy)]
    fn copy_boxed(&self, alloc: Global) -> Result<Boxed<Place>, NoMemory>
        ensures { IfOk result (λ r. r ≡ self.now) }
    {
        Boxed::new(alloc, self.copy(alloc)?)
    }
}
