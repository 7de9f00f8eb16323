//! Types with other ids of structures.

ghost use Rattle.std.specs.Prelude.{◌≡◌, IfOk, slice_get, map};
ghost use Rattle.cc_unit.specs.Renumbered.{structure_by, type_renumbered, shape_renumbered, sig_renumbered};

use cc_program::num::{Boxed, List, NoMemory, at};
use cc_program::{CType, Shape, Sig};
use std::alloc::Global;

fn structure_at(structures: &[u32], i: u32) -> u32
    ensures { result ≡ structure_by (slice_get structures.now i) }
{
    match at(structures, i as usize) {
        None => 0,
        Some(id) => *id,
    }
}

/// The type, with these ids of structures.
#[cycle(renumber)]
#[tactic(auto, unfolding(crate::specs::Renumbered::type_renumbered, crate::specs::Renumbered::shape_renumbered, crate::specs::Renumbered::sig_renumbered))]
pub fn renumber_type(alloc: Global, structures: &[u32], t: &CType) -> Result<CType, NoMemory>
    ensures { IfOk result (λ r. r ≡ type_renumbered structures.now t.now) }
{
    Ok(CType {
        constant: t.constant,
        volatile: t.volatile,
        shape: renumber_shape(alloc, structures, &t.shape)?,
    })
}

#[cycle(renumber)]
#[tactic(auto, unfolding(crate::specs::Renumbered::type_renumbered, crate::specs::Renumbered::shape_renumbered, crate::specs::Renumbered::sig_renumbered))]
pub fn renumber_boxed_type(
    alloc: Global,
    structures: &[u32],
    t: &CType,
) -> Result<Boxed<CType>, NoMemory>
    ensures { IfOk result (λ r. r ≡ type_renumbered structures.now t.now) }
{
    Boxed::new(alloc, renumber_type(alloc, structures, t)?)
}

#[cycle(renumber)]
#[tactic(auto, unfolding(crate::specs::Renumbered::type_renumbered, crate::specs::Renumbered::shape_renumbered, crate::specs::Renumbered::sig_renumbered))]
fn renumber_shape(alloc: Global, structures: &[u32], s: &Shape) -> Result<Shape, NoMemory>
    ensures { IfOk result (λ r. r ≡ shape_renumbered structures.now s.now) }
{
    match s {
        Shape::Void => Ok(Shape::Void),
        Shape::Int(t) => Ok(Shape::Int(*t)),
        Shape::Pointer(t) => Ok(Shape::Pointer(renumber_boxed_type(alloc, structures, t.get())?)),
        Shape::Array(t, n) => Ok(Shape::Array(
            renumber_boxed_type(alloc, structures, t.get())?,
            *n,
        )),
        Shape::Struct(i) => Ok(Shape::Struct(structure_at(structures, *i))),
        Shape::Func(sig) => Ok(Shape::Func(Boxed::new(
            alloc,
            renumber_sig(alloc, structures, sig.get())?,
        )?)),
    }
}

/// The type of a function, with these ids of structures.
#[cycle(renumber)]
#[tactic(auto, unfolding(crate::specs::Renumbered::type_renumbered, crate::specs::Renumbered::shape_renumbered, crate::specs::Renumbered::sig_renumbered))]
pub fn renumber_sig(alloc: Global, structures: &[u32], sig: &Sig) -> Result<Sig, NoMemory>
    ensures { IfOk result (λ r. r ≡ sig_renumbered structures.now sig.now) }
{
    let result = renumber_type(alloc, structures, &sig.result)?;
    let mut params = Vec::new(alloc);
    for param in sig.params.all() {
        params.push(renumber_type(alloc, structures, param)?)?;
    }
    Ok(Sig {
        result,
        params: List::of(params),
    })
}
