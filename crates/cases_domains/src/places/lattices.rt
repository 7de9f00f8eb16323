//! The calls of a lattice, through its bound.

ghost use Rattle.std.specs.Prelude.{◌↔◌, IsTrue};

use cases_script::Page;
use cc_lattice::{Lattice, copied};
use std::alloc::Global;

/// The least value that both are below.
pub fn joined<L: Lattice>(alloc: Global, a: &L, b: &L) -> Option<L>
    requires { L.AreAlike a.now b.now }
{
    a.join(alloc, b).ok()
}

/// A copy of a value.
pub fn copy_of<L: Lattice>(alloc: Global, a: &L) -> Option<L>
    requires { L.AreAlike a.now a.now }
{
    copied(alloc, a).ok()
}

/// Writes whether a value is below another.
pub fn write_below<L: Lattice>(page: &mut Page, a: &L, b: &L)
    requires { L.AreAlike a.now b.now }
{
    write_answer(page, a.below(b));
}

pub fn write_answer(page: &mut Page, holds: bool) {
    page.put(if holds { "yes" } else { "no" });
}
