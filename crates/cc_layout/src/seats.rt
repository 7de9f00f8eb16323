//! The seats of a program's objects.

ghost use Rattle.std.specs.Prelude.{◌≡◌, not, IfOk};
ghost use Rattle.cc_program.specs.Qualifiers.{is_const};
ghost use Rattle.cc_layout.specs.Seats.{ram as ram_of, seats as seats_of};
ghost use Rattle.cc_syntax.specs.Layout.{HasSizes};

use cc_program::num::NoMemory;
use cc_syntax::{Object, Program, layout_of};
use std::alloc::Global;

/// Where a static object lies in RAM.
#[derive(Clone, Copy)]
pub struct Seat {
    /// The object, by id.
    pub object: u32,
    /// Its first byte, counted from 0.
    pub at: u64,
    /// How many bytes it has.
    pub size: u64,
}

/// Whether an object takes RAM: where it is not const.
fn takes_ram(object: &Object) -> bool
    ensures { result ≡ not (is_const object.now.ctype) }
{
    !object.ctype.is_const()
}

/// How many bytes of RAM the static objects of a program take: the end of the last one that is not
/// const, where they lie in the program's order, each at its alignment. A string literal is const, and a
/// device is no object.
pub fn ram(p: &Program) -> u64
    requires { HasSizes p.now }
    ensures { result ≡ ram_of p.now }
{
    let mut end = 0;
    for object in p.objects.all() {
        if takes_ram(object) {
            let layout = layout_of(&object.ctype, p.structures.all(), &p.target);
            end = layout.place_behind(end) + layout.size;
        }
    }
    end
}

/// The seats of the static objects that are not const, in the program's order. The only error is want of
/// memory.
pub fn places(alloc: Global, p: &Program) -> Result<Vec<Seat>, NoMemory>
    requires { HasSizes p.now }
    ensures { IfOk result (λ seats. seats.items ≡ seats_of p.now) }
{
    let mut seats = Vec::new(alloc);
    let mut end = 0;
    for (i, object) in p.objects.all().iter().enumerate() {
        if takes_ram(object) {
            let layout = layout_of(&object.ctype, p.structures.all(), &p.target);
            let at = layout.place_behind(end);
            seats.push(Seat {
                object: i as u32,
                at,
                size: layout.size,
            })?;
            end = at + layout.size;
        }
    }
    Ok(seats)
}
