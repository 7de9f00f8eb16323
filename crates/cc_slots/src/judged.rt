//! What the accesses of a key say of it.

ghost use Rattle.std.specs.Prelude.{◌≡◌, IfOk};
ghost use Rattle.std.specs.List.{list_any};
ghost use Rattle.cc_slots.specs.Judged.{class_by as class_by_of, class_of as class_of_accesses, is_entered as is_entered_of, is_lone as is_lone_of, is_reached_read as is_reached_read_of, is_reached_write as is_reached_write_of, is_torn as is_torn_of, is_unbounded as is_unbounded_of, is_volatile_somewhere as is_volatile_somewhere_of, levels_from as levels_from_of, points_of, reads_in_handler as reads_in_handler_of, with_levels as with_levels_of, writes_in_handler as writes_in_handler_of};

use cc_program::num::{List, NoMemory};
use cc_slots_accesses::Access;
use cc_slots_types::Class;
use cc_state_points::state_facts::{levels_of_both, one_may_enter};
use std::alloc::Global;

fn is_reached_read(x: Access) -> bool
    ensures { result ≡ is_reached_read_of x }
{
    x.is_reached && !x.writes
}

fn is_reached_write(x: Access) -> bool
    ensures { result ≡ is_reached_write_of x }
{
    x.is_reached && x.writes
}

/// The points that are reached and read the key.
pub fn reads(alloc: Global, accesses: &[Access]) -> Result<List<u32>, NoMemory>
    ensures { IfOk result (λ points. points ≡ points_of is_reached_read_of accesses.now) }
{
    let mut points = Vec::new(alloc);
    for access in accesses {
        if is_reached_read(*access) {
            points.push(access.point)?;
        }
    }
    Ok(List::of(points))
}

/// The points that are reached and write it.
pub fn writes(alloc: Global, accesses: &[Access]) -> Result<List<u32>, NoMemory>
    ensures { IfOk result (λ points. points ≡ points_of is_reached_write_of accesses.now) }
{
    let mut points = Vec::new(alloc);
    for access in accesses {
        if is_reached_write(*access) {
            points.push(access.point)?;
        }
    }
    Ok(List::of(points))
}

fn class_by(reads: bool, writes: bool) -> Class
    ensures { result ≡ class_by_of reads writes }
{
    if writes {
        Class::Written
    } else if reads {
        Class::Read
    } else {
        Class::Lone
    }
}

fn is_read_in_handler(x: Access) -> bool
    ensures { result ≡ reads_in_handler_of x }
{
    is_reached_read(x) && x.by_handler
}

fn is_write_in_handler(x: Access) -> bool
    ensures { result ≡ writes_in_handler_of x }
{
    is_reached_write(x) && x.by_handler
}

/// Whether a function reads the key that is reached from a handler.
fn is_read(accesses: &[Access]) -> bool
    ensures { result ≡ list_any reads_in_handler_of accesses.now }
{
    accesses.iter().any(|x| is_read_in_handler(*x))
}

/// Whether such a function writes it.
fn is_written(accesses: &[Access]) -> bool
    ensures { result ≡ list_any writes_in_handler_of accesses.now }
{
    accesses.iter().any(|x| is_write_in_handler(*x))
}

/// The class of a key, by what the functions do that are reached from handlers.
pub fn class_of(accesses: &[Access]) -> Class
    ensures { result ≡ class_of_accesses accesses.now }
{
    class_by(is_read(accesses), is_written(accesses))
}

fn with_levels(levels: u8, x: Access) -> u8
    ensures { result ≡ with_levels_of levels x }
{
    if x.is_reached {
        levels_of_both(levels, x.from)
    } else {
        levels
    }
}

/// The levels of the handlers from which an access is reached.
fn levels_from(accesses: &[Access]) -> u8
    ensures { result ≡ levels_from_of accesses.now }
{
    let mut levels: u8 = 0;
    for access in accesses {
        levels = with_levels(levels, *access);
    }
    levels
}

fn is_entered(levels: u8, x: Access) -> bool
    ensures { result ≡ is_entered_of levels x }
{
    x.is_reached && x.may_be_on && one_may_enter(x.levels, levels)
}

fn is_lone(class: Class) -> bool
    ensures { result ≡ is_lone_of class }
{
    match class {
        Class::Lone => true,
        Class::Read | Class::Written => false,
    }
}

/// Whether a handler of one of these levels may enter at an access.
fn is_one_entered(accesses: &[Access], levels: u8) -> bool
    ensures { result ≡ list_any (is_entered_of levels) accesses.now }
{
    accesses.iter().any(|x| is_entered(levels, *x))
}

/// Whether an interrupt may divide an access to a scalar of so many bytes, where a handler may enter that reaches another one.
pub fn is_torn(accesses: &[Access], class: Class, bytes: u32, atomic: u32) -> bool
    ensures { result ≡ is_torn_of accesses.now class bytes atomic }
{
    atomic < bytes && !is_lone(class) && is_one_entered(accesses, levels_from(accesses))
}

/// Whether an access to an array may lie outside it.
pub fn is_unbounded(accesses: &[Access]) -> bool
    ensures { result ≡ is_unbounded_of accesses.now }
{
    accesses.iter().any(|x| x.may_be_outside)
}

/// Whether an access is volatile, wherever it stands.
pub fn is_volatile_somewhere(accesses: &[Access]) -> bool
    ensures { result ≡ is_volatile_somewhere_of accesses.now }
{
    accesses.iter().any(|x| x.is_volatile)
}
