//! The registers of a function, and the tracked cells of a program.

ghost use Rattle.std.specs.Prelude.{◌≡◌, ◌<◌, ◌^◌, ◌==◌, ◌&&◌, length, take, nat_lt, position, IfOk};
ghost use Rattle.cc_registers.specs.Kept.{AreKept};
ghost use Rattle.cc_state_keys.specs.Addressed.{is_object_key as is_object_key_of, is_object_among as is_object_among_of};
ghost use Rattle.cc_state_keys.specs.Tracked.{registers as registers_in, may_be_tracked as may_be_tracked_of, most_tracked, numbers, tracked as tracked_of};
ghost use Rattle.cc_eval.specs.CcSyntax.Sound.{IsTypedProgram};

use crate::lists::{is_marked, put_if};
use crate::text::taken_keys;
use cc_eval::typed::scalar_value;
use cc_program::num::NoMemory;
use cc_program::{Func, Object, Program};
use cc_registers::registers_of;
use cc_state_facts::Key;
use std::alloc::Global;

/// The most tracked cells.
const MOST_TRACKED: usize = 128;

/// The locals of a function that are marked as registers, ascending.
fn registers_by(alloc: Global, f: &Func, marks: &[bool]) -> Result<Vec<u32>, NoMemory>
    requires marks { AreKept f.now marks.now }
    requires few { length f.now.locals < 2 ^ 32 }
    ensures { IfOk result (λ registers. registers.items ≡ registers_in f.now) }
{
    let mut registers = Vec::new(alloc);
    for r in 0..f.locals.all().len() {
        put_if(&mut registers, is_marked(marks, r), r as u32)?;
    }
    Ok(registers)
}

/// The locals of a function that are registers, ascending. The only error is want of memory.
pub fn registers(alloc: Global, f: &Func) -> Result<Vec<u32>, NoMemory>
    requires { length f.now.locals < 2 ^ 32 }
    ensures { IfOk result (λ registers. registers.items ≡ registers_in f.now) }
{
    let marks = registers_of(alloc, f)?;
    registers_by(alloc, f, &marks)
}

fn is_object_key(object: u32, key: Key) -> bool
    ensures { result ≡ is_object_key_of object key }
{
    match key {
        Key::Object(i) => i == object,
        Key::Local(_, _) | Key::Member(_, _) => false,
    }
}

fn is_object_among(keys: &[Key], object: u32) -> bool
    ensures { result ≡ is_object_among_of keys.now object }
{
    keys.iter().any(|key| is_object_key(object, *key))
}

/// Whether a static object is a scalar that is neither const nor volatile, and not among those whose addresses are taken.
fn may_be_tracked(taken: &[Key], i: u32, o: &Object) -> bool
    ensures { result ≡ may_be_tracked_of taken.now i o.now }
{
    scalar_value(&o.ctype).is_some()
        && !(o.ctype.is_const() || o.ctype.is_volatile())
        && !is_object_among(taken, i)
}

/// Whether it is tracked, behind so many that are.
fn is_tracked(count: usize, taken: &[Key], i: u32, o: &Object) -> bool
    ensures { result ≡ (nat_lt count most_tracked && may_be_tracked_of taken.now i o.now) }
{
    count < MOST_TRACKED && may_be_tracked(taken, i, o)
}

/// The tracked cells, where these are the keys whose addresses are taken.
fn tracked_but(alloc: Global, p: &Program, taken: &[Key]) -> Result<Vec<u32>, NoMemory>
    requires { length p.now.objects < 2 ^ 32 }
    ensures { IfOk result (λ tracked. tracked.items ≡ take most_tracked (numbers (may_be_tracked_of taken.now) p.now.objects)) }
{
    let mut tracked = Vec::new(alloc);
    for (i, object) in p.objects.all().iter().enumerate() {
        let passes = is_tracked(tracked.len(), taken, i as u32, object);
        put_if(&mut tracked, passes, i as u32)?;
    }
    Ok(tracked)
}

/// The tracked cells of a program: the first 128 static objects that are scalars, neither const nor volatile, and whose
/// addresses are not taken. The only error is want of memory.
pub fn tracked(alloc: Global, p: &Program) -> Result<Vec<u32>, NoMemory>
    requires { IsTypedProgram p.now }
    ensures { IfOk result (λ tracked. tracked.items ≡ tracked_of p.now) }
{
    let taken = taken_keys(alloc, p)?;
    tracked_but(alloc, p, &taken)
}

/// Where a number first stands in a list: a local's position among the registers of its function, or an object's among the
/// tracked cells.
pub fn number_in(numbers: &[u32], number: u32) -> Option<usize>
    ensures { result ≡ position (λ n. n == number) numbers.now }
{
    numbers.iter().position(|n| *n == number)
}
