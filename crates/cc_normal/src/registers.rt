//! Which locals of a function are registers: found once for the first of them.

ghost use Rattle.std.specs.Prelude.{◌≡◌};
ghost use Rattle.cc_normal.specs.Kept.{AreKept};
ghost use Rattle.cc_syntax.specs.Registers.{is_register as is_register_of};

use cc_program::num::at;
use cc_syntax::Func;
use cc_typed::is_register;

/// Of how many locals it is kept whether they are registers. Of a later one it is found anew at each use.
pub const KEPT: usize = 256;

/// Finds of the first locals whether they are registers.
pub fn keep_registers(f: &Func, kept: &mut [bool; KEPT])
    ensures { AreKept f.now kept.new }
{
    for i in 0..KEPT {
        kept[i] = is_register(f, i as u32);
    }
}

/// Whether a local is a register, where it is kept of the first ones.
pub fn is_kept_register(f: &Func, kept: &[bool], local: u32) -> bool
    requires { AreKept f.now kept.now }
    ensures { result ≡ is_register_of f.now local }
{
    match at(kept, local as usize) {
        Some(is) => *is,
        None => is_register(f, local),
    }
}
