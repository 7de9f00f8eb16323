//! Whether a program is in normal form.

ghost use Rattle.std.specs.Prelude.{◌≡◌, ◌↔◌, IsTrue};
ghost use Rattle.std.specs.List.{list_all};
ghost use Rattle.cc_syntax.specs.Normal.{IsNormal, is_normal_body};
ghost use Rattle.cc_syntax.specs.Sound.{IsSound};

use crate::devices::devices_in_order;
use crate::pure::Body;
use crate::registers::{KEPT, keep_registers};
use cc_sound::is_sound;
use cc_syntax::{Func, Program};

fn is_body(p: &Program, f: &Func) -> bool
    ensures { result ≡ is_normal_body p.now.target f.now }
{
    let mut kept = [false; KEPT];
    keep_registers(f, &mut kept);
    Body {
        target: &p.target,
        func: f,
        kept: &kept,
    }
    .are_normal(&f.body)
}

/// Whether each statement of each function is in normal form.
fn are_bodies(p: &Program) -> bool
    ensures { result ≡ list_all (is_normal_body p.now.target) p.now.funcs }
{
    p.funcs.all().iter().all(|f| is_body(p, f))
}

/// Whether a sound program is in normal form: each statement has at most one access to a cell that is no register, its
/// operands are pure, and the printed text gives the program back.
pub fn has_normal_form(p: &Program) -> bool
    requires { IsSound p.now }
    ensures { IsTrue result ↔ IsNormal p.now }
{
    are_bodies(p) && devices_in_order(p)
}

/// Whether a program is in normal form: it is sound, and has the normal form of sound programs.
pub fn is_normal(p: &Program) -> bool
    ensures { IsTrue result ↔ IsNormal p.now }
{
    is_sound(p) && has_normal_form(p)
}
