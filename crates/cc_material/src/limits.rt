//! The limits of a program.

ghost use Rattle.std.specs.Prelude.{◌≡◌, None, IfSome};
ghost use Rattle.cc_material.specs.Programs.{IsAbove, IsWithin};
ghost use Rattle.cc_type.specs.CcSyntax.Layout.{HasSizes};

use cc_layout::ram;
use cc_program::Program;
use cc_status::{Status, What};

/// The most functions of a program.
const FUNCTION_LIMIT: u64 = 4096;

/// The most bytes of RAM of a program.
const RAM_LIMIT: u64 = 65536;

/// The limit that a program is above, with the number, if there is one.
#[tactic(auto, using(crate::proofs::LimitLaws::of_limits))]
pub fn above(p: &Program) -> Option<(What, u64)>
    requires { HasSizes p.now }
    ensures within { result ≡ None → IsWithin p.now }
    ensures above { IfSome result (λ l. IsAbove p.now l.0 l.1) }
{
    let functions = p.funcs.all().len() as u64;
    if functions > FUNCTION_LIMIT {
        return Some((What::Functions, functions));
    }
    let bytes = ram(p);
    if bytes > RAM_LIMIT {
        return Some((What::Ram, bytes));
    }
    None
}
