//! What names stand for beside C.

ghost use Rattle.std.specs.Prelude.{◌≡◌, IfSome};

use cc_program::Roles;
use cc_program::num::{List, Name};
use std::alloc::Global;

/// A name.
fn name(alloc: Global, text: &str) -> Option<Name>
    ensures { IfSome result (λ name. name ≡ text.now) }
{
    Some(List::of(Vec::from_slice(alloc, text.as_bytes()).ok()?))
}

/// No handlers, and the four intrinsics by their own names.
#[tactic(auto, using(crate::proofs::RoleLemmas::of_roles))]
pub fn roles(alloc: Global) -> Option<Roles> {
    Some(Roles {
        handlers: List::of(Vec::new(alloc)),
        off: name(alloc, "irq_off")?,
        on: name(alloc, "irq_on")?,
        save: name(alloc, "irq_save")?,
        restore: name(alloc, "irq_restore")?,
        levels: List::of(Vec::new(alloc)),
    })
}
