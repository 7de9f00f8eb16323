//! What expressions designate before they are values, and what is made of it, or which type rule it breaks
//! (C99 6.3.2.1, 6.5.2, 6.5.3.2, 6.5.3.4, 6.5.4).
#![tactic(auto)]

mod assignment;
mod calls;
mod casts;
mod designated;
mod member;
mod pointers;
mod values;

pub use assignment::{assign_to, change_of, stepped_after, stepped_before};
pub use calls::{called, intrinsic};
pub use casts::{cast, fits_pointer, no_device, size_value};
pub use designated::{DesignatedType, TypedExpr, owned_place, placed, pointed_to, valued};
pub use member::{arrow, dot, position_of};
pub use pointers::{address, element, indirection, subscripted};
pub use values::{null, value_at};
