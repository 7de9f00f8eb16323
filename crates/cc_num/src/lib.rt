//! What every crate stands on: lists and boxes that contracts see as what they hold, names, want of
//! memory, and C's integer types (C99 6.2.5) as a target sizes them.
#![tactic(auto)]

mod arithmetic;
mod bits;
mod boxed;
mod conversion;
mod int_type;
mod law;
mod list;
mod no_memory;
mod op;
mod promotion;
mod target;

pub use arithmetic::{apply, apply_one};
pub use bits::bits_for;
pub use boxed::Boxed;
pub use conversion::convert;
pub use int_type::IntType;
pub use law::laws;
pub use list::{List, Name, at};
pub use no_memory::NoMemory;
pub use op::{BinOp, UnOp};
pub use promotion::{promote, usual};
pub use target::Target;
