//! What a program has of the things that its sources name: definitions in order of the text, devices, what has a name,
//! and which functions may be interrupt handlers.
#![tactic(auto)]

mod facts;
mod handler;
mod order;

pub use facts::{definition, function_of, is_function, own_name};
pub use handler::{entry_given, has_name, is_named_main, may_be_handler};
pub use order::{Kinds, defined, devices, kinds_of, named, thing_at};
