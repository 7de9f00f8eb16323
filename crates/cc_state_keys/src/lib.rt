//! The keys of a program, those whose addresses are taken, and what is known of a program by point: the registers of its
//! functions, its tracked cells, and how many facts there are.
#![tactic(auto)]

mod cells;
mod counts;
mod found;
mod listed;
mod lists;
mod numbers;
mod taken;
mod text;

pub use cc_cells as cells_crate;
pub use cc_eval as eval;
pub use cc_eval::typed as typed_crate;
pub use cc_flow as flow;
pub use cc_registers as registers_crate;
pub use cc_state_facts as state_facts;
pub use cells::{cell_key, member_key};
pub use counts::count_facts;
pub use found::{is_key, key_number};
pub use listed::keys;
pub use numbers::{number_in, registers, tracked};
pub use text::taken_keys;
