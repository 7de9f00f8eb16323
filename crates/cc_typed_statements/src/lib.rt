//! Statements whose parts have types: conditions, jumps, labels and `switch` (C99 6.8).
#![tactic(auto)]

mod cases;
mod conditions;
mod jumps;
mod label;
mod statements;
mod switch;
mod switch_cases;

pub use cases::Cases;
pub use conditions::{body_of, effect, joined};
pub use jumps::{Jumps, returned};
pub use label::{case_label, default_label, label_done};
pub use statements::{do_statement, for_statement, if_statement, one, while_statement};
pub use switch::{switch_statement, switch_type};
pub use switch_cases::SwitchCases;
