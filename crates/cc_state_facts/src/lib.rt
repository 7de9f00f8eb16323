//! Facts about all runs of a program: which values its cells may have, where the flag may be on, who reaches what.
#![tactic(auto)]

mod facts;
mod levels;
mod marks;
mod order;
mod pairs;
mod points;
mod rows;
mod sets;
mod shared_sets;

pub use cc_state_shared::Shared;
pub use facts::{Facts, Key, PointFact, Row};
pub use levels::{has_level, may_enter, one_may_enter};
pub use marks::{are_levels_within, levels_of_both};
pub use pairs::is_pair;
pub use points::{copied_point, is_point_below, joined_point};
