//! The structures of a unit: what a view knows of them, where they stand, and what their closing braces left.
#![tactic(auto)]

mod closing_law;
mod left_law;
mod standing_law;
mod view_law;

pub use closing_law::closing_laws;
pub use left_law::left_unit_laws;
pub use standing_law::standing_unit_laws;
pub use view_law::own_view;
