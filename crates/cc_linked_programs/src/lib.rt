//! Sound units link to a sound program.
#![tactic(auto)]

mod content_law;
mod name_law;
mod program_law;
mod program_view_law;
mod renumbered_law;
mod sound_law;
mod thing_law;
mod unit_law;
mod view_law;

pub use content_law::{device_laws, function_laws, object_laws};
pub use name_law::program_name_laws;
pub use program_law::program_laws;
pub use program_view_law::program_view_laws;
pub use renumbered_law::renumbered_view_laws;
pub use sound_law::sound_program_laws;
pub use thing_law::thing_laws;
pub use unit_law::linked_unit_laws;
pub use view_law::{object_view_laws, structure_laws};
