//! What declarations declare stands, and what they give automatic objects is typed.
#![tactic(auto)]

mod assignment_law;
mod content_law;
mod declaration_law;
mod place_law;
mod scalar_law;
mod state_law;
mod typed_law;
mod value_law;

pub use assignment_law::assignment_laws;
pub use content_law::content_laws;
pub use declaration_law::declaration_laws;
pub use place_law::place_laws;
pub use scalar_law::scalar_laws;
pub use state_law::declaring_laws;
pub use typed_law::typed_laws;
pub use value_law::value_laws;
