//! Reading C: texts become one program, or the first cause why they are none is told (C99 5.1.1.2).
#![tactic(auto)]

mod law;
mod reading;
mod refusal;
mod text;

pub use law::laws;
pub use reading::read;
pub use refusal::{ReadRefusal, Refusal};
