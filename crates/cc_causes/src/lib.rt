//! Why typed units are no program: the first cause that there is (C99 6.2.7, 6.9, 5.1.2.2.1).
#![tactic(auto)]

mod causes;
mod entries;
mod fault;
mod numbers;

pub use causes::first_fault;
pub use entries::entry_at;
pub use fault::LinkFault;
pub use numbers::structures_in;
