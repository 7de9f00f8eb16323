//! Programs that are printed read back as trees.
#![tactic(auto)]

mod external_law;
mod fit_law;
mod function_law;
mod item_law;
mod statement_law;
mod unit_law;
mod value_law;

pub use external_law::texts_are_of_externals;
pub use fit_law::normal_programs_fit;
pub use function_law::declarations_read_back;
pub use item_law::items_read_back;
pub use statement_law::statements_read_back;
pub use unit_law::programs_read_back;
pub use value_law::values_read_back;
