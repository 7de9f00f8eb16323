//! What declarations declare, by where they stand and by their storage class: which names may be declared so, with which
//! types, and what is left known of them (C99 6.2, 6.7).
#![tactic(auto)]

mod category;
mod linked;
mod names;
mod setting;
mod tags;
mod types;
mod values;

pub use category::{Category, category_of};
pub use linked::{declare_automatic, declare_object, declare_static};
pub use names::{function_judged, name_judged};
pub use setting::{is_function_type, is_given, name_function, setting_of, storage_in};
pub use tags::{alias, declare_in_front, declared_name};
pub use types::{completed, composite, set_incomplete, type_agrees, type_given};
pub use values::{assignments, expr_given, leaf_given, no_expr, no_leaf};
