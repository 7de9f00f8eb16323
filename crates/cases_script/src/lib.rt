//! Scripts of cases: what their lines are, how they write bytes, and the page that an outcome is written on.
//!
//!     == sums wrap             a title, behind which a section begins
//!     $ int 2                  a setting, for the cases behind it in the section
//!     65535 + 1 in UInt        a case
//!
//! Blank lines may stand anywhere. A backslash begins an escape: `\n`, `\t`, `\\` and `\x7f` stand for a
//! byte each, and `\e` for none, so that an empty text is a case.
#![tactic(auto)]

mod bytes;
mod line;
mod page;
mod script;

pub use bytes::bytes_of;
pub use line::{Line, line_of, split};
pub use page::Page;
pub use script::{Cases, run};
