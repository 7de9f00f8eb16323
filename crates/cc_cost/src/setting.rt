ghost use Rattle.std.specs.Prelude.{◌≡◌};

use crate::key::Key;
use cc_program::num::Name;

/// What a row of three fields says.
#[derive(Drop)]
pub struct Setting {
    pub key: Key,
    pub second: Name,
    pub third: Name,
}

/// A row: what it says, or the rule that leaves it without a meaning.
#[derive(Drop)]
pub enum Line {
    Says(Setting),
    Breaks(u8),
}
