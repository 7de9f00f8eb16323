//! The type of sets of addresses.

ghost use Rattle.std.specs.Prelude.{IsTrue};
ghost use Rattle.cc_places.specs.Members.{are_members};

use cc_program::Address;
use cc_program::num::List;

/// How many addresses a set can tell exactly.
pub(crate) const MOST_EXACT: usize = 64;

/// A set of addresses: at most 64 exact ones, or else places, of whose arrays it has every element.
///
/// An automatic address stands for those of all activations, and is kept with the activation 0. A place
/// is kept with each index 0. The members stand in the order in which addresses are listed.
#[derive(Debug, Drop)]
pub struct Addrs {
    pub is_exact: bool,
    pub members: List<Address>,
    pub ghost listed: { IsTrue (are_members is_exact members) },
}
