//! Values and the sets that facts have.

ghost use Rattle.std.specs.Prelude.{◌≡◌, ◌↔◌, IsTrue};
ghost use Rattle.std.specs.Option.{option_copied};
ghost use Rattle.cc_program.specs.declared.program.Program.{Program as ProgramOf};
ghost use Rattle.cc_state_holds.specs.Parts.{HasIn, IsScalarIn};
ghost use Rattle.cc_state_reads.specs.CcStateKeys.Keys.{keys_of};
ghost use Rattle.cc_state_reads.specs.CcStateOperators.Domains.{domain};
ghost use Rattle.cc_state_reads.specs.Reads.{whole_of as whole_of_of};

use crate::basis::Basis;
use cc_program::Value;
use cc_program::num::at;
use cc_state_reads::lattice::IntDomain;
use cc_state_reads::places::Abs;
use cc_state_reads::state_facts::{Facts, Key};
use cc_state_reads::state_keys::key_number;

/// Whether a set is there, and has the value.
pub fn has<I: IntDomain>(set: Option<&Abs<I>>, value: &Value) -> bool
    ensures { IsTrue result ↔ HasIn (domain I.Has I.IsBelow I.OpGives I.OpOneGives I.ToGives I.KeepGives I.members_of) (option_copied set.entry) value.now }
{
    match set {
        None => false,
        Some(set) => set.has(value),
    }
}

/// The whole-run set of a key.
fn whole_of<I>(facts: &Facts<I>, key: Key) -> Option<&Abs<I>>
    ensures { (p : ProgramOf) → facts.now.keys ≡ keys_of p → option_copied result ≡ whole_of_of p facts.now key }
{
    let number = key_number(facts.keys.all(), key)?;
    at(facts.whole.all(), number)
}

/// Whether what a scalar holds, if it was written, is in the whole-run set of its key.
pub fn is_scalar_in<I: IntDomain>(b: &Basis<I>, key: Key, held: Option<&Value>) -> bool
    requires { b.now.facts.now.keys ≡ keys_of b.now.program.now }
    ensures { IsTrue result ↔ IsScalarIn (domain I.Has I.IsBelow I.OpGives I.OpOneGives I.ToGives I.KeepGives I.members_of) b.now.program.now b.now.facts.now key (option_copied held.entry) }
{
    match held {
        None => true,
        Some(value) => has(whole_of(b.facts, key), value),
    }
}
