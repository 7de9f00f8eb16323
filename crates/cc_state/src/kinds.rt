//! Facts that cover a program.

ghost use Rattle.std.specs.Prelude.{◌≡◌};
ghost use Rattle.cc_state.specs.Covered.{IsCovered};
ghost use Rattle.cc_state_reads.specs.CcStateOperators.Domains.{domain};

use cc_program::Program;
use cc_state_reads::lattice::IntDomain;
use cc_state_reads::state_facts::Facts;

/// Facts that cover their program: each state of each of its runs lies in them, for all inputs and under all arrivals. The
/// program is in normal form and within the limits.
pub struct Covered<'p, I: IntDomain> {
    pub program: &'p Program,
    pub facts: Facts<I>,
    pub ghost covers: { ∥ IsCovered (domain I.Has I.IsBelow I.OpGives I.OpOneGives I.ToGives I.KeepGives I.members_of) program.now facts ∥₁ },
}
