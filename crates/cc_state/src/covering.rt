//! Facts are kept that cover a program.

ghost use Rattle.std.specs.Prelude.{◌≡◌};
ghost use Rattle.cc_state.specs.Covered.{IsCovered};
ghost use Rattle.cc_state_reads.specs.CcStateOperators.Domains.{domain};

use crate::kinds::Covered;
use cc_program::Program;
use cc_state_reads::lattice::IntDomain;
use cc_state_reads::state_facts::Facts;

/// Facts that cover a program, with the program.
pub fn covered<I: IntDomain>(p: &Program, facts: Facts<I>) -> Covered<'_, I>
    requires { IsCovered (domain I.Has I.IsBelow I.OpGives I.OpOneGives I.ToGives I.KeepGives I.members_of) p.now facts }
    ensures program { result.program.now ≡ p.now }
    ensures facts { result.facts ≡ facts }
{
    Covered { program: p, facts }
}
