//! The parts of what it is for a state to lie in facts.

ghost use Rattle.std.specs.Prelude.{◌↔◌};
ghost use Rattle.cc_program.specs.declared.program.Program.{Program};
ghost use Rattle.cc_state.specs.View.{Lies};
ghost use Rattle.cc_state_reads.specs.CcStateFacts.declared.facts.Facts.{Facts};
ghost use Rattle.cc_state_holds.specs.Parts.{IsStateIn};
ghost use Rattle.cc_state_reads.specs.CcStateOperators.Domains.{domain};
ghost use Rattle.cc_steps.specs.State.{State};

use cc_state_reads::lattice::IntDomain;

/// A state lies in facts exactly where its parts do. The call does nothing.
pub fn parts<I: IntDomain>()
    ensures { (p : Program) (facts : Facts I) (s : State) → IsStateIn (domain I.Has I.IsBelow I.OpGives I.OpOneGives I.ToGives I.KeepGives I.members_of) p facts s ↔ Lies (domain I.Has I.IsBelow I.OpGives I.OpOneGives I.ToGives I.KeepGives I.members_of) p facts s }
{}
