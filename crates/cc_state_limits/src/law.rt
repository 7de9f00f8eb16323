ghost use Rattle.cc_program.specs.declared.program.Program.{Program};
ghost use Rattle.cc_state.specs.Covered.{IsInLimits};
ghost use Rattle.cc_state.specs.Shape.{HaveShape};
ghost use Rattle.cc_state_reads.specs.CcStateFacts.declared.facts.Facts.{Facts};
ghost use Rattle.cc_state_limits.specs.Held.{most_members, AreHeld};
ghost use Rattle.cc_state_reads.specs.CcStateOperators.Domains.{domain};
ghost use Rattle.cc_state_room.specs.Small.{AreSmall};

use cc_state_reads::lattice::IntDomain;

/// What facts of a program's shape are within the limits. The call does nothing.
pub fn laws<I: IntDomain>()
    // They are small enough for their room to be counted.
    ensures small { (p : Program) (facts : Facts I) → IsInLimits (domain I.Has I.IsBelow I.OpGives I.OpOneGives I.ToGives I.KeepGives I.members_of) p facts →
        HaveShape (domain I.Has I.IsBelow I.OpGives I.OpOneGives I.ToGives I.KeepGives I.members_of) p facts → AreHeld facts → AreSmall most_members facts }
{}
