ghost use Rattle.std.specs.Prelude.{◌≤◌, ℕ};
ghost use Rattle.cc_rules.specs.CcFlow.Points.{count_of};
ghost use Rattle.cc_program.specs.declared.program.Program.{Program};
ghost use Rattle.cc_rules.specs.Rules.{IsSolution};
ghost use Rattle.cc_state.specs.Covered.{Covers};
ghost use Rattle.cc_state.specs.Shape.{HaveShape};
ghost use Rattle.cc_rules.specs.CcStateFacts.declared.facts.Facts.{Facts};
ghost use Rattle.cc_state_values_sound.specs.CcStateOperators.Domains.{domain};
ghost use Rattle.cc_state_values_sound.specs.CcSyntax.Normal.{IsNormal};

use cc_state_values_sound::lattice::IntDomain;

/// What facts say of the runs of their program. The call does nothing.
pub fn solutions<I: IntDomain>()
    // Facts of the shape of a program in normal form that meet each constraint of it cover all its runs.
    ensures covers { (p : Program) → IsNormal p → count_of p ≤ 65536 → (facts : Facts I) →
        HaveShape (domain I.Has I.IsBelow I.OpGives I.OpOneGives I.ToGives I.KeepGives I.members_of) p facts →
        IsSolution (domain I.Has I.IsBelow I.OpGives I.OpOneGives I.ToGives I.KeepGives I.members_of) p facts →
        Covers (domain I.Has I.IsBelow I.OpGives I.OpOneGives I.ToGives I.KeepGives I.members_of) p facts }
{}
