ghost use Rattle.std.specs.Prelude.{◌≡◌, ℕ, length, Some};
ghost use Rattle.cc_program.specs.declared.func.Func.{Func};
ghost use Rattle.cc_program.specs.declared.program.Program.{Program};
ghost use Rattle.cc_rules_needs.specs.Points.{IsFactOf, AreWellFormed};
ghost use Rattle.cc_state.specs.Shape.{IsPointFact, HaveShape};
ghost use Rattle.cc_state_reads.specs.CcStateFacts.declared.facts.Facts.{Facts};
ghost use Rattle.cc_state_reads.specs.CcStateFacts.declared.facts.PointFact.{PointFact};
ghost use Rattle.cc_state_reads.specs.CcStateFacts.Orders.{AreAlike, ArePointsAlike, AreOrderly};
ghost use Rattle.cc_state_reads.specs.CcStateKeys.Tracked.{registers, tracked};
ghost use Rattle.cc_state_reads.specs.CcStateOperators.Domains.{domain};

use cc_state_reads::lattice::IntDomain;

/// What facts of a program's shape are like. The call does nothing.
pub fn laws<I: IntDomain>()
    // They are of one kind, and well formed: so their order by slots is that part by part.
    ensures alike { (p : Program) (f g : Facts I) → HaveShape (domain I.Has I.IsBelow I.OpGives I.OpOneGives I.ToGives I.KeepGives I.members_of) p f →
        HaveShape (domain I.Has I.IsBelow I.OpGives I.OpOneGives I.ToGives I.KeepGives I.members_of) p g → AreAlike f g }
    ensures well_formed { (p : Program) (f : Facts I) → HaveShape (domain I.Has I.IsBelow I.OpGives I.OpOneGives I.ToGives I.KeepGives I.members_of) p f → AreWellFormed f }

    // What is known at points of one function is of one kind, and of its registers and the tracked cells.
    ensures points_alike { (p : Program) (f : Func) (x y : PointFact I) → IsPointFact (domain I.Has I.IsBelow I.OpGives I.OpOneGives I.ToGives I.KeepGives I.members_of) p f x →
        IsPointFact (domain I.Has I.IsBelow I.OpGives I.OpOneGives I.ToGives I.KeepGives I.members_of) p f y → ArePointsAlike x y × AreOrderly x × AreOrderly y }
    ensures point_of { (p : Program) (f : Func) (x : PointFact I) → IsPointFact (domain I.Has I.IsBelow I.OpGives I.OpOneGives I.ToGives I.KeepGives I.members_of) p f x →
        IsFactOf (length (registers f)) (length (tracked p)) x }
{}
