ghost use Rattle.std.specs.Prelude.{◌≡◌, ℕ, false, length};
ghost use Rattle.cc_rules_grow.specs.CcFlow.declared.types.Point.{Point};
ghost use Rattle.cc_program.specs.declared.func.Func.{Func};
ghost use Rattle.cc_program.specs.declared.program.Program.{Program};
ghost use Rattle.cc_rules_grow.specs.CcRules.Constraints.{Constraint, Touch, Handler, Stability, at_point};
ghost use Rattle.cc_rules_grow.specs.CcRules.Rules.{IsAsked};
ghost use Rattle.cc_rules_grow.specs.CcRulesFlows.Nexts.{IsPoint};
ghost use Rattle.cc_rules_grow.specs.CcRulesNeeds.declared.needs.Part.{Part};
ghost use Rattle.cc_rules_grow.specs.CcRulesNeeds.declared.needs.Slot.{Slot};
ghost use Rattle.cc_rules_grow.specs.CcRulesNeeds.Flowing.{of_fact, needs_at};
ghost use Rattle.cc_rules_grow.specs.CcRulesNeeds.Needs.{Needs};
ghost use Rattle.cc_rules_grow.specs.CcRulesNeeds.Points.{IsRaisedAt};
ghost use Rattle.cc_rules_grow.specs.CcRulesNeeds.Raised.{MayGet, IsPut};
ghost use Rattle.cc_rules_shaped.specs.Shaped.{is_at_point, Fits, AllowsLevels, AreFit, IsLaidOut};
ghost use Rattle.cc_rules_grow.specs.CcState.Shape.{IsPointFact, HaveShape};
ghost use Rattle.cc_rules_grow.specs.CcStateFacts.declared.facts.Facts.{Facts};
ghost use Rattle.cc_rules_grow.specs.CcStateFacts.declared.facts.PointFact.{PointFact};
ghost use Rattle.cc_rules_grow.specs.CcStateKeys.Tracked.{registers, tracked};
ghost use Rattle.cc_rules_grow.specs.CcStateOperators.Domains.{domain};
ghost use Rattle.cc_state_values_fit.specs.Fit.{HasWholes};
ghost use Rattle.cc_rules_grow.specs.CcSyntax.Normal.{IsNormal};

use cc_rules_grow::lattice::IntDomain;

/// What facts of a program's shape may get, and that they keep the shape. The call does nothing.
pub fn laws<I: IntDomain>()
    // A slot of a key or a function may get each part that fits it.
    ensures may_get { (p : Program) (facts : Facts I) → HaveShape (domain I.Has I.IsBelow I.OpGives I.OpOneGives I.ToGives I.KeepGives I.members_of) p facts → (slot : Slot) (more : Part I) → is_at_point slot ≡ false →
        Fits (domain I.Has I.IsBelow I.OpGives I.OpOneGives I.ToGives I.KeepGives I.members_of) p slot more → MayGet slot more facts }

    // Facts that get such a part keep the shape, where its levels are allowed.
    ensures put { (p : Program) (facts others : Facts I) → HaveShape (domain I.Has I.IsBelow I.OpGives I.OpOneGives I.ToGives I.KeepGives I.members_of) p facts → (slot : Slot) (more : Part I) → is_at_point slot ≡ false →
        Fits (domain I.Has I.IsBelow I.OpGives I.OpOneGives I.ToGives I.KeepGives I.members_of) p slot more →
        AllowsLevels (domain I.Has I.IsBelow I.OpGives I.OpOneGives I.ToGives I.KeepGives I.members_of) p slot more facts →
        IsPut I.IsBelow slot more facts others → HaveShape (domain I.Has I.IsBelow I.OpGives I.OpOneGives I.ToGives I.KeepGives I.members_of) p others }

    // So do facts in which a point rises by what is of the shape of its function.
    ensures raised { (p : Program) (facts others : Facts I) → HaveShape (domain I.Has I.IsBelow I.OpGives I.OpOneGives I.ToGives I.KeepGives I.members_of) p facts → (n id : ℕ) (f : Func) (point : Point) (flow : PointFact I) →
        IsPoint p n id f point → IsPointFact (domain I.Has I.IsBelow I.OpGives I.OpOneGives I.ToGives I.KeepGives I.members_of) p f flow →
        IsRaisedAt I.IsBelow facts n flow others → HaveShape (domain I.Has I.IsBelow I.OpGives I.OpOneGives I.ToGives I.KeepGives I.members_of) p others }

    // What is known at a point is of its shape where it is laid out as the function has it and what is needed of it fits.
    ensures laid_out { (p : Program) (n id : ℕ) (f : Func) (point : Point) (fact : PointFact I) → IsPoint p n id f point → IsLaidOut (domain I.Has I.IsBelow I.OpGives I.OpOneGives I.ToGives I.KeepGives I.members_of) p f fact →
        AreFit (domain I.Has I.IsBelow I.OpGives I.OpOneGives I.ToGives I.KeepGives I.members_of) p (needs_at n (length (registers f)) (length (tracked p)) (of_fact fact)) →
        IsPointFact (domain I.Has I.IsBelow I.OpGives I.OpOneGives I.ToGives I.KeepGives I.members_of) p f fact }

    // What accesses of the code of handlers ask of such facts fits, each need once facts have those before it.
    ensures touch { (p : Program) (facts : Facts I) → HaveShape (domain I.Has I.IsBelow I.OpGives I.OpOneGives I.ToGives I.KeepGives I.members_of) p facts → (n : ℕ) (ns : Needs I) →
        IsAsked (domain I.Has I.IsBelow I.OpGives I.OpOneGives I.ToGives I.KeepGives I.members_of) p facts (at_point n Touch) ns →
        AreFit (domain I.Has I.IsBelow I.OpGives I.OpOneGives I.ToGives I.KeepGives I.members_of) p ns }

    // So does what handlers ask that may enter,
    ensures handler { (p : Program) (facts : Facts I) → HaveShape (domain I.Has I.IsBelow I.OpGives I.OpOneGives I.ToGives I.KeepGives I.members_of) p facts → (n : ℕ) (ns : Needs I) →
        IsAsked (domain I.Has I.IsBelow I.OpGives I.OpOneGives I.ToGives I.KeepGives I.members_of) p facts (at_point n Handler) ns →
        AreFit (domain I.Has I.IsBelow I.OpGives I.OpOneGives I.ToGives I.KeepGives I.members_of) p ns }

    // and what is asked of the tracked cells that they may write.
    ensures stability { (p : Program) (facts : Facts I) → HaveShape (domain I.Has I.IsBelow I.OpGives I.OpOneGives I.ToGives I.KeepGives I.members_of) p facts → (n : ℕ) (ns : Needs I) →
        IsAsked (domain I.Has I.IsBelow I.OpGives I.OpOneGives I.ToGives I.KeepGives I.members_of) p facts (at_point n Stability) ns →
        AreFit (domain I.Has I.IsBelow I.OpGives I.OpOneGives I.ToGives I.KeepGives I.members_of) p ns }

    // In a program in normal form so does what each constraint asks, where the domain has the set of all values of each type.
    ensures asked { (p : Program) → IsNormal p → HasWholes (domain I.Has I.IsBelow I.OpGives I.OpOneGives I.ToGives I.KeepGives I.members_of) p.target → (facts : Facts I) →
        HaveShape (domain I.Has I.IsBelow I.OpGives I.OpOneGives I.ToGives I.KeepGives I.members_of) p facts → (c : Constraint) (ns : Needs I) →
        IsAsked (domain I.Has I.IsBelow I.OpGives I.OpOneGives I.ToGives I.KeepGives I.members_of) p facts c ns →
        AreFit (domain I.Has I.IsBelow I.OpGives I.OpOneGives I.ToGives I.KeepGives I.members_of) p ns }
{}
