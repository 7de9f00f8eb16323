ghost use Rattle.std.specs.Prelude.{◌<◌, ◌^◌};
ghost use Rattle.cc_state_points.specs.CcFlow.Points.{count_of};
ghost use Rattle.cc_rules_asked.specs.CcRules.Rules.{act_at};
ghost use Rattle.cc_state_points.specs.CcRulesFlows.declared.after.Here.{Here};
ghost use Rattle.cc_state_points.specs.CcRulesFlows.Here.{IsHere};
ghost use Rattle.cc_state_points.specs.CcRulesFlows.Nexts.{IsPoint, statement_of};
ghost use Rattle.cc_rules_onward.specs.Fits.{FitTests};
ghost use Rattle.cc_state_points.specs.CcState.Shape.{HaveShape};
ghost use Rattle.cc_state_points.specs.CcStateOperators.Domains.{domain};
ghost use Rattle.cc_state_points.specs.CcSyntax.Normal.{IsNormal};

use cc_state_points::lattice::IntDomain;

/// What normal form says of the statements that test, over facts of a program's shape. The call does nothing.
pub fn laws<I: IntDomain>()
    // The numbers of their points have 32 bits, where those of the program have, and their labels are values of integer types.
    ensures tests { (here : Here I) → IsNormal here.context.program.now → HaveShape (domain I.Has I.IsBelow I.OpGives I.OpOneGives I.ToGives I.KeepGives I.members_of) here.context.program.now here.facts.now → count_of here.context.program.now < 2 ^ 32 →
        IsHere (domain I.Has I.IsBelow I.OpGives I.OpOneGives I.ToGives I.KeepGives I.members_of) here → IsPoint here.context.program.now here.number here.context.id here.context.func.now here.point.now →
        FitTests (domain I.Has I.IsBelow I.OpGives I.OpOneGives I.ToGives I.KeepGives I.members_of) here (act_at (statement_of here.context.func.now here.point.now) here.context.func.now) }
{}
