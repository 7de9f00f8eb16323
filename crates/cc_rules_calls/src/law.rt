ghost use Rattle.std.specs.Prelude.{◌≡◌, ℕ, List, Some, slice_get};
ghost use Rattle.cc_rules_asked.specs.CcRules.Rules.{act_at};
ghost use Rattle.cc_rules_calls.specs.Backs.{gets, MayGetHere};
ghost use Rattle.cc_rules_calls.specs.Here.{MayCallHere};
ghost use Rattle.cc_state_points.specs.CcRulesFlows.declared.after.Here.{Here as HereOf};
ghost use Rattle.cc_state_points.specs.CcRulesFlows.Here.{IsHere};
ghost use Rattle.cc_state_points.specs.CcRulesFlows.Nexts.{IsPoint, statement_of};
ghost use Rattle.cc_rules_functions.specs.declared.functions.Function.{Function as FunctionOf};
ghost use Rattle.cc_rules_functions.specs.Functions.{AreFunctionsOf};
ghost use Rattle.cc_state_points.specs.CcState.Shape.{HaveShape};
ghost use Rattle.cc_state_points.specs.CcStateOperators.Domains.{domain};
ghost use Rattle.cc_state_points.specs.CcSyntax.Normal.{IsNormal};

use cc_state_points::lattice::IntDomain;

/// What holds of calls where a program is in normal form and facts are of its shape. The call does nothing.
pub fn laws<I: IntDomain>()
    // What may be called is a function of the program.
    ensures calls { (here : HereOf I) → IsNormal here.context.program.now → HaveShape (domain I.Has I.IsBelow I.OpGives I.OpOneGives I.ToGives I.KeepGives I.members_of) here.context.program.now here.facts.now →
        IsHere (domain I.Has I.IsBelow I.OpGives I.OpOneGives I.ToGives I.KeepGives I.members_of) here → IsPoint here.context.program.now here.number here.context.id here.context.func.now here.point.now →
        MayCallHere (domain I.Has I.IsBelow I.OpGives I.OpOneGives I.ToGives I.KeepGives I.members_of) here (act_at (statement_of here.context.func.now here.point.now) here.context.func.now) }

    // What gets a result is a register, and each function has a set of results, of integers where it gives 0 at its end.
    ensures results { (here : HereOf I) → IsNormal here.context.program.now → HaveShape (domain I.Has I.IsBelow I.OpGives I.OpOneGives I.ToGives I.KeepGives I.members_of) here.context.program.now here.facts.now →
        IsPoint here.context.program.now here.number here.context.id here.context.func.now here.point.now → (functions : List FunctionOf) → AreFunctionsOf here.context.program.now functions →
        (h : ℕ) (f : FunctionOf) → slice_get functions h ≡ Some f →
        MayGetHere (domain I.Has I.IsBelow I.OpGives I.OpOneGives I.ToGives I.KeepGives I.members_of) here (gets (act_at (statement_of here.context.func.now here.point.now) here.context.func.now)) h f }
{}
