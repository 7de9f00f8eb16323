//! What the rules ask at a point that is reached.

ghost use Rattle.std.specs.Prelude.{◌<◌, ◌≤◌, ◌^◌, length, IfOk};
ghost use Rattle.cc_rules_asked.specs.CcFlow.Points.{count_of};
ghost use Rattle.cc_rules_asked.specs.CcRules.Rules.{act_at};
ghost use Rattle.cc_rules_constraints.specs.Asking.{IsAskedHere};
ghost use Rattle.cc_rules_constraints.specs.Ready.{IsReady};
ghost use Rattle.cc_rules_asked.specs.CcRulesFlows.Here.{IsHere};
ghost use Rattle.cc_rules_asked.specs.CcRulesFlows.Nexts.{IsPoint, statement_of};
ghost use Rattle.cc_rules_asked.specs.CcRulesFlows.View.{act_view};
ghost use Rattle.cc_rules_made.specs.Rules.{AreOf};
ghost use Rattle.cc_rules_numbered.specs.Numbered.{rule_view};
ghost use Rattle.cc_rules_grow.specs.CcState.Shape.{HaveShape};
ghost use Rattle.cc_rules_asked.specs.CcStateOperators.Domains.{domain};
ghost use Rattle.cc_rules_asked.specs.CcSyntax.Normal.{IsNormal};

use cc_program::num::NoMemory;
use cc_rules_asked::lattice::IntDomain;
use cc_rules_asked::rules_flows::{Act, Here};
use cc_rules_asked::{
    Asked, asked_by_handlers, asked_by_return, asked_by_stability, asked_by_touch, asked_by_write,
};
use cc_rules_calls::{asked_by_back, asked_by_call, laws as call_laws};
use cc_rules_here::act_here;
use cc_rules_made::Rules;
use cc_rules_numbered::Rule;
use cc_rules_onward::{asked_by_flows, laws as test_laws};
use std::alloc::Global;

/// What a rule asks there, by what the statement does.
fn asked_here<I: IntDomain>(
    alloc: Global,
    rules: &Rules<'_>,
    here: &Here<'_, I>,
    act: Act<'_>,
    rule: Rule,
) -> Result<Vec<Asked<I>>, NoMemory>
    requires { IsReady (domain I.Has I.IsBelow I.OpGives I.OpOneGives I.ToGives I.KeepGives I.members_of) rules.now here.now (act_view act) }
    ensures { IfOk result (λ asked. IsAskedHere (domain I.Has I.IsBelow I.OpGives I.OpOneGives I.ToGives I.KeepGives I.members_of) here.now (rule_view rule) (act_view act.entry) asked.items) }
{
    match rule {
        Rule::Initial | Rule::Start => Ok(Vec::new(alloc)),
        Rule::Flow => asked_by_flows(alloc, here, act),
        Rule::Write => asked_by_write(alloc, here, act),
        Rule::Touch => asked_by_touch(alloc, here, act),
        Rule::Call => asked_by_call(alloc, here, rules.functions.all(), act),
        Rule::Back => asked_by_back(alloc, here, rules.functions.all(), act),
        Rule::Return => asked_by_return(alloc, here, act),
        Rule::Handler => asked_by_handlers(alloc, here, rules.handlers.all()),
        Rule::Stability => asked_by_stability(alloc, here, rules.cell_keys.all()),
    }
}

/// What a rule asks at a point of a program in normal form that is reached, by facts of its shape.
pub(crate) fn asked_by_here<'a, I: IntDomain>(
    alloc: Global,
    rules: &'a Rules<'_>,
    here: &Here<'a, I>,
    rule: Rule,
) -> Result<Vec<Asked<I>>, NoMemory>
    requires normal { IsNormal here.now.context.program.now }
    requires rules { AreOf here.now.context.program.now rules.now }
    requires shape { HaveShape (domain I.Has I.IsBelow I.OpGives I.OpOneGives I.ToGives I.KeepGives I.members_of) here.now.context.program.now here.now.facts.now }
    requires here { IsHere (domain I.Has I.IsBelow I.OpGives I.OpOneGives I.ToGives I.KeepGives I.members_of) here.now }
    requires point { IsPoint here.now.context.program.now here.now.number here.now.context.id here.now.context.func.now here.now.point.now }
    requires few { count_of here.now.context.program.now ≤ 65536 }
    requires few_keys { length here.now.facts.now.keys < 2 ^ 32 }
    ensures { IfOk result (λ asked. IsAskedHere (domain I.Has I.IsBelow I.OpGives I.OpOneGives I.ToGives I.KeepGives I.members_of) here.now (rule_view rule) (act_at (statement_of here.now.context.func.now here.now.point.now) here.now.context.func.now) asked.items) }
{
    call_laws::<I>();
    test_laws::<I>();
    let marks = rules.marks.all();
    let act = act_here(marks, here);
    asked_here(alloc, rules, here, act, rule)
}
