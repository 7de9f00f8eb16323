//! What a return asks: that the set of the function's results has what is returned.

ghost use Rattle.std.specs.Prelude.{◌≡◌, IfOk};
ghost use Rattle.std.specs.Option.{option_copied};
ghost use Rattle.cc_rules.specs.Constraints.{Return};
ghost use Rattle.cc_rules_asked.specs.Asks.{AsksHere, ArePureHere, returned as returned_of};
ghost use Rattle.cc_rules.specs.CcRulesFlows.Here.{IsHere};
ghost use Rattle.cc_rules.specs.CcRulesFlows.View.{act_view};
ghost use Rattle.cc_rules.specs.CcStateOperators.Domains.{domain};

use crate::asked::{Asked, only_part};
use cc_program::Expr;
use cc_program::num::NoMemory;
use cc_rules::lattice::IntDomain;
use cc_rules::rules_flows::{Act, Here};
use cc_rules::rules_needs::{Part, Slot};
use cc_rules::state_values::value_of;
use std::alloc::Global;

/// What is returned.
fn returned(act: Act<'_>) -> Option<&Expr>
    ensures { option_copied result ≡ returned_of (act_view act.entry) }
{
    match act {
        Act::Returns(e) => e,
        _ => None,
    }
}

/// What is asked by the rule of returns.
pub fn asked_by_return<I: IntDomain>(
    alloc: Global,
    here: &Here<'_, I>,
    act: Act<'_>,
) -> Result<Vec<Asked<I>>, NoMemory>
    requires here { IsHere (domain I.Has I.IsBelow I.OpGives I.OpOneGives I.ToGives I.KeepGives I.members_of) here.now }
    requires pure { ArePureHere (domain I.Has I.IsBelow I.OpGives I.OpOneGives I.ToGives I.KeepGives I.members_of) here.now (act_view act) }
    ensures { IfOk result (λ asked. AsksHere (domain I.Has I.IsBelow I.OpGives I.OpOneGives I.ToGives I.KeepGives I.members_of) here.now Return (act_view act.entry) asked.items) }
{
    match returned(act) {
        None => Ok(Vec::new(alloc)),
        Some(e) => {
            let set = value_of(alloc, &here.context, e)?;
            only_part(
                alloc,
                Slot::Result(here.context.id),
                Part::Values(Some(set)),
            )
        }
    }
}
