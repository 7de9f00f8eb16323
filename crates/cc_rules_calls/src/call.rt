//! Calls.

ghost use Rattle.std.specs.Prelude.{◌≡◌, option_map};
ghost use Rattle.cc_rules_calls.specs.Here.{called as called_of};
ghost use Rattle.cc_state_points.specs.CcRulesFlows.View.{act_view};

use cc_program::Expr;
use cc_state_points::rules_flows::Act;

/// A call, with the register that gets the result.
#[derive(Clone, Copy)]
pub(crate) struct Call<'p> {
    pub result: Option<u32>,
    pub function: &'p Expr,
    pub args: &'p [Expr],
}

/// The call that a statement is.
pub(crate) fn called(act: Act<'_>) -> Option<Call<'_>>
    ensures { option_map (λ c. (c.result, (c.function.now, c.args.now))) result ≡ called_of (act_view act.entry) }
{
    match act {
        Act::Calls(result, function, args) => Some(Call {
            result,
            function,
            args,
        }),
        _ => None,
    }
}
