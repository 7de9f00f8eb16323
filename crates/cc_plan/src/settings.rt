//! What a profile says of weights and budgets.

ghost use Rattle.std.specs.Prelude.{◌≡◌};
ghost use Rattle.cc_cost_ranking.specs.Ranking.{AreWeights};
ghost use Rattle.cc_plan.specs.Settings.{budgets_of as budgets_of_profile, weights_of as weights_of_profile};

use cc_cost::Profile;
use cc_cost_ranking::{Budgets, Weights};

/// What a unit of code and one of time cost.
pub(crate) fn weights_of(profile: &Profile) -> Weights
    ensures value { result ≡ weights_of_profile profile.now }
    ensures few { AreWeights result }
{
    Weights {
        code: profile.weight_code,
        time: profile.weight_time,
    }
}

/// The most code and the most time that codings may cost together.
pub(crate) fn budgets_of(profile: &Profile) -> Budgets
    ensures { result ≡ budgets_of_profile profile.now }
{
    Budgets {
        code: profile.budget_code,
        time: profile.budget_time,
    }
}
