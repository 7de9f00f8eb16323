//! How often points are come to.

ghost use Rattle.std.specs.Prelude.{◌≡◌, ◌≤◌, ◌^◌, All, length};
ghost use Rattle.cc_plan_costs.specs.Counts.{func_of as func_of_point, weight_at as weight_at_point};
ghost use Rattle.cc_plan_costs.specs.Sites.{total_of as total_of_points};

use cc_program::num::at;
use cc_rules_flows::flow::Point;

/// The function in which a point stands, by its id.
pub(crate) fn func_of(points: &[Point], n: u32) -> u32
    ensures { result ≡ func_of_point points.now n }
{
    match at(points, n as usize) {
        None => 0,
        Some(point) => point.func,
    }
}

/// How often a point is come to, where functions run so often.
pub(crate) fn weight_at(points: &[Point], counts: &[u64], n: u32) -> u64
    requires { All (λ c. c ≤ 2 ^ 30) counts.now }
    ensures value { result ≡ weight_at_point points.now counts.now n }
    ensures most { result ≤ 2 ^ 30 }
{
    match at(counts, func_of(points, n) as usize) {
        None => 1,
        Some(count) => *count,
    }
}

/// How often some points are come to.
pub(crate) fn total_of(points: &[Point], counts: &[u64], these: &[u32]) -> u64
    requires counts { All (λ c. c ≤ 2 ^ 30) counts.now }
    requires few { length these.now ≤ 2 ^ 16 }
    ensures value { result ≡ total_of_points points.now counts.now these.now }
    ensures most { result ≤ 2 ^ 46 }
{
    let mut total: u64 = 0;
    for n in these {
        total += weight_at(points, counts, *n);
    }
    total
}
