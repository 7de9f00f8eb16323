//! How many accesses a slot has, or how often they are made.

ghost use Rattle.std.specs.Prelude.{◌≡◌, ◌≤◌, ◌^◌, All, length};
ghost use Rattle.cc_plan_costs.specs.Sites.{guarded_of as guarded_of_points, guarded_weight as guarded_weight_at, sites_of as sites_of_slot};

use crate::guards::{against_access, against_write, is_array, is_entered};
use crate::weights::{total_of, weight_at};
use cc_cost_ranking::Sites;
use cc_program::Program;
use cc_rules_flows::flow::Point;
use cc_rules_flows::state_facts::Facts;
use cc_slots_types::Slot;

/// How often a point is come to, where a handler of one of some levels may enter there.
fn guarded_weight<I>(points: &[Point], counts: &[u64], facts: &Facts<I>, levels: u8, n: u32) -> u64
    requires { All (λ c. c ≤ 2 ^ 30) counts.now }
    ensures value { result ≡ guarded_weight_at points.now counts.now facts.now levels n }
    ensures most { result ≤ 2 ^ 30 }
{
    if is_entered(points, facts, levels, n) {
        weight_at(points, counts, n)
    } else {
        0
    }
}

/// How often those of some points are come to at which a handler of one of some levels may enter.
fn guarded_of<I>(
    points: &[Point],
    counts: &[u64],
    facts: &Facts<I>,
    levels: u8,
    these: &[u32],
) -> u64
    requires counts { All (λ c. c ≤ 2 ^ 30) counts.now }
    requires few { length these.now ≤ 2 ^ 16 }
    ensures value { result ≡ guarded_of_points points.now counts.now facts.now levels these.now }
    ensures most { result ≤ 2 ^ 46 }
{
    let mut total: u64 = 0;
    for n in these {
        total += guarded_weight(points, counts, facts, levels, *n);
    }
    total
}

/// The accesses of a slot, where functions run so often.
pub(crate) fn sites_of<I>(
    points: &[Point],
    counts: &[u64],
    facts: &Facts<I>,
    p: &Program,
    slot: &Slot,
) -> Sites
    requires counts { All (λ c. c ≤ 2 ^ 30) counts.now }
    requires reads { length slot.now.reads ≤ 2 ^ 16 }
    requires writes { length slot.now.writes ≤ 2 ^ 16 }
    ensures value { result ≡ sites_of_slot points.now counts.now facts.now p.now slot.now }
    ensures reads { result.reads ≤ 2 ^ 46 }
    ensures writes { result.writes ≤ 2 ^ 46 }
    ensures guarded { result.guarded ≤ 2 ^ 47 }
{
    let against_read = against_access(points, facts, p, slot);
    let against_write = against_write(points, facts, p, slot);
    let reads = slot.reads.all();
    let writes = slot.writes.all();
    Sites {
        reads: total_of(points, counts, reads),
        writes: total_of(points, counts, writes),
        guarded: guarded_of(points, counts, facts, against_read, reads)
            + guarded_of(points, counts, facts, against_write, writes),
        array: is_array(p, slot.key),
    }
}
