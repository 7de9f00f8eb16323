ghost use Rattle.std.specs.Prelude.{◌&&◌, ◌^◌, ◌-◌, map, nat_le, IsTrue};
ghost use Rattle.std.specs.List.{list_all};
ghost use Rattle.std.specs.Option.{option_map_or};
ghost use Rattle.cc_program.specs.CcWords.Names.{are_distinct};
ghost use Rattle.std.specs.Prelude.{true};

use cc_program::Roles;
use cc_program::num::{List, Name, Target};

/// What is told of a chip and of a program beside its sources.
#[derive(Drop)]
pub struct Profile {
    pub target: Target,
    pub roles: Roles,
    /// How often a function runs, in some unit of time; at most 1,000,000,000. No name stands twice.
    pub counts: List<(Name, u64)>,
    /// What a unit of code costs, at most 1,000.
    pub weight_code: u64,
    /// What a unit of time costs, at most 1,000.
    pub weight_time: u64,
    /// The most code that codings may cost, below 2^32.
    pub budget_code: Option<u64>,
    /// The most time that codings may cost, below 2^32.
    pub budget_time: Option<u64>,
    pub ghost counted: { IsTrue (list_all (λ c. nat_le c.1 1000000000) counts) },
    pub ghost counts_apart: { IsTrue (are_distinct (map (λ c. c.0) counts)) },
    pub ghost weighed: { IsTrue (nat_le weight_code 1000 && nat_le weight_time 1000) },
    pub ghost code_budgeted: { IsTrue (option_map_or (λ most. nat_le most (2 ^ 32 - 1)) budget_code true) },
    pub ghost time_budgeted: { IsTrue (option_map_or (λ most. nat_le most (2 ^ 32 - 1)) budget_time true) },
}
