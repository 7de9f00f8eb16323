ghost use Rattle.std.specs.Prelude.{◌≡◌, ◌&&◌, ℕ, List};
ghost use Rattle.std.specs.List.{list_any};
ghost use Rattle.cc_rules_flows.specs.CcFlow.declared.types.Point.{Point};
ghost use Rattle.cc_plan_costs.specs.Guards.{from_at, is_entered, levels_to, running_at};
ghost use Rattle.cc_sets.specs.declared.vals.Vals.{Vals};
ghost use Rattle.cc_slots_accesses.specs.Known.{may_be_on};
ghost use Rattle.cc_rules_flows.specs.CcStateFacts.declared.facts.Facts.{Facts};
ghost use Rattle.cc_rules_flows.specs.CcStateFacts.Facts.{fact_at};
ghost use Rattle.cc_rules_flows.specs.CcStateFacts.Levels.{one_may_enter};

/// When an access is guarded against others. The call does nothing.
pub fn laws()
    // It is where the flag may be on, and a handler may enter from which one of the others is reached.
    ensures { (points : List Point) (facts : Facts Vals) (others : List ℕ) (n : ℕ) →
        is_entered points facts (levels_to points facts others) n ≡ (may_be_on (fact_at facts n) && list_any (λ other. one_may_enter (running_at points facts n) (from_at points facts other)) others) }
{}
