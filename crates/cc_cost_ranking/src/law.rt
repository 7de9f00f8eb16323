ghost use Rattle.std.specs.Prelude.{◌≡◌, ℤ, true, List, [], ◌∷◌, IsPermutation, IsSorted};
ghost use Rattle.std.specs.declared.cmp.Ordering.{Ordering};
ghost use Rattle.cc_code.specs.declared.kinds.Coding.TheVariants as kind;
ghost use Rattle.cc_cost_ranking.specs.declared.types.Budgets.{Budgets};
ghost use Rattle.cc_cost_ranking.specs.declared.types.Costed.{Costed};
ghost use Rattle.cc_cost_ranking.specs.declared.types.Weights.{Weights};
ghost use Rattle.cc_cost_ranking.specs.Estimates.{cost, estimate_of};
ghost use Rattle.cc_cost_ranking.specs.Examples.{costed, ten_of_code, three_of_time, six_five_four, three_one_none, three_two_one, one_of_each};
ghost use Rattle.cc_cost_ranking.specs.Ranking.{are_within, rank_order, taken_of, AreApart};

/// What the definition of ranking keeps, for all slots, and what it gives for some; what some slots cost. The call does nothing.
pub fn laws()
    // Slots of which no two have one number stand in one rank order alone.
    ensures one_order { (weights : Weights) (list xs ys : List Costed) → AreApart list → IsPermutation list xs → IsPermutation list ys
        → IsSorted (rank_order weights) xs → IsSorted (rank_order weights) ys → xs ≡ ys }

    // What is taken is within both budgets, whatever there is.
    ensures within { (budgets : Budgets) (order : List Costed) → are_within budgets (taken_of budgets order) ≡ true }

    // 6 bits at a price of 3 come before 7 bits at a price of 4.
    ensures dearer { (weights : Weights) → weights.code ≡ 1 → weights.time ≡ 1 → rank_order weights (costed 5 6 1 1) (costed 0 7 2 1) ≡ Ordering.Less }

    // 4 bits at a price of 2 are as much as 6 bits at a price of 3, so the lesser number comes first.
    ensures tied { (weights : Weights) → weights.code ≡ 1 → weights.time ≡ 1 → rank_order weights (costed 3 4 1 0) (costed 1 6 1 1) ≡ Ordering.Greater }

    // Within 10 of code, of slots that cost 6, 5 and 4: the second one is left, and the third one fills the budget up.
    ensures left { (taken_of ten_of_code six_five_four).slots ≡ 0 ∷ 2 ∷ [] }

    // Within 3 of time as well, of slots that cost 3, 1 and 0.
    ensures both { (taken_of three_of_time three_one_none).slots ≡ 4 ∷ 6 ∷ [] }

    // Three reads, two writes and a guard of numbers that stand as they are; the same of one value costs nothing.
    ensures direct { estimate_of three_two_one kind.Direct 4 ≡ cost 34 25 }
    ensures constant { estimate_of three_two_one kind.Const 1 ≡ cost 0 0 }

    // A read and a write of an array in a table of 4 members, and of one whose numbers are counted from the least one on.
    ensures table { estimate_of one_of_each kind.Table 4 ≡ cost 42 27 }
    ensures biased { (low : ℤ) → estimate_of one_of_each (kind.Biased low) 4 ≡ cost 28 19 }
{}
