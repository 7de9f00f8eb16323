ghost use Rattle.std.specs.Prelude.{◌≡◌, ◌⊎◌, pos, [], ◌∷◌, Some};
ghost use Rattle.cc_num.specs.declared.op.BinOp.{BinOp};
ghost use Rattle.cc_num.specs.declared.int_type.IntType.{IntType};
ghost use Rattle.cc_num.specs.declared.target.Target.{Target};
ghost use Rattle.cc_sets.specs.declared.vals.Vals.{Vals as Set};
ghost use Rattle.cc_sets.specs.Results.{OpResult, IsKept};
ghost use Rattle.cc_sets.specs.Rungs.{ValsHas, IsHull, vals_members, vals_ends};
ghost use Rattle.cc_sets.specs.Ranges.{numbers_from};

/// What the definitions that this crate's contracts cite give of some sets. The call does nothing.
pub fn laws()
    // A pair that traps has no result: 10 / 0 and 10 / 5.
    ensures zero_divisor { (a b r : Set) (c : Target) → vals_members a ≡ Some (pos 10 ∷ []) → vals_members b ≡ Some (pos 0 ∷ pos 5 ∷ []) →
        IsHull (OpResult BinOp.Div a b IntType.Int c) r → vals_members r ≡ Some (pos 2 ∷ []) }

    // What passes with no member of the other is dropped: of 1 and 3 by `!=` with 3.
    ensures kept_of_two { (a b r : Set) → vals_members a ≡ Some (pos 1 ∷ pos 3 ∷ []) → vals_members b ≡ Some (pos 3 ∷ []) →
        IsHull (IsKept BinOp.Ne a b) r → vals_members r ≡ Some (pos 1 ∷ []) }

    // More than 64 members make a range: 0 to 63 and 80.
    ensures too_many { (a b r : Set) → vals_members a ≡ Some (numbers_from (pos 0) 64) → vals_members b ≡ Some (pos 80 ∷ []) →
        IsHull (λ v. ValsHas a v ⊎ ValsHas b v) r → vals_ends r ≡ Some (pos 0, pos 127) }
{}
