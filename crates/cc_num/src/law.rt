ghost use Rattle.std.specs.Prelude.{◌≡◌, ◌≢◌, ◌↔◌, ◌^◌, ℕ, ℤ, true, false, pos, neg_ℤ, ◌+ℤ◌, ◌-ℤ◌, ◌*ℤ◌, ◌≤ℤ◌, ◌<ℤ◌, IsTrue, IfSome};
ghost use Rattle.std.specs.Int.{int_rem_euclid};
ghost use Rattle.cc_num.specs.declared.int_type.IntType.{IntType};
ghost use Rattle.cc_num.specs.declared.target.Target.{Target};
ghost use Rattle.cc_num.specs.declared.op.BinOp.{BinOp};
ghost use Rattle.cc_num.specs.declared.op.UnOp.{UnOp};
ghost use Rattle.cc_num.specs.Integers.{IsValueOf, bits_of, is_signed, most_of, is_value_of, represents_all, converted};
ghost use Rattle.cc_num.specs.Promotions.{promoted, usual_of};
ghost use Rattle.cc_num.specs.Results.{result_of, unary_result_of, is_shift, quotient_of, remainder_of, floor_of, IsQuotient, IsDivisionTrap};

/// What the definitions that this crate's contracts cite keep of C99: laws over all types, targets
/// and values. The call does nothing.
pub fn laws()
    // A conversion lands in the type, keeps the type's values, and keeps all modulo 2^w.
    ensures conversion_lands { (v : ℤ) (t : IntType) (c : Target) → IsValueOf t c (converted v t c) }
    ensures conversion_keeps { (v : ℤ) (t : IntType) (c : Target) → IsValueOf t c v → converted v t c ≡ v }
    ensures conversion_modulo { (v : ℤ) (t : IntType) (c : Target) → t ≢ IntType.Bool →
        int_rem_euclid (converted v t c) (pos (2 ^ bits_of t c)) ≡ int_rem_euclid v (pos (2 ^ bits_of t c)) }

    // What the tests of a range say.
    ensures value_test { (v : ℤ) (t : IntType) (c : Target) → IsTrue (is_value_of t c v) ↔ IsValueOf t c v }
    ensures representation_test { (s t : IntType) (c : Target) →
        IsTrue (represents_all t s c) ↔ ((v : ℤ) → IsValueOf s c v → IsValueOf t c v) }

    // Promotions and usual conversions give promoted types, whatever the order of the operands.
    ensures promotion_stays { (t : IntType) (c : Target) → promoted (promoted t c) c ≡ promoted t c }
    ensures usual_is_promoted { (a b : IntType) (c : Target) → promoted (usual_of a b c) c ≡ usual_of a b c }
    ensures usual_of_one { (t : IntType) (c : Target) → usual_of t t c ≡ promoted t c }
    ensures usual_commutes { (a b : IntType) (c : Target) → usual_of a b c ≡ usual_of b a c }

    // A result is a value of its type.
    ensures result_lands { (op : BinOp) (a b : ℤ) (t : IntType) (c : Target) →
        IsValueOf t c a → (is_shift op ≡ false → IsValueOf t c b) → IfSome (result_of op a b t c) (IsValueOf t c) }
    ensures unary_lands { (op : UnOp) (a : ℤ) (t : IntType) (c : Target) → IfSome (unary_result_of op a t c) (IsValueOf t c) }

    // `/` and `%` give a quotient and its remainder, and trap at 0 and MIN / -1 alone.
    ensures division { (a b q : ℤ) (t : IntType) (c : Target) → IsValueOf t c a → IsValueOf t c b →
        quotient_of a b t c ≡ Some q → (r : ℤ) × (remainder_of a b t c ≡ Some r) × IsQuotient a b q r }
    ensures division_traps { (a b : ℤ) (t : IntType) (c : Target) → IsValueOf t c a →
        (quotient_of a b t c ≡ None) ↔ IsDivisionTrap a b t c }

    // A shift to the right rounds down.
    ensures floor_low { (a : ℤ) (n : ℕ) → (floor_of a n *ℤ pos (2 ^ n)) ≤ℤ a }
    ensures floor_high { (a : ℤ) (n : ℕ) → a <ℤ ((floor_of a n +ℤ pos 1) *ℤ pos (2 ^ n)) }

    // `~` is -a - 1 where there is a sign, else the greatest value less a.
    ensures signed_complement { (a : ℤ) (t : IntType) (c : Target) → is_signed t c ≡ true → IsValueOf t c a →
        unary_result_of UnOp.Not a t c ≡ Some (neg_ℤ a -ℤ pos 1) }
    ensures unsigned_complement { (a : ℤ) (t : IntType) (c : Target) → promoted t c ≡ t → is_signed t c ≡ false → IsValueOf t c a →
        unary_result_of UnOp.Not a t c ≡ Some (most_of t c -ℤ a) }
{}
