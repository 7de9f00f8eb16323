ghost use Rattle.std.specs.Prelude.{◌≡◌, ◌≢◌, ◌<◌, ◌^◌, ℕ, pos, negsuc, List, [], ◌∷◌, Some, true, false};
ghost use Rattle.cc_code.specs.Codes.{decoded, IsCode};
ghost use Rattle.cc_code.specs.Codings.{IsCodingOf};
ghost use Rattle.cc_code.specs.Members.{has_coding, members_of, Has};
ghost use Rattle.cc_code.specs.declared.kinds.Coding.{Coding as Kind};
ghost use Rattle.cc_code.specs.declared.kinds.Coding.TheVariants as kind;
ghost use Rattle.cc_places.specs.declared.abs.Abs.{Abs};
ghost use Rattle.cc_places.specs.declared.abs.Abs.TheVariants as abs;
ghost use Rattle.cc_places.specs.declared.addrs.Addrs.{Addrs as Set};
ghost use Rattle.cc_program.specs.declared.value.Address.{Address};
ghost use Rattle.cc_program.specs.declared.value.Address.TheVariants as address;
ghost use Rattle.cc_program.specs.declared.value.Part.{Part};
ghost use Rattle.cc_program.specs.declared.value.Root.TheVariants as root;
ghost use Rattle.cc_program.specs.declared.value.Value.{Value};
ghost use Rattle.cc_sets.specs.declared.range.Range.{Range};
ghost use Rattle.cc_sets.specs.declared.vals.Vals.{Vals};
ghost use Rattle.cc_sets.specs.declared.vals.Vals.TheVariants as vals;
ghost use Rattle.cc_sets.specs.Rungs.{vals_members};

/// What codes keep, for the coding of any values. The call does nothing.
pub fn laws()
    // The value of a member's code is the member.
    ensures decodes { (values : Abs Vals) (least : ℕ) (coding : Kind × ℕ) (v : Value) (code : ℕ) → IsCodingOf values least coding → Has values v → IsCode values coding.0 v code → decoded (members_of values) coding.0 code ≡ Some v }

    // It has no more bits than the coding says.
    ensures fits { (values : Abs Vals) (least : ℕ) (coding : Kind × ℕ) (v : Value) (code : ℕ) → IsCodingOf values least coding → Has values v → IsCode values coding.0 v code → code < 2 ^ coding.1 }

    // Some values have one coding at the most.
    ensures one_coding { (values : Abs Vals) (least : ℕ) (x y : Kind × ℕ) → IsCodingOf values least x → IsCodingOf values least y → x ≡ y }

    // Numbers that are not told one by one have no table.
    ensures ranges { (r : Range) (least : ℕ) (coding : Kind × ℕ) → IsCodingOf (abs.Ints (vals.Many r)) least coding → coding.0 ≢ kind.Table }
{}

/// The codings of some sets. The call does nothing.
pub fn known_codings()
    // 0 to 3 stand as they are, in 2 bits.
    ensures as_they_stand { (x : Vals) (coding : Kind × ℕ) → vals_members x ≡ Some (pos 0 ∷ pos 1 ∷ pos 2 ∷ pos 3 ∷ []) → IsCodingOf (abs.Ints x) 0 coding → coding ≡ (kind.Direct, 2) }

    // 5 alone is a constant; where a bit is asked for, it is counted from 5 on.
    ensures alone { (x : Vals) (coding : Kind × ℕ) → vals_members x ≡ Some (pos 5 ∷ []) → IsCodingOf (abs.Ints x) 0 coding → coding ≡ (kind.Const, 0) }
    ensures alone_in_a_bit { (x : Vals) (coding : Kind × ℕ) → vals_members x ≡ Some (pos 5 ∷ []) → IsCodingOf (abs.Ints x) 1 coding → coding ≡ (kind.Biased (pos 5), 1) }

    // 5 and 7 stand in a table, since their distance has no place in 1 bit.
    ensures by_position { (x : Vals) (coding : Kind × ℕ) → vals_members x ≡ Some (pos 5 ∷ pos 7 ∷ []) → IsCodingOf (abs.Ints x) 0 coding → coding ≡ (kind.Table, 1) }

    // -1, 0 and 1 are counted from -1 on, in 2 bits.
    ensures from_the_least { (x : Vals) (coding : Kind × ℕ) → vals_members x ≡ Some (negsuc 0 ∷ pos 0 ∷ pos 1 ∷ []) → IsCodingOf (abs.Ints x) 0 coding → coding ≡ (kind.Biased (negsuc 0), 2) }

    // All numbers of 8 bits stand as they are, and with a sign they are counted from -128 on.
    ensures unsigned_bytes { (r : Range) (coding : Kind × ℕ) → r.signed ≡ false → r.bits ≡ 8 → IsCodingOf (abs.Ints (vals.Many r)) 0 coding → coding ≡ (kind.Direct, 8) }
    ensures signed_bytes { (r : Range) (coding : Kind × ℕ) → r.signed ≡ true → r.bits ≡ 8 → IsCodingOf (abs.Ints (vals.Many r)) 0 coding → coding ≡ (kind.Biased (negsuc 127), 8) }

    // Three addresses stand in a table, in 2 bits.
    ensures addresses { (s : Set) (a b c : Address) (coding : Kind × ℕ) → s.members ≡ a ∷ b ∷ c ∷ [] → IsCodingOf (abs.Addrs s) 0 coding → coding ≡ (kind.Table, 2) }

    // Places have no coding, and an automatic address has none.
    ensures places { (s : Set) → s.is_exact ≡ false → has_coding (abs.Addrs s) ≡ false }
    ensures automatic { (s : Set) (n f l i k : ℕ) (p : List Part) → s.members ≡ address.At (root.Auto n f l) p i k ∷ [] → has_coding (abs.Addrs s) ≡ false }
{}
