ghost use Rattle.std.specs.Prelude.{◌≡◌, ◌≤◌, ◌+◌, ◌*◌, ◌/◌, ℕ, List, None, sum_by};
ghost use Rattle.cc_bins.specs.declared.types.Field.{Field};
ghost use Rattle.cc_bins.specs.declared.types.Word.{Word};
ghost use Rattle.cc_plan_legal.specs.declared.candidate.Candidate.{Candidate};
ghost use Rattle.cc_plan_legal.specs.declared.kinds.Plan.{Plan};
ghost use Rattle.cc_plan_legal.specs.Candidates.{bits_of, bytes_of};
ghost use Rattle.cc_plan_legal.specs.Legality.{first_illegal};
ghost use Rattle.cc_plan_legal.specs.Short.{count_of, group_in, packed_bytes, AreShort};
ghost use Rattle.cc_plan_sizes.specs.Numbers.{HasItsSlots};

/// What a legal plan saves. A slot that is one of `consts` takes no RAM. The call does nothing.
pub fn laws()
    // However many copies there are of the words of each group, as many as there are of its slots: the words take at least
    // a byte less for each of them than the slots that they stand for.
    ensures words { (copies : ℕ → ℕ) (slots : List Candidate) (plan : Plan) → HasItsSlots slots plan → first_illegal slots plan ≡ None →
        sum_by (λ (w : Word). copies w.group * (w.bits / 8 + 1)) plan.words ≤ sum_by (λ (f : Field). copies (group_in slots f.slot) * bytes_of slots f.slot) plan.fields }

    // Packed arrays take at least a byte less each.
    ensures arrays { (slots : List Candidate) (plan : Plan) → HasItsSlots slots plan → AreShort slots → first_illegal slots plan ≡ None →
        sum_by (λ slot. packed_bytes (bits_of slots slot) (count_of slots slot) + 1) plan.arrays ≤ sum_by (λ slot. count_of slots slot * bytes_of slots slot) plan.arrays }
{}
