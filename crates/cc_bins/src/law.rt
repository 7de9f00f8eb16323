ghost use Rattle.std.specs.Prelude.{◌≡◌, ◌≤◌, ◌<◌, ◌/◌, ℕ, List, [], ◌∷◌, All, filter, sum_by, IsPermutation, IsSorted};
ghost use Rattle.cc_bins.specs.declared.open_words.Open.{Open};
ghost use Rattle.cc_bins.specs.declared.types.Want.{Want};
ghost use Rattle.cc_bins.specs.Examples.{four, one_word};
ghost use Rattle.cc_bins.specs.Packed.{AreApart, GoesFirst, IsPacked};
ghost use Rattle.cc_bins.specs.Placing.{place_order, put, opens, saves, bins_of};

/// What the definition of placing keeps, for all slots, and a placing that is known. The call does
/// nothing.
pub fn laws()
    // Slots of which no two have one number stand in one order of placing alone.
    ensures one_order { (wants xs ys : List Want) → AreApart wants → IsPermutation wants xs → IsPermutation wants ys
        → IsSorted place_order xs → IsSorted place_order ys → xs ≡ ys }

    // No slot could stand in an earlier word, and a word is opened only where none has room.
    ensures first { (words : List Open) (want : Want) → GoesFirst want words (put words want) }

    // The slots of a word are of its group, do not overlap, and end within it.
    ensures packed { (order : List Want) → All (λ want. want.bits ≤ 16) order → All IsPacked (opens order) }

    // No word that is kept has as many bytes as its slots.
    ensures saved { (words : List Open) → All (λ word. word.bits / 8 < sum_by (λ placed. placed.want.bytes) word.slots) (filter saves words) }

    // Four slots of 4, 2, 2 and 1 bits, each of one byte: one word of 8 bits with the first three.
    ensures four_slots { bins_of (opens four) ≡ one_word }
{}
