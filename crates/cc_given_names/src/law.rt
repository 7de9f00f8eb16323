ghost use Rattle.std.specs.Prelude.{◌≡◌, ◌++◌, ◌+◌, ℕ, true, false, List, Some, length, slice_get};
ghost use Rattle.std.specs.List.{list_all};
ghost use Rattle.cc_given_names.specs.Spaces.{AreAmong, HaveNumbers, is_named, is_own};
ghost use Rattle.cc_names.specs.Names.{Wish, is_among, names_for};
ghost use Rattle.cc_words.specs.Names.{are_distinct, is_name};

/// What holds of names that are given for wishes, one after the other (C99 6.2.3). The call does nothing.
pub fn name_laws()
    // As many names come as there are wishes.
    ensures count { (reserved given space : List (List ℕ)) (ws : List Wish) → length (names_for reserved given space ws) ≡ length ws }
    // In a space of names that are reserved or were given, no two are the same, and none is there already.
    ensures distinct { (reserved given space : List (List ℕ)) (ws : List Wish) → AreAmong space (reserved ++ given) → HaveNumbers (length reserved + (length given + length ws)) → are_distinct (names_for reserved given space ws) ≡ true }
    ensures apart { (reserved given space : List (List ℕ)) (ws : List Wish) → AreAmong space (reserved ++ given) → HaveNumbers (length reserved + (length given + length ws)) →
        (x : List ℕ) → is_among x (names_for reserved given space ws) ≡ true → is_among x space ≡ false }
    // One that is not its own wish is not reserved and was not given before.
    ensures new { (reserved given space : List (List ℕ)) (ws : List Wish) → HaveNumbers (length reserved + (length given + length ws)) →
        (i : ℕ) (w : Wish) (x : List ℕ) → slice_get ws i ≡ Some w → slice_get (names_for reserved given space ws) i ≡ Some x → is_own w x ≡ false → (is_among x reserved ≡ false) × (is_among x given ≡ false) }
    // Each may name something where what is wished for may.
    ensures named { (reserved given space : List (List ℕ)) (ws : List Wish) → list_all is_named ws ≡ true → list_all is_name (names_for reserved given space ws) ≡ true }
{}
