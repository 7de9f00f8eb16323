//! What holds of the tables of words.

ghost use Rattle.std.specs.Prelude.{◌≡◌, [], ◌∷◌, map, true, false, codes};
ghost use Rattle.std.specs.List.{list_all, list_any};
ghost use Rattle.std.specs.Option.{is_none};
ghost use Rattle.cc_words.specs.Names.{is_identifier, is_name};
ghost use Rattle.cc_words.specs.Words.{spellings, word_of, outside_words};
ghost use Rattle.cc_words.specs.declared.word.Word.{Word};

/// What the tables of words keep, and words that are names or none. The call does nothing.
pub fn words_are_apart()
    // A spelling is one keyword's, and no word outside the subset is a keyword.
    ensures keywords { (w : Word) → map word_of (spellings w) ≡ map (λ _. Some w) (spellings w) }
    ensures outside { list_all (λ s. is_none (word_of s)) outside_words ≡ true }

    // All of them have the form of identifiers.
    ensures keyword_forms { (w : Word) → list_all is_identifier (spellings w) ≡ true }
    ensures outside_forms { list_all is_identifier outside_words ≡ true }

    // Names, and words that are none: the empty one, two that are no identifiers, keywords, and one outside the subset.
    ensures names { list_all is_name (codes "x" ∷ codes "_Bo0l" ∷ codes "__int" ∷ []) ≡ true }
    ensures no_names { list_any is_name ([] ∷ codes "0x" ∷ codes "a-b" ∷ codes "if" ∷ codes "__const" ∷ codes "goto" ∷ []) ≡ false }
{}
