//! What holds of the offsets in the tree of a sentence.

ghost use Rattle.std.specs.Prelude.{ℕ, List};
ghost use Rattle.cc_item_offsets.specs.Offsets.{NeverFall, all_declared_at};
ghost use Rattle.cc_lex.specs.Tokens.{Tokens};
ghost use Rattle.cc_lex.specs.declared.token.Token.{Token};
ghost use Rattle.cc_tree.specs.Sentences.{IsSentence};
ghost use Rattle.cc_tree.specs.declared.unit.Unit.{Unit as UnitTree};

/// What holds of the tree of a text: the declarators of its declarations and functions begin at offsets that never fall, so
/// what is ordered by where its definition begins stands in the order of the items (C99 6.9). The call does nothing.
pub fn items_ascend()
    ensures { (text : List ℕ) (ts : List Token) (u : UnitTree) → Tokens text ts → IsSentence ts u → NeverFall 0 (all_declared_at u.items) }
{}
