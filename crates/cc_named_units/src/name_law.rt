ghost use Rattle.std.specs.Prelude.{◌≡◌, ℕ, true, List, None};
ghost use Rattle.cc_type.specs.CcLex.Tokens.{Tokens};
ghost use Rattle.cc_type.specs.CcLex.declared.token.Token.{Token};
ghost use Rattle.cc_named_units.specs.Names.{tokens_named, unit_named};
ghost use Rattle.cc_tree.specs.Outside.{first_outside};
ghost use Rattle.cc_tree.specs.Sentences.{IsSentence};
ghost use Rattle.cc_tree.specs.declared.unit.Unit.{Unit as UnitTree};

/// The identifiers of a text that has no word outside the subset may name something, and so may what the tree of a sentence of such tokens declares, where each declarator of a declaration, of a member and of a
/// function has a name (C99 6.4.2.1, 6.7, 6.7.2.1). The call does nothing.
pub fn name_laws()
    ensures texts { (text : List ℕ) (ts : List Token) → Tokens text ts → first_outside ts ≡ None → tokens_named ts ≡ true }
    ensures sentences { (ts : List Token) (u : UnitTree) → IsSentence ts u → tokens_named ts ≡ true → unit_named u ≡ true }
{}
