ghost use Rattle.std.specs.Prelude.{◌≤◌, ℕ, List, length};
ghost use Rattle.cc_named_units.specs.Counts.{unit_count};
ghost use Rattle.cc_type.specs.CcLex.Tokens.{Tokens};
ghost use Rattle.cc_type.specs.CcLex.declared.token.Token.{Token};
ghost use Rattle.cc_tree.specs.Sentences.{IsSentence};
ghost use Rattle.cc_tree.specs.declared.unit.Unit.{Unit as UnitTree};

/// There are no more tokens than bytes, and a sentence has no fewer tokens than its tree has names of declarators, parameters, specifiers of structures, strings, prefixes and declarations together (C99 6.4, 6.5, 6.7). The call does nothing.
pub fn count_laws()
    ensures texts { (text : List ℕ) (ts : List Token) → Tokens text ts → length ts ≤ length text }
    ensures sentences { (ts : List Token) (u : UnitTree) → IsSentence ts u → unit_count u ≤ length ts }
{}
