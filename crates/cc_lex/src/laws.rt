//! What holds of the tokens of every text.

ghost use Rattle.std.specs.Prelude.{◌≡◌, ℕ, List, ◌⊎◌};
ghost use Rattle.cc_lex.specs.Faults.{HasFault};
ghost use Rattle.cc_lex.specs.Forms.{IsLongest};
ghost use Rattle.cc_lex.specs.Tokens.{Spells, Tokens};
ghost use Rattle.cc_lex.specs.declared.fault.LexFault.{LexFault};
ghost use Rattle.cc_lex.specs.declared.token.Kind.{Kind};
ghost use Rattle.cc_lex.specs.declared.token.Token.{Token};

/// A token's spelling is the longest form of a token at its place (C99 6.4, 4).
pub fn spellings_are_longest()
    ensures { (w rest : List ℕ) (k : Kind) → Spells w rest k → IsLongest w rest }
{}

/// A text has one list of tokens, or else one first fault.
pub fn texts_have_tokens_or_a_fault()
    ensures one_list { (text : List ℕ) (ts us : List Token) → Tokens text ts → Tokens text us → ts ≡ us }
    ensures one_fault { (text : List ℕ) (e f : LexFault) → HasFault text e → HasFault text f → e ≡ f }
    ensures either { (text : List ℕ) → ((ts : List Token) × Tokens text ts) ⊎ ((e : LexFault) × HasFault text e) }
    ensures not_both { (text : List ℕ) (ts : List Token) (e : LexFault) → Tokens text ts → HasFault text e → ⊥ }
{}
