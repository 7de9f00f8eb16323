//! What holds of the tokens of printed pieces.

ghost use Rattle.std.specs.Prelude.{◌≡◌, ℕ, [], None, codes};
ghost use Rattle.cc_lex.specs.Tokens.{Tokens};
ghost use Rattle.cc_pieces.specs.Pieces.{Pieces, flat};
ghost use Rattle.cc_expression_trees.specs.Examples.{sum, sum_tokens, run_on};
ghost use Rattle.cc_expression_trees.specs.Laid.{laid};
ghost use Rattle.cc_expression_trees.specs.Parts.{Fits, Ascend};
ghost use Rattle.cc_tree.specs.Outside.{first_outside};

/// What holds of the tokens of pieces that part from one another. The call does nothing.
pub fn pieces_have_their_tokens()
    // The text of such pieces has their tokens, and none of these is outside the subset.
    ensures tokens { (ps : Pieces) → Fits ps → Tokens (flat ps) (laid 0 ps) }
    ensures inside { (ps : Pieces) → Fits ps → first_outside (laid 0 ps) ≡ None }

    // Each token begins where the one before it ends, or behind it.
    ensures ascending { (ps : Pieces) → Ascend 0 (laid 0 ps) }

    // Some pieces and their tokens, and pieces whose text has other tokens.
    ensures example { Fits sum }
    ensures example_text { flat sum ≡ codes "(x + +y) << 2ul;\n" }
    ensures example_tokens { laid 0 sum ≡ sum_tokens }
    ensures counterexample { Fits run_on → ⊥ }
{}
