//! What holds of the printed text of whole programs.

ghost use Rattle.std.specs.Prelude.{◌≡◌, ◌∷◌, [], List, None, map};
ghost use Rattle.cc_unit_trees.specs.Externals.{externals};
ghost use Rattle.cc_lex.specs.declared.token.Token.{Token};
ghost use Rattle.cc_lex.specs.Tokens.{Tokens};
ghost use Rattle.cc_print.specs.Printed.{text};
ghost use Rattle.cc_program.specs.declared.program.Program.{Program};
ghost use Rattle.cc_typed.specs.CcSyntax.Normal.{IsNormal};
ghost use Rattle.cc_tree.specs.declared.unit.Unit.{Unit as UnitTree};
ghost use Rattle.cc_tree.specs.Outside.{first_outside};
ghost use Rattle.cc_tree.specs.Sentences.{IsSentence};
ghost use Rattle.cc_unit_trees.specs.Names.{declared, name_in};
ghost use Rattle.cc_unit_trees.specs.Programs.{ShowsProgram};

/// What holds of the printed text of programs in normal form, and of the trees that show programs. The call does nothing.
pub fn programs_read_back()
    // The text has tokens, none of which is outside the subset, and they are a sentence whose tree shows the program.
    ensures sentence { (p : Program) → IsNormal p → (ts : List Token) × Tokens (text p) ts × (first_outside ts ≡ None) × ((u : UnitTree) × IsSentence ts u × ShowsProgram p u) }

    // A tree that shows a program has an item for each of its external declarations, in order, which declares its tag or
    // name and nothing else.
    ensures names { (p : Program) (u : UnitTree) → ShowsProgram p u → map (λ x. declared x.node) u.items ≡ map (λ e. name_in p e ∷ []) (externals p) }
{}
