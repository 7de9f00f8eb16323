ghost use Rattle.std.specs.Prelude.{◌≡◌, ℕ, true, List, Some, map, slice_get};
ghost use Rattle.cc_type.specs.CcLex.Tokens.{Tokens};
ghost use Rattle.cc_type.specs.CcLex.declared.token.Token.{Token};
ghost use Rattle.cc_link.specs.Linked.{Links};
ghost use Rattle.cc_lower_sound.specs.Folded.{are_folded, has_folded_expressions};
ghost use Rattle.cc_program.specs.CcNum.declared.target.Target.{Target};
ghost use Rattle.cc_program.specs.declared.program.Program.{Program};
ghost use Rattle.cc_program.specs.declared.program.Roles.{Roles};
ghost use Rattle.cc_program.specs.declared.stmt.Stmt.{Stmt};
ghost use Rattle.cc_read.specs.Texts.{Reads};
ghost use Rattle.cc_read_folded.specs.Folded.{IsFoldedUnit};
ghost use Rattle.cc_things.specs.declared.text.Text.{Text};
ghost use Rattle.cc_tree.specs.Sentences.{IsSentence};
ghost use Rattle.cc_tree.specs.declared.unit.Unit.{Unit as UnitTree};
ghost use Rattle.cc_type.specs.Typed.{IsTyped};
ghost use Rattle.cc_type.specs.CcUnit.Renumbered.{stmt_renumbered};
ghost use Rattle.cc_type.specs.CcUnit.declared.ids.Ids.{Ids};
ghost use Rattle.cc_type.specs.CcUnit.declared.unit.TypedUnit.{TypedUnit};

/// Reading folds each operator whose operands are all constants, where its value does not trap (C99 6.6). The call does nothing.
pub fn read_laws()
    // By other numbers a body is folded as it was.
    ensures renumbered { (target : Target) (ids : Ids) (ss : List Stmt) → are_folded target (map (stmt_renumbered ids) ss) ≡ are_folded target ss }

    // The unit that the tree of a text stands for.
    ensures units { (text : List ℕ) (ts : List Token) (u : UnitTree) (target : Target) (roles : Roles) (t : TypedUnit) → Tokens text ts → IsSentence ts u → IsTyped u target roles t → IsFoldedUnit target t }

    // The program that such units link to.
    ensures linked { (texts : List Text) (target : Target) (roles : Roles) (p : Program) → ((t : ℕ) (x : Text) → slice_get texts t ≡ Some x → IsFoldedUnit target x.unit) → Links texts target roles p → has_folded_expressions p ≡ true }

    // The program that texts are read as.
    ensures folded { (texts : List (List ℕ)) (target : Target) (roles : Roles) (p : Program) → Reads texts target roles p → has_folded_expressions p ≡ true }
{}
