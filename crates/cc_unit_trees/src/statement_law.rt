//! What holds of the printed text of statements.

ghost use Rattle.std.specs.Prelude.{◌≡◌, ◌≤◌, ◌-◌, ◌^◌, ℕ, Bool, List, [], true, Some, map, slice_get};
ghost use Rattle.std.specs.List.{list_all};
ghost use Rattle.cc_bodies.specs.Stmts.{stmts, intrinsic_name};
ghost use Rattle.cc_expression_trees.specs.Names.{HasNames};
ghost use Rattle.cc_lex.specs.declared.token.Token.{Token};
ghost use Rattle.cc_pieces.specs.Pieces.{Pieces};
ghost use Rattle.cc_expression_trees.specs.Laid.{laid};
ghost use Rattle.cc_expression_trees.specs.Parts.{Fits};
ghost use Rattle.cc_program.specs.declared.expr.Intr.{Intr};
ghost use Rattle.cc_program.specs.declared.func.Func.{Func};
ghost use Rattle.cc_program.specs.declared.object.Device.{Device};
ghost use Rattle.cc_program.specs.declared.program.Program.{Program};
ghost use Rattle.cc_program.specs.declared.stmt.Stmt.{Stmt};
ghost use Rattle.cc_unit_trees.specs.Lines.{ShowsStmts};
ghost use Rattle.cc_unit_trees.specs.ReadStatements.{ReadsLines};
ghost use Rattle.cc_typed.specs.CcSyntax.Normal.{is_normal_stmt};
ghost use Rattle.cc_typed.specs.CcSyntax.Programs.{is_sound_stmt};
ghost use Rattle.cc_tree.specs.declared.at.At.{At};
ghost use Rattle.cc_tree.specs.declared.unit.Line.{Line};
ghost use Rattle.cc_tree.specs.Statements.{IsLines};
ghost use Rattle.cc_program.specs.CcWords.Names.{is_name};

/// What holds of the text of sound statements in normal form, wherever they stand. The call does nothing.
pub fn statements_read_back()
    // Their tokens, behind those of other lines of a block, have lines that show them.
    ensures statements { (p : Program) (f : Func) (list : List Stmt) (breaks continues : Bool) → list_all (λ b. b) (map (is_normal_stmt p.target f) list) ≡ true → list_all (λ g. g breaks continues) (map (is_sound_stmt p f) list) ≡ true →
        (level at : ℕ) (done : List (At Line)) (all : List Token) (ps : Pieces) → IsLines [] [] done all (laid at (stmts p f list level ps)) → ReadsLines (ShowsStmts p f list) done all ps }

    // Their pieces part from one another, where names are names.
    ensures statements_part { (p : Program) (f : Func) → HasNames p f → ((i : ℕ) (d : Device) → slice_get p.devices i ≡ Some d → d.number ≤ 2 ^ 63 - 1) → ((i : Intr) → is_name (intrinsic_name p.roles i) ≡ true) →
        (list : List Stmt) (breaks continues : Bool) → list_all (λ b. b) (map (is_normal_stmt p.target f) list) ≡ true → list_all (λ g. g breaks continues) (map (is_sound_stmt p f) list) ≡ true →
        (level : ℕ) (ps : Pieces) → Fits ps → Fits (stmts p f list level ps) }
{}
