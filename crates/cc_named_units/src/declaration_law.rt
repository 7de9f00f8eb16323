ghost use Rattle.std.specs.Prelude.{◌≡◌, ◌≤◌, ℕ, true, List, map, Ok};
ghost use Rattle.cc_named_units.specs.Counts.{decl_count, each_count, line_count};
ghost use Rattle.cc_named_units.specs.Named.{Adds, Limits};
ghost use Rattle.cc_named_units.specs.Names.{decl_named, each_named, line_named};
ghost use Rattle.cc_program.specs.CcNum.declared.target.Target.{Target};
ghost use Rattle.cc_program.specs.declared.expr.Expr.{Expr};
ghost use Rattle.cc_program.specs.declared.stmt.Stmt.{Stmt};
ghost use Rattle.cc_program.specs.declared.types.CType.{CType};
ghost use Rattle.cc_type.specs.CcScopes.State.{State, Name};
ghost use Rattle.cc_type.specs.CcSpecifiers.declared.storage.Where.{Where};
ghost use Rattle.cc_tree.specs.declared.at.At.{At};
ghost use Rattle.cc_tree.specs.declared.unit.Decl.{Decl};
ghost use Rattle.cc_tree.specs.declared.unit.Line.{Line};
ghost use Rattle.cc_type.specs.CcTypedBodies.Lines.{line_here};
ghost use Rattle.cc_type.specs.CcTypedBodies.Meanings.{lines_found};
ghost use Rattle.cc_type.specs.CcTypedBodies.Declarations.{declaration};
ghost use Rattle.cc_type.specs.CcTypedStatements.declared.jumps.Jumps.{Jumps};

/// What holds of a declaration that is found, whose names may name something, wherever it stands (C99 6.7): it adds such names alone, none of them an intrinsic's, and no more locals than it declares names. The call does nothing.
pub fn declaration_laws()
    ensures declarations { (target : Target) (defined : List Name) (most : Limits) (d : Decl) → decl_named d ≡ true → decl_count d ≤ most.few → (place : Where) (s : State) (r : List Expr × State) →
        declaration target most.roles defined place d s ≡ Ok r → Adds most (decl_count d) s r.1 }
{}

/// What holds of lines of a function's body, likewise (C99 6.8). The call does nothing.
pub fn body_laws()
    ensures bodies { (target : Target) (defined : List Name) (result : CType) (most : Limits) (ls : List (At Line)) → each_named line_named ls ≡ true → each_count line_count ls ≤ most.few →
        (j : Jumps) (s : State) (r : List Stmt × State) → lines_found j (map (line_here target most.roles defined result) ls) s ≡ Ok r → Adds most (each_count line_count ls) s r.1 }
{}
