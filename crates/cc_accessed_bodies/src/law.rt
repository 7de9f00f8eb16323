ghost use Rattle.std.specs.Prelude.{◌≡◌, true, List, [], map, Ok};
ghost use Rattle.std.specs.List.{list_any};
ghost use Rattle.cc_accessed_operands.specs.Accessed.{accesses, list_accesses};
ghost use Rattle.cc_accessed_terms.specs.Accounted.{Accounts};
ghost use Rattle.cc_program.specs.CcNum.declared.target.Target.{Target};
ghost use Rattle.cc_program.specs.declared.expr.Expr.{Expr};
ghost use Rattle.cc_program.specs.declared.program.Roles.{Roles};
ghost use Rattle.cc_program.specs.declared.stmt.Stmt.{Stmt};
ghost use Rattle.cc_program.specs.declared.types.CType.{CType};
ghost use Rattle.cc_read_sound.specs.Ranges.{each_fits, line_in_range};
ghost use Rattle.cc_type.specs.CcScopes.State.{State, Name};
ghost use Rattle.cc_sound_declarations.specs.Ranges.{decl_fits};
ghost use Rattle.cc_type.specs.CcSpecifiers.declared.storage.Where.{Where};
ghost use Rattle.cc_type.specs.CcSpecifiers.declared.storage.Where.TheVariants as stands;
ghost use Rattle.cc_tree.specs.declared.at.At.{At};
ghost use Rattle.cc_tree.specs.declared.unit.Decl.{Decl};
ghost use Rattle.cc_tree.specs.declared.unit.Line.{Line};
ghost use Rattle.cc_type.specs.CcTypedBodies.Declarations.{declaration};
ghost use Rattle.cc_type.specs.CcTypedBodies.Lines.{line_here};
ghost use Rattle.cc_type.specs.CcTypedBodies.Meanings.{lines_found};
ghost use Rattle.cc_type.specs.CcTypedStatements.declared.jumps.Jumps.{Jumps};

/// Each device without a name that a declaration or the lines of a function's body declare (C99 6.7, 6.8) is accessed by what they
/// are found to be, where their numbers fit 64 bits, as those of each text do (6.4.4.1, 5). The call does nothing.
pub fn body_laws()
    // The assignments by which automatic objects are initialised.
    ensures declarations { (target : Target) (roles : Roles) (defined : List Name) → (place : Where) (d : Decl) → decl_fits d ≡ true → (s : State) (r : List Expr × State) → declaration target roles defined place d s ≡ Ok r → Accounts (λ i. list_any (accesses i) r.0) s r.1 }

    // Outside functions there are none.
    ensures external { (target : Target) (roles : Roles) (defined : List Name) → (d : Decl) (s : State) (r : List Expr × State) → declaration target roles defined stands.AtFile d s ≡ Ok r → r.0 ≡ [] }
    ensures bodies { (target : Target) (roles : Roles) (defined : List Name) (result : CType) → (ls : List (At Line)) → each_fits line_in_range ls ≡ true → (j : Jumps) (s : State) (r : List Stmt × State) →
        lines_found j (map (line_here target roles defined result) ls) s ≡ Ok r → Accounts (λ i. list_accesses i r.0) s r.1 }
{}
