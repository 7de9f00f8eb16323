ghost use Rattle.std.specs.Prelude.{◌≡◌, true, List, map, Ok};
ghost use Rattle.cc_lower_sound.specs.Folded.{are_folded};
ghost use Rattle.cc_program.specs.CcNum.declared.target.Target.{Target};
ghost use Rattle.cc_program.proofs.Each.{Each};
ghost use Rattle.cc_program.specs.declared.expr.Expr.{Expr};
ghost use Rattle.cc_program.specs.declared.program.Roles.{Roles};
ghost use Rattle.cc_program.specs.declared.stmt.Stmt.{Stmt};
ghost use Rattle.cc_program.specs.declared.types.CType.{CType};
ghost use Rattle.cc_typed_bodies.specs.CcScopes.State.{State, Name};
ghost use Rattle.cc_typed_bodies.specs.CcSpecifiers.declared.storage.Where.{Where};
ghost use Rattle.cc_eval.specs.CcSyntax.Folding.{is_folded};
ghost use Rattle.cc_tree.specs.declared.at.At.{At};
ghost use Rattle.cc_tree.specs.declared.unit.Decl.{Decl};
ghost use Rattle.cc_tree.specs.declared.unit.Line.{Line};
ghost use Rattle.cc_typed_bodies.specs.Declarations.{declaration};
ghost use Rattle.cc_typed_bodies.specs.Lines.{line_here};
ghost use Rattle.cc_typed_bodies.specs.Meanings.{lines_found};
ghost use Rattle.cc_typed_bodies.specs.CcTypedStatements.declared.jumps.Jumps.{Jumps};

/// What declarations and lines of a function's body are found to be (C99 6.7, 6.8), whatever is known where they stand: their
/// expressions are folded (6.6). The call does nothing.
pub fn body_laws()
    // The assignments by which automatic objects are initialised.
    ensures declarations { (target : Target) (roles : Roles) (defined : List Name) → (place : Where) (d : Decl) (s : State) (r : List Expr × State) → declaration target roles defined place d s ≡ Ok r → Each (λ (e : Expr). is_folded target e ≡ true) r.0 }
    ensures bodies { (target : Target) (roles : Roles) (defined : List Name) (result : CType) → (ls : List (At Line)) (j : Jumps) (s : State) (r : List Stmt × State) →
        lines_found j (map (line_here target roles defined result) ls) s ≡ Ok r → are_folded target r.0 ≡ true }
{}
