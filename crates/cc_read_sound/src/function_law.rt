ghost use Rattle.std.specs.Prelude.{◌≡◌, true, List, map, Ok};
ghost use Rattle.cc_program.specs.declared.program.Roles.{Roles};
ghost use Rattle.cc_program.specs.declared.stmt.Stmt.{Stmt};
ghost use Rattle.cc_program.specs.declared.types.CType.{CType};
ghost use Rattle.cc_read_sound.specs.Ranges.{each_fits, line_in_range};
ghost use Rattle.cc_type.specs.CcScopes.State.{State, Name, Scope};
ghost use Rattle.cc_read_sound.specs.FunctionBodies.{IsFunctionBody, begun};
ghost use Rattle.cc_read_sound.specs.Scopes.{IsParameterScope};
ghost use Rattle.cc_sound_terms.specs.Ordered.{IsOrdered};
ghost use Rattle.cc_type.specs.CcSpecifiers.declared.derivation.Parameter.{Parameter};
ghost use Rattle.cc_type.specs.CcSyntax.Views.{View};
ghost use Rattle.cc_tree.specs.declared.at.At.{At};
ghost use Rattle.cc_tree.specs.declared.unit.Line.{Line};
ghost use Rattle.cc_type.specs.CcTypedBodies.Lines.{line_here};
ghost use Rattle.cc_type.specs.CcTypedBodies.Meanings.{lines_found};
ghost use Rattle.cc_type.specs.CcTypedStatements.Jumps.{no_jumps};

/// What holds of the body of a function definition (C99 6.9.1): behind it are the automatic objects that it declares, and its locals are those but for const. Over a view that knows what there is behind it,
/// in which its result and its parameters may stand, these have objects' types, and it is sound. The call does nothing.
pub fn function_laws()
    ensures bodies { (v : View) (roles : Roles) (defined : List Name) (result : CType) (ps : List Parameter) (scope : Scope) (s : State) → IsOrdered s → IsParameterScope v.target ps scope s →
        (lines : List (At Line)) → each_fits line_in_range lines ≡ true → (r : List Stmt × State) →
        lines_found no_jumps (map (line_here v.target roles defined result) lines) (begun ps scope s) ≡ Ok r → IsFunctionBody v defined result ps scope s r }
{}
