ghost use Rattle.std.specs.Prelude.{◌≡◌, Bool, true, List, Some};
ghost use Rattle.cc_operands.specs.CcSyntax.Views.{View};
ghost use Rattle.cc_operands.specs.CcSyntax.Expressions.{place_type, type_of};
ghost use Rattle.cc_program.specs.declared.expr.Expr.{Expr};
ghost use Rattle.cc_program.specs.declared.expr.Place.{Place};
ghost use Rattle.cc_program.specs.declared.stmt.Stmt.{Stmt};
ghost use Rattle.cc_program.specs.declared.types.CType.{CType};
ghost use Rattle.cc_operands.specs.CcSyntax.Types.{Named};
ghost use Rattle.cc_operands.specs.CcSyntax.Values.{PlaceType, ValueType};
ghost use Rattle.cc_operand_types.specs.Reduced.{Reduced, ReducedLocals, ReducedPlace};
ghost use Rattle.cc_operands.specs.CcSyntax.Statements.{is_sound_body, is_sound_stmt};

/// Over locals whose types lack qualifiers that the declared ones have, expressions have types that may lack qualifiers at what is pointed to,
/// and statements stay sound (C99 6.5, 6.7.3, 6.8). The call does nothing.
pub fn reduced_laws()
    ensures expressions { (v : View) (locals declared : List Named) → ReducedLocals locals declared → (e : Expr) (t : ValueType) → type_of v declared e ≡ Some t → (u : ValueType) × (type_of v locals e ≡ Some u) × Reduced u t }
    ensures places { (v : View) (locals declared : List Named) → ReducedLocals locals declared → (a : Place) (t : PlaceType) → place_type v declared a ≡ Some t → (u : PlaceType) × (place_type v locals a ≡ Some u) × ReducedPlace u t }
    ensures statements { (v : View) (locals declared : List Named) → ReducedLocals locals declared → (result : CType) (s : Stmt) (breaks continues : Bool) →
        is_sound_stmt v.target (type_of v declared) result s breaks continues ≡ true → is_sound_stmt v.target (type_of v locals) result s breaks continues ≡ true }
    ensures bodies { (v : View) (locals declared : List Named) → ReducedLocals locals declared → (result : CType) (body : List Stmt) →
        is_sound_body v.target (type_of v declared) result body ≡ true → is_sound_body v.target (type_of v locals) result body ≡ true }
{}
