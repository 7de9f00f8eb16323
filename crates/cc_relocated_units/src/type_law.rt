ghost use Rattle.std.specs.Prelude.{◌≡◌, ℕ, Bool, true, List, Some};
ghost use Rattle.cc_operands.specs.CcSyntax.Views.{View, kind_in};
ghost use Rattle.cc_operands.specs.CcSyntax.Expressions.{place_type, type_of};
ghost use Rattle.cc_program.proofs.Each.{Each};
ghost use Rattle.cc_program.specs.declared.expr.Expr.{Expr};
ghost use Rattle.cc_program.specs.declared.expr.Place.{Place};
ghost use Rattle.cc_program.specs.declared.types.CType.{CType};
ghost use Rattle.cc_operand_types.specs.Reduced.{Reduced, ReducedPlace};
ghost use Rattle.cc_operands.specs.CcSyntax.Kinds.{Kind};
ghost use Rattle.cc_operands.specs.CcSyntax.Types.{Named};
ghost use Rattle.cc_operands.specs.CcSyntax.Values.{PlaceType, ValueType};
ghost use Rattle.cc_unit.specs.declared.ids.Ids.{Ids};
ghost use Rattle.cc_unit.specs.Mentioned.{in_expr, in_place};
ghost use Rattle.cc_unit.specs.Renumbered.{expr_renumbered, place_renumbered, type_renumbered};
ghost use Rattle.cc_relocated_units.specs.Renumbering.{Renumbers, RenumberedLocals, place_type_renumbered, value_renumbered};

/// Over a view that has what another has by other numbers, types have their kinds, and expressions and places that mention such names alone have
/// their types, which may lack qualifiers at what is pointed to (C99 6.2.5, 6.5). The call does nothing.
pub fn renumbered_laws()
    ensures kinds { (v w : View) (ids : Ids) (among : ℕ → Bool) → Renumbers v w ids among → (t : CType) (k : Kind) → kind_in v t ≡ Some k → kind_in w (type_renumbered ids.structures t) ≡ Some k }
    ensures expressions { (v w : View) (ids : Ids) (among : ℕ → Bool) → Renumbers v w ids among → (before after : List Named) → RenumberedLocals ids.structures before after → (e : Expr) → Each (λ i. among i ≡ true) (in_expr e) →
        (t : ValueType) → type_of v before e ≡ Some t → (u : ValueType) × (type_of w after (expr_renumbered ids e) ≡ Some u) × Reduced u (value_renumbered ids.structures t) }
    ensures places { (v w : View) (ids : Ids) (among : ℕ → Bool) → Renumbers v w ids among → (before after : List Named) → RenumberedLocals ids.structures before after → (a : Place) → Each (λ i. among i ≡ true) (in_place a) →
        (t : PlaceType) → place_type v before a ≡ Some t → (u : PlaceType) × (place_type w after (place_renumbered ids a) ≡ Some u) × ReducedPlace u (place_type_renumbered ids.structures t) }
{}
