ghost use Rattle.std.specs.Prelude.{◌≡◌, ℕ, Bool, true, List, map};
ghost use Rattle.std.specs.List.{flat_map};
ghost use Rattle.cc_operands.specs.CcSyntax.Views.{View};
ghost use Rattle.cc_operands.specs.CcSyntax.Expressions.{type_of};
ghost use Rattle.cc_program.proofs.Each.{Each};
ghost use Rattle.cc_program.specs.declared.stmt.Stmt.{Stmt};
ghost use Rattle.cc_program.specs.declared.types.CType.{CType};
ghost use Rattle.cc_program.specs.declared.value.Leaf.{Leaf};
ghost use Rattle.cc_relocated_units.specs.Renumbering.{Renumbers, RenumberedLocals};
ghost use Rattle.cc_operands.specs.CcSyntax.Initial.{IsInitial};
ghost use Rattle.cc_operands.specs.CcSyntax.Statements.{is_sound_body};
ghost use Rattle.cc_operands.specs.CcSyntax.Types.{Named};
ghost use Rattle.cc_unit.specs.declared.ids.Ids.{Ids};
ghost use Rattle.cc_unit.specs.Mentioned.{all_of, in_leaf, in_stmt};
ghost use Rattle.cc_unit.specs.Renumbered.{leaf_renumbered, stmt_renumbered, type_renumbered};

/// Over a view that has what another has by other numbers, bodies and first values that mention such names alone stay sound (C99 6.7.8, 6.8). The call does nothing.
pub fn relocated_laws()
    ensures bodies { (v w : View) (ids : Ids) (among : ℕ → Bool) → Renumbers v w ids among → (before after : List Named) → RenumberedLocals ids.structures before after → (result : CType) (body : List Stmt) →
        Each (λ i. among i ≡ true) (all_of (map in_stmt body)) → is_sound_body v.target (type_of v before) result body ≡ true →
        is_sound_body w.target (type_of w after) (type_renumbered ids.structures result) (map (stmt_renumbered ids) body) ≡ true }
    ensures values { (v w : View) (ids : Ids) (among : ℕ → Bool) → Renumbers v w ids among → (t : CType) (leaves : List Leaf) → Each (λ i. among i ≡ true) (flat_map in_leaf leaves) →
        IsInitial v t leaves → IsInitial w (type_renumbered ids.structures t) (map (leaf_renumbered ids) leaves) }
{}
