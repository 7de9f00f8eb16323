ghost use Rattle.std.specs.Prelude.{◌≡◌, ℕ, Bool, true, List, map, Ok};
ghost use Rattle.cc_terms.specs.CcDesignators.Designators.{TypedExpr};
ghost use Rattle.cc_terms.specs.CcOperands.Operands.{Operand};
ghost use Rattle.cc_operand_types.specs.Typed.{IsTypedExpr, IsTypedOperand};
ghost use Rattle.cc_terms.specs.CcSyntax.Views.{View};
ghost use Rattle.cc_terms.specs.CcTypedTerms.Values.{value_found};
ghost use Rattle.cc_program.specs.declared.program.Roles.{Roles};
ghost use Rattle.cc_program.specs.declared.types.CType.{CType};
ghost use Rattle.cc_terms.specs.CcScopes.State.{State, Scope};
ghost use Rattle.cc_terms.specs.CcSpecifiers.declared.derivation.Allowed.{Allowed};
ghost use Rattle.cc_terms.specs.CcSpecifiers.declared.derivation.Declarator.{Declarator};
ghost use Rattle.cc_terms.specs.CcSpecifiers.declared.specifier.Specified.{Specified};
ghost use Rattle.cc_terms.specs.CcSpecifiers.declared.storage.Setting.{Setting};
ghost use Rattle.cc_terms.specs.CcSyntax.Types.{Named};
ghost use Rattle.cc_terms.specs.Specifiers.{specified_found};
ghost use Rattle.cc_terms.specs.Terms.{declr_of, here, spec_here, tree_of, type_name_of};
ghost use Rattle.cc_tree.specs.declared.at.At.{At};
ghost use Rattle.cc_tree.specs.declared.tree.Declr.{Declr};
ghost use Rattle.cc_tree.specs.declared.tree.Spec.{Spec};
ghost use Rattle.cc_tree.specs.declared.tree.Tree.{Tree};
ghost use Rattle.cc_tree.specs.declared.tree.TypeName.{TypeName};
ghost use Rattle.cc_sound_terms.specs.Behind.{Extends};
ghost use Rattle.cc_sound_terms.specs.Knowing.{Stands};
ghost use Rattle.cc_sound_terms.specs.Ranges.{all_fit, declr_in_range, fits, spec_in_range, type_name_in_range};
ghost use Rattle.cc_sound_terms.specs.Standing.{DerivationsStand, IsNamedType};
ghost use Rattle.cc_sound_terms.specs.Typing.{Knows, KnowsTypes};

/// What holds of expressions that are found, over any view, and any locals (C99 6.5): what is known grows, and what an
/// expression designates is typed over a view that knows what there is behind it, where names stand for what they say in front of it. The call does nothing.
pub fn expression_laws()
    ensures designated { (v : View) (locals : List Named) (roles : Roles) → (e : Tree) → fits e ≡ true → (at : ℕ) (s : State) (r : TypedExpr × State) → tree_of v.target roles e at s ≡ Ok r →
        Extends v s r.1 × (Knows v locals s r.1 → IsTypedExpr v locals r.0) }

    // The value of an expression.
    ensures values { (v : View) (locals : List Named) (roles : Roles) → (e : At Tree) → fits e.node ≡ true → (s : State) (r : Operand × State) → value_found (here v.target roles e) s ≡ Ok r →
        Extends v s r.1 × (Knows v locals s r.1 → IsTypedOperand v locals r.0) }
{}

/// What holds of types that are found, over any view (C99 6.7.2 to 6.7.6). The call does nothing.
pub fn type_laws()
    // A type name; in a cast it may name a pointer to void.
    ensures type_names { (v : View) (roles : Roles) → (t : TypeName) → type_name_in_range t ≡ true → (cast : Bool) (s : State) (r : CType × State) → type_name_of v.target roles t cast s ≡ Ok r →
        Extends v s r.1 × (KnowsTypes v s r.1 → IsNamedType v cast r.0) }

    // Specifiers, with the type that they name.
    ensures specifiers { (v : View) (roles : Roles) → (setting : Setting) (specs : List (At Spec)) → all_fit (map (λ (x : At Spec). record { at = x.at; node = spec_in_range x.node }) specs) ≡ true →
        (s : State) (r : Specified × State) → specified_found setting (map (spec_here v.target roles) specs) s ≡ Ok r → Extends v s r.1 × (KnowsTypes v s r.1 → Stands v r.0.ctype) }

    // Declarators: bounds and parameters.
    ensures declarators { (v : View) (roles : Roles) → (d : Declr) → declr_in_range d ≡ true → (allowed : Allowed) (at : ℕ) (s : State) (r : Declarator Scope × State) → declr_of v.target roles d allowed at s ≡ Ok r →
        Extends v s r.1 × (KnowsTypes v s r.1 → DerivationsStand v allowed.unbounded r.0.derivations) }
{}
