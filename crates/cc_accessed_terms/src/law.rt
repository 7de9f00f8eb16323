ghost use Rattle.std.specs.Prelude.{◌≡◌, ℕ, Bool, List, map, Ok};
ghost use Rattle.cc_accessed_operands.specs.Accessed.{accesses};
ghost use Rattle.cc_accessed_terms.specs.Accounted.{Accounts, DeclaresNone, IsAccounted};
ghost use Rattle.cc_terms.specs.CcDesignators.Designators.{TypedExpr};
ghost use Rattle.cc_program.specs.CcNum.declared.target.Target.{Target};
ghost use Rattle.cc_terms.specs.CcOperands.Operands.{Operand};
ghost use Rattle.cc_program.specs.declared.program.Roles.{Roles};
ghost use Rattle.cc_program.specs.declared.types.CType.{CType};
ghost use Rattle.cc_terms.specs.CcScopes.State.{Scope, State};
ghost use Rattle.cc_terms.specs.CcSpecifiers.declared.derivation.Allowed.{Allowed};
ghost use Rattle.cc_terms.specs.CcSpecifiers.declared.derivation.Declarator.{Declarator};
ghost use Rattle.cc_terms.specs.CcSpecifiers.declared.specifier.Specified.{Specified};
ghost use Rattle.cc_terms.specs.CcSpecifiers.declared.storage.Setting.{Setting};
ghost use Rattle.cc_terms.specs.Specifiers.{specified_found};
ghost use Rattle.cc_terms.specs.Terms.{declr_of, here, spec_here, tree_of, type_name_of};
ghost use Rattle.cc_tree.specs.declared.at.At.{At};
ghost use Rattle.cc_tree.specs.declared.tree.Declr.{Declr};
ghost use Rattle.cc_tree.specs.declared.tree.Spec.{Spec};
ghost use Rattle.cc_tree.specs.declared.tree.Tree.{Tree};
ghost use Rattle.cc_tree.specs.declared.tree.TypeName.{TypeName};
ghost use Rattle.cc_terms.specs.CcTypedTerms.Values.{value_found};

/// Each device without a name that an expression declares, as `*(volatile T *)n` does (C99 6.5), is accessed by what the expression
/// is found to be. The call does nothing.
pub fn term_laws()
    ensures designated { (target : Target) (roles : Roles) → (e : Tree) (at : ℕ) (s : State) (r : TypedExpr × State) → tree_of target roles e at s ≡ Ok r → IsAccounted s r }

    // The value of an expression.
    ensures values { (target : Target) (roles : Roles) → (e : At Tree) (s : State) (r : Operand × State) → value_found (here target roles e) s ≡ Ok r → Accounts (λ i. accesses i r.0.value) s r.1 }
{}

/// Types declare no device without a name (C99 6.7.2 to 6.7.6): their bounds and values of enumeration constants are constants, and
/// the operand of `sizeof` leaves nothing. The call does nothing.
pub fn type_laws()
    ensures type_names { (target : Target) (roles : Roles) → (t : TypeName) (cast : Bool) (s : State) (r : CType × State) → type_name_of target roles t cast s ≡ Ok r → DeclaresNone s r.1 }
    ensures specifiers { (target : Target) (roles : Roles) → (setting : Setting) (specs : List (At Spec)) (s : State) (r : Specified × State) → specified_found setting (map (spec_here target roles) specs) s ≡ Ok r → DeclaresNone s r.1 }
    ensures declarators { (target : Target) (roles : Roles) → (d : Declr) (allowed : Allowed) (at : ℕ) (s : State) (r : Declarator Scope × State) → declr_of target roles d allowed at s ≡ Ok r → DeclaresNone s r.1 }
{}
