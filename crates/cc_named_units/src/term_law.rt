ghost use Rattle.std.specs.Prelude.{◌≡◌, ◌≤◌, ℕ, true, List, map, Ok};
ghost use Rattle.cc_named_units.specs.Counts.{each_count, declr_count, spec_count, tree_count};
ghost use Rattle.cc_type.specs.CcDesignators.Designators.{TypedExpr};
ghost use Rattle.cc_named_units.specs.Named.{Adds, AddsDeclarator, Limits};
ghost use Rattle.cc_named_units.specs.Names.{each_named, declr_named, spec_named, tree_named};
ghost use Rattle.cc_program.specs.CcNum.declared.target.Target.{Target};
ghost use Rattle.cc_program.specs.declared.program.Roles.{Roles};
ghost use Rattle.cc_type.specs.CcScopes.State.{State, Scope};
ghost use Rattle.cc_type.specs.CcSpecifiers.declared.derivation.Allowed.{Allowed};
ghost use Rattle.cc_type.specs.CcSpecifiers.declared.derivation.Declarator.{Declarator};
ghost use Rattle.cc_type.specs.CcSpecifiers.declared.specifier.Specified.{Specified};
ghost use Rattle.cc_type.specs.CcSpecifiers.declared.storage.Setting.{Setting};
ghost use Rattle.cc_type.specs.CcTerms.Specifiers.{specified_found};
ghost use Rattle.cc_type.specs.CcTerms.Terms.{declr_of, spec_here, tree_of};
ghost use Rattle.cc_tree.specs.declared.at.At.{At};
ghost use Rattle.cc_tree.specs.declared.tree.Declr.{Declr};
ghost use Rattle.cc_tree.specs.declared.tree.Spec.{Spec};
ghost use Rattle.cc_tree.specs.declared.tree.Tree.{Tree};

/// What holds of expressions, specifiers and declarators that are found, whose names may name something (C99 6.5, 6.7): they add such names alone, and no more of them, of structures and of locals than they count.
/// The call does nothing.
pub fn term_laws()
    ensures expressions { (target : Target) (roles : Roles) (most : Limits) (e : Tree) → tree_named e ≡ true → tree_count e ≤ most.few → (at : ℕ) (s : State) (r : TypedExpr × State) → tree_of target roles e at s ≡ Ok r →
        Adds most (tree_count e) s r.1 }
    ensures specifiers { (target : Target) (roles : Roles) (most : Limits) (setting : Setting) (specs : List (At Spec)) → each_named spec_named specs ≡ true → each_count spec_count specs ≤ most.few → (s : State) (r : Specified × State) →
        specified_found setting (map (spec_here target roles) specs) s ≡ Ok r → Adds most (each_count spec_count specs) s r.1 }

    // The name of a declarator may name something, and so may those of the parameters next to it; it has one where its tree does.
    ensures declarators { (target : Target) (roles : Roles) (most : Limits) (d : Declr) → (declr_named d).0 ≡ true → declr_count d ≤ most.few → (allowed : Allowed) (at : ℕ) (s : State) (r : Declarator Scope × State) →
        declr_of target roles d allowed at s ≡ Ok r → AddsDeclarator most (declr_count d) (declr_named d).1 allowed.unnamed s r }
{}
