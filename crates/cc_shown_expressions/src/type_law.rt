//! What holds of the trees that show types of a program.

ghost use Rattle.std.specs.Prelude.{◌≡◌, ℕ, Bool, true, false, List, [], map, Option, None, Ok};
ghost use Rattle.std.specs.Option.{is_some};
ghost use Rattle.cc_program.specs.declared.program.Program.{Program};
ghost use Rattle.cc_program.specs.declared.program.Roles.{Roles};
ghost use Rattle.cc_program.specs.declared.types.CType.{CType};
ghost use Rattle.cc_program.specs.declared.types.Shape.{out-Shape};
ghost use Rattle.cc_program.specs.declared.types.Shape.TheOpen as shape;
ghost use Rattle.cc_terms.specs.CcScopes.State.{State, Scope, structures_of, layouts_of};
ghost use Rattle.cc_shown_expressions.specs.Known.{KnowsStructures};
ghost use Rattle.cc_shown_expressions.specs.Numbers.{type_numbered};
ghost use Rattle.cc_terms.specs.CcSpecifiers.Declarators.{type_found};
ghost use Rattle.cc_terms.specs.CcSpecifiers.declared.derivation.Allowed.{Allowed};
ghost use Rattle.cc_terms.specs.CcSpecifiers.declared.derivation.Derivation.{Derivation};
ghost use Rattle.cc_terms.specs.CcSpecifiers.declared.specifier.Specs.{Specs};
ghost use Rattle.cc_terms.specs.CcSpecifiers.declared.storage.Setting.{Setting};
ghost use Rattle.cc_terms.specs.CcSyntax.Programs.{kind_in};
ghost use Rattle.cc_terms.specs.CcSyntax.Sound.{IsSound};
ghost use Rattle.cc_terms.specs.Specifiers.{specified_found};
ghost use Rattle.cc_terms.specs.Terms.{declr_of, spec_here, type_name_of};
ghost use Rattle.cc_tree.specs.declared.at.At.{At};
ghost use Rattle.cc_tree.specs.declared.tree.Declr.{Declr};
ghost use Rattle.cc_tree.specs.declared.tree.Spec.{Spec};
ghost use Rattle.cc_tree.specs.declared.tree.TypeName.{TypeName};
ghost use Rattle.cc_tree.specs.Tokens.{Name};
ghost use Rattle.cc_expression_trees.specs.Types.{Declares, Plain, ShowsBase, ShowsTypeName};

/// What holds of trees that show types of a program, where its structures are known: they are typed to these types, with
/// the numbers that the translation unit gives to structures, and nothing that is known changes. The call does nothing.
pub fn types_are_typed()
    // A structure has its number there; where each has its own, a type is as it was.
    ensures numbered { (number : ℕ → ℕ) (t : CType) (i : ℕ) → out-Shape t.shape ≡ shape.Struct i → out-Shape (type_numbered number t).shape ≡ shape.Struct (number i) }
    ensures own { (t : CType) → type_numbered (λ i. i) t ≡ t }

    // Specifiers name the type that they show, with no storage class and no attribute.
    ensures specifiers { (p : Program) (number : ℕ → ℕ) (roles : Roles) (s : State) → KnowsStructures p number s → (setting : Setting) (b : CType) (ss : List (At Spec)) → ShowsBase p.structures b ss →
        (specs : Specs) × (specs.storage ≡ None) × (specs.marks ≡ []) × (specified_found setting (map (spec_here p.target roles) ss) s ≡ Ok (record { specs = specs; ctype = type_numbered number b }, s)) }

    // A declarator behind them declares what it shows, where the type may stand in the program.
    ensures declarators { (p : Program) (number : ℕ → ℕ) (roles : Roles) (s : State) → IsSound p → KnowsStructures p number s →
        (b t : CType) (d : Declr) (x : Option Name) → Declares p.structures b d (Plain x) t → is_some (kind_in p t) ≡ true → (allowed : Allowed) → allowed.unnamed ≡ true → (at : ℕ) →
        (ds : List (At (Derivation Scope))) × (declr_of p.target roles d allowed at s ≡ Ok (record { name = x; derivations = ds }, s))
        × (type_found p.target (structures_of s) (layouts_of s) allowed (type_numbered number b) ds ≡ Ok (type_numbered number t)) }

    // A type name names the type that it shows, in a cast and elsewhere; `void *` in a cast.
    ensures names { (p : Program) (number : ℕ → ℕ) (roles : Roles) (s : State) → IsSound p → KnowsStructures p number s →
        (t : CType) (type : TypeName) → ShowsTypeName p.structures t type → is_some (kind_in p t) ≡ true → (cast : Bool) → type_name_of p.target roles type cast s ≡ Ok (type_numbered number t, s) }
    ensures void_pointers { (p : Program) (number : ℕ → ℕ) (roles : Roles) (s : State) → IsSound p → KnowsStructures p number s →
        (t void : CType) → out-Shape t.shape ≡ shape.Pointer void → out-Shape void.shape ≡ shape.Void → void.constant ≡ false → void.volatile ≡ false →
        (type : TypeName) → ShowsTypeName p.structures t type → type_name_of p.target roles type true s ≡ Ok (type_numbered number t, s) }
{}
