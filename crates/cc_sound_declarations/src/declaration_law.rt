ghost use Rattle.std.specs.Prelude.{◌≡◌, ℕ, true, List, Ok};
ghost use Rattle.cc_typed_bodies.specs.CcSyntax.Views.{View};
ghost use Rattle.cc_program.specs.declared.expr.Expr.{Expr};
ghost use Rattle.cc_program.specs.declared.program.Roles.{Roles};
ghost use Rattle.cc_typed_bodies.specs.CcScopes.State.{State, Name};
ghost use Rattle.cc_sound_declarations.specs.Declaring.{AreDeclared, Declares};
ghost use Rattle.cc_typed_bodies.specs.CcSpecifiers.declared.storage.Where.TheVariants as place;
ghost use Rattle.cc_typed_bodies.specs.CcSyntax.Types.{Named};
ghost use Rattle.cc_tree.specs.declared.unit.Decl.{Decl};
ghost use Rattle.cc_typed_bodies.specs.Declarations.{declaration};
ghost use Rattle.cc_sound_declarations.specs.Ranges.{decl_fits};

/// What holds of a declaration that is found in a function, over any view (C99 6.7, 6.8.5.3): what is declared stands over a view that knows what there is behind it, entries that were there
/// stay of their kind and type, and the automatic objects that it declares stand behind those of the function. The call does nothing.
pub fn declaration_laws()
    // In a block.
    ensures blocks { (v : View) (roles : Roles) (defined : List Name) (parameters : ℕ) (d : Decl) (objects : List Named) (s : State) (r : List Expr × State) → decl_fits d ≡ true → AreDeclared parameters objects s →
        declaration v.target roles defined place.InBlock d s ≡ Ok r → (after : List Named) × Declares v defined s objects r.1 after }

    // In front of a loop, in `for`.
    ensures loops { (v : View) (roles : Roles) (defined : List Name) (parameters : ℕ) (d : Decl) (objects : List Named) (s : State) (r : List Expr × State) → decl_fits d ≡ true → AreDeclared parameters objects s →
        declaration v.target roles defined place.InFor d s ≡ Ok r → (after : List Named) × Declares v defined s objects r.1 after }
{}
