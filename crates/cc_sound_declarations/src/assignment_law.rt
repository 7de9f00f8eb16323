ghost use Rattle.std.specs.Prelude.{◌≡◌, ℕ, true, List, Ok};
ghost use Rattle.cc_program.specs.declared.expr.Expr.{Expr};
ghost use Rattle.cc_program.specs.declared.program.Roles.{Roles};
ghost use Rattle.cc_typed_bodies.specs.CcScopes.State.{State, Name};
ghost use Rattle.cc_sound_declarations.specs.Assigns.{AssignsTyped, BodyReached, HasObjects};
ghost use Rattle.cc_sound_declarations.specs.Ranges.{decl_fits};
ghost use Rattle.cc_typed_bodies.specs.CcSpecifiers.declared.storage.Where.TheVariants as place;
ghost use Rattle.cc_typed_bodies.specs.CcSyntax.Types.{Named};
ghost use Rattle.cc_typed_bodies.specs.CcSyntax.Views.{View};
ghost use Rattle.cc_tree.specs.declared.unit.Decl.{Decl};
ghost use Rattle.cc_typed_bodies.specs.Declarations.{declaration};

/// What holds of a declaration that is found in a function, over any view that knows what there is behind it (C99 6.7.8, 11; 6.8.5.3): what it declares stands, and the assignments by which its automatic
/// objects are initialised are typed over all that the function declares. The call does nothing.
pub fn assignment_laws()
    // In a block.
    ensures blocks { (v : View) (parameters : ℕ) (roles : Roles) (defined : List Name) (d : Decl) → decl_fits d ≡ true → (D : List Named) (s : State) (r : List Expr × State) → HasObjects parameters D s →
        declaration v.target roles defined place.InBlock d s ≡ Ok r → BodyReached v parameters defined (List Expr) (AssignsTyped v parameters) D s r }

    // In front of a loop, in `for`.
    ensures loops { (v : View) (parameters : ℕ) (roles : Roles) (defined : List Name) (d : Decl) → decl_fits d ≡ true → (D : List Named) (s : State) (r : List Expr × State) → HasObjects parameters D s →
        declaration v.target roles defined place.InFor d s ≡ Ok r → BodyReached v parameters defined (List Expr) (AssignsTyped v parameters) D s r }
{}
