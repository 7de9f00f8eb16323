ghost use Rattle.std.specs.Prelude.{◌≡◌, ℕ, List, ◌++◌};
ghost use Rattle.cc_typed_bodies.specs.CcSyntax.Views.{View};
ghost use Rattle.cc_typed_bodies.specs.CcScopes.State.{State, Name};
ghost use Rattle.cc_sound_terms.specs.Behind.{Extends};
ghost use Rattle.cc_sound_terms.specs.Typing.{Knows};
ghost use Rattle.cc_typed_bodies.specs.CcSyntax.Types.{Named};
ghost use Rattle.cc_sound_declarations.specs.Declaring.{AreDeclared, Declares};
ghost use Rattle.cc_sound_declarations.specs.Reached.{GoesOn};

/// How what is declared in a function is put together, over any view (C99 6.2.1, 4; 6.8). The call does nothing.
pub fn declaring_laws()
    // One behind another, and in scopes of their own.
    ensures goes_on { (v : View) (defined : List Name) (parameters : ℕ) → GoesOn (Declares v defined) (λ D s t. Knows v D s t) (AreDeclared parameters) }

    // An expression declares no automatic object.
    ensures expressions { (v : View) (defined : List Name) (s t : State) (D : List Named) → Extends v s t → Declares v defined s D t D }

    // What is known of some objects of the function is known of all.
    ensures wider { (v : View) (s t : State) (D more L : List Named) → L ≡ D ++ more → Knows v D s t → Knows v L s t }
{}
