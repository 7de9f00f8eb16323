ghost use Rattle.std.specs.Prelude.{◌≡◌, true, List, is_some};
ghost use Rattle.std.specs.List.{list_all};
ghost use Rattle.cc_sound_declarations.specs.Scalars.{OneScalar};
ghost use Rattle.cc_sound_declarations.specs.Values.{AreGiven};
ghost use Rattle.cc_typed_bodies.specs.CcObjects.Values.{assignments};
ghost use Rattle.cc_program.specs.declared.expr.Expr.{Expr};
ghost use Rattle.cc_program.specs.declared.expr.Place.{Place};
ghost use Rattle.cc_sound_declarations.specs.Places.{ArePlaces};
ghost use Rattle.cc_operand_types.specs.Reduced.{ReducedLocals};
ghost use Rattle.cc_typed_bodies.specs.CcSyntax.Types.{Named};
ghost use Rattle.cc_typed_bodies.specs.CcSyntax.Views.{View};
ghost use Rattle.cc_typed_bodies.specs.CcSyntax.Expressions.{type_of};

/// What holds of the assignments by which an automatic object is initialised, over any view (C99 6.7.8, 11). The call does nothing.
pub fn typed_laws()
    // Over the locals of the function, which have lost their const, the places of scalars take what these are given over the locals as they are declared.
    ensures typed { (v : View) (locals declared : List Named) → ReducedLocals locals declared → (scalars : List OneScalar) (places : List Place) (values : List Expr) →
        ArePlaces v locals scalars places → AreGiven v declared scalars values → list_all (λ e. is_some (type_of v locals e)) (assignments places values) ≡ true }
{}
