ghost use Rattle.std.specs.Prelude.{◌≡◌, Bool, true, false, List, Some};
ghost use Rattle.cc_sound_declarations.specs.Scalars.{scalars_of};
ghost use Rattle.cc_typed_bodies.specs.CcInitialisers.Contents.{contents};
ghost use Rattle.cc_typed_bodies.specs.CcInitialisers.Scalars.{scalars_from};
ghost use Rattle.cc_operand_types.specs.Typed.{MembersStand, is_pointed_kind};
ghost use Rattle.cc_program.specs.Qualifiers.{is_const};
ghost use Rattle.cc_program.specs.declared.expr.Place.{Place};
ghost use Rattle.cc_program.specs.declared.types.CType.{CType};
ghost use Rattle.cc_sound_declarations.specs.Places.{ArePlaces};
ghost use Rattle.cc_typed_bodies.specs.CcScopes.State.{State, structures_of};
ghost use Rattle.cc_sound_terms.specs.Knowing.{KnowsStructures};
ghost use Rattle.cc_typed_bodies.specs.CcSyntax.Types.{Named};
ghost use Rattle.cc_typed_bodies.specs.CcSyntax.Values.{ObjectPlace};
ghost use Rattle.cc_typed_bodies.specs.CcSyntax.Views.{View, kind_in};
ghost use Rattle.cc_typed_bodies.specs.CcSyntax.Expressions.{place_type};

/// The places of the scalars of an object, over any view that knows the structures of a state and in which members of structures may be designated, and any locals (C99 6.7.8, 20). The call does nothing.
pub fn place_laws()
    // Each is the place of a scalar of its type, const where that is, and the type of its value may stand.
    ensures scalars { (v : View) (locals : List Named) → MembersStand v → (s : State) → KnowsStructures v s.structures → (t : CType) (a : Place) (constant volatile : Bool) → is_pointed_kind false (kind_in v t) ≡ true →
        place_type v locals a ≡ Some (ObjectPlace constant volatile t) → constant ≡ is_const t →
        ArePlaces v locals (scalars_of (contents (structures_of s) t false)) (scalars_from v.target (contents (structures_of s) t false) 0 a) }
{}
