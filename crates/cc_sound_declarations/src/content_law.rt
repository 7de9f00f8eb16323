ghost use Rattle.std.specs.Prelude.{◌≡◌, true, false};
ghost use Rattle.cc_typed_bodies.specs.CcInitialisers.Contents.{contents};
ghost use Rattle.cc_program.specs.declared.types.CType.{CType};
ghost use Rattle.cc_typed_bodies.specs.CcScopes.State.{State, structures_of};
ghost use Rattle.cc_sound_terms.specs.Growing.{StructuresKept};
ghost use Rattle.cc_sound_terms.specs.Ordered.{IsOrdered};
ghost use Rattle.cc_typed_bodies.specs.CcSyntax.Types.{is_complete};

/// What objects consist of (C99 6.2.5, 20; 6.7.2.1, 2). The call does nothing.
pub fn content_laws()
    // An object of a type that is complete consists of the same where more structures are declared and completed, since structures stand in the order of their closing braces.
    ensures stable { (s t : State) → StructuresKept s.structures t.structures → IsOrdered s → (u : CType) → is_complete (structures_of s) u ≡ true → contents (structures_of s) u false ≡ contents (structures_of t) u false }
{}
