ghost use Rattle.std.specs.Prelude.{◌≡◌, true, false, List, Ok};
ghost use Rattle.cc_read_sound.specs.Values.{AreFirst, HasContents};
ghost use Rattle.cc_sound_declarations.specs.Scalars.{scalars_of};
ghost use Rattle.cc_sound_declarations.specs.Values.{MayStand};
ghost use Rattle.cc_type.specs.CcInitialisers.Contents.{Contents, contents};
ghost use Rattle.cc_type.specs.CcInitialisers.Initialisers.{here, initialised};
ghost use Rattle.cc_type.specs.CcObjects.Values.{leaf_given, no_leaf};
ghost use Rattle.cc_type.specs.CcTypedTerms.Primary.{leaves_or_none};
ghost use Rattle.cc_program.proofs.Each.{Each};
ghost use Rattle.cc_program.specs.declared.program.Roles.{Roles};
ghost use Rattle.cc_program.specs.declared.types.CType.{CType};
ghost use Rattle.cc_program.specs.declared.value.Leaf.{Leaf};
ghost use Rattle.cc_type.specs.CcScopes.State.{State, structures_of};
ghost use Rattle.cc_sound_declarations.specs.Ranges.{given_in_range};
ghost use Rattle.cc_sound_terms.specs.Behind.{Extends};
ghost use Rattle.cc_sound_terms.specs.Ordered.{IsOrdered};
ghost use Rattle.cc_sound_terms.specs.Typing.{Knows};
ghost use Rattle.cc_type.specs.CcSyntax.Initial.{IsInitial};
ghost use Rattle.cc_type.specs.CcSyntax.Types.{Named, is_complete};
ghost use Rattle.cc_type.specs.CcSyntax.Views.{View};
ghost use Rattle.cc_tree.specs.declared.at.At.{At};
ghost use Rattle.cc_tree.specs.declared.unit.Given.{Given};
ghost use Rattle.cc_type.specs.CcTypedBodies.Plans.{steps_done};

/// What an initialiser of an object with static storage duration gives, over any view and any locals (C99 6.6, 6.7.8, 4 and 10). The call does nothing.
pub fn first_value_laws()
    // Where the types of the object's scalars may stand, each of them is given a value of its type, in the order of paths: an integer, or an address constant that may be assigned to it.
    ensures values { (v : View) (locals : List Named) (roles : Roles) (c : Contents) (g : At Given) → given_in_range g.node ≡ true → (s : State) (r : List Leaf × State) →
        steps_done v.target roles Leaf (leaf_given v.target) no_leaf (initialised c (here g)) s ≡ Ok r →
        Extends v s r.1 × (Knows v locals s r.1 → Each (MayStand v) (scalars_of c) → AreFirst v (scalars_of c) r.0) }

    // Over a view that has the members that structures have, values of the scalars of a complete type are first values of an object of it; none are kept where all are zero or null.
    ensures objects { (v : View) (s : State) (u : CType) → HasContents v s.structures → IsOrdered s → is_complete (structures_of s) u ≡ true → (leaves : List Leaf) →
        AreFirst v (scalars_of (contents (structures_of s) u false)) leaves → IsInitial v u (leaves_or_none leaves) }
{}
