//! What holds of the trees that show first values of a program.

ghost use Rattle.std.specs.Prelude.{◌≡◌, ℕ, Bool, true, false, List, [], map, Ok, Some, slice_get};
ghost use Rattle.cc_type.specs.CcInitialisers.Contents.{contents};
ghost use Rattle.cc_type.specs.CcInitialisers.Initialisers.{here, initialised};
ghost use Rattle.cc_type.specs.CcObjects.Values.{leaf_given, no_leaf};
ghost use Rattle.cc_type.specs.CcTypedTerms.Primary.{leaves_or_none};
ghost use Rattle.cc_program.specs.declared.object.Object.{Object};
ghost use Rattle.cc_program.specs.declared.program.Program.{Program};
ghost use Rattle.cc_program.specs.declared.types.CType.{CType};
ghost use Rattle.cc_program.specs.declared.value.Leaf.{Leaf};
ghost use Rattle.cc_type.specs.CcScopes.State.{State, structures_of};
ghost use Rattle.cc_shown_expressions.specs.OperationNumbers.{Numbers};
ghost use Rattle.cc_shown_expressions.specs.Numbers.{type_numbered};
ghost use Rattle.cc_shown_declarations.specs.Known.{KnowsStatics};
ghost use Rattle.cc_shown_declarations.specs.Numbers.{leaf_numbered};
ghost use Rattle.cc_type.specs.CcSyntax.Programs.{AreLeaves};
ghost use Rattle.cc_type.specs.CcSyntax.Sound.{IsSound};
ghost use Rattle.cc_type.specs.CcSyntax.Types.{is_complete};
ghost use Rattle.cc_tree.specs.declared.at.At.{At};
ghost use Rattle.cc_tree.specs.declared.unit.Given.{Given};
ghost use Rattle.cc_type.specs.CcTypedBodies.Plans.{steps_done};
ghost use Rattle.cc_unit_trees.specs.Values.{ShowsGiven, ShowsInitial};

/// What holds of initialisers that show first values of a sound program, where its structures are known and names designate
/// its static objects and functions (C99 6.7.8, 6.6): their steps give each scalar its value, with the numbers that the
/// translation unit gives to objects and functions, and nothing that is known changes. The call does nothing.
pub fn values_are_typed()
    ensures values { (p : Program) (n : Numbers) (s : State) → IsSound p → KnowsStatics p n s →
        (t : CType) (leaves : List Leaf) (g : At Given) → ShowsGiven p t leaves [] g.node → AreLeaves p t leaves [] → is_complete p.structures t ≡ true → (constant : Bool) →
        steps_done p.target p.roles Leaf (leaf_given p.target) no_leaf (initialised (contents (structures_of s) (type_numbered n.structure t) constant) (here g)) s ≡ Ok (map (leaf_numbered n) leaves, s) }
    // Those of an object are its own; where it has none, they are all zero or null (C99 6.7.8, 10).
    ensures objects { (p : Program) (n : Numbers) (s : State) → IsSound p → KnowsStatics p n s →
        (i : ℕ) (o : Object) → slice_get p.objects i ≡ Some o → (g : At Given) → ShowsInitial p o g.node →
        (leaves : List Leaf) × (leaves_or_none leaves ≡ map (leaf_numbered n) o.init)
        × (steps_done p.target p.roles Leaf (leaf_given p.target) no_leaf (initialised (contents (structures_of s) (type_numbered n.structure o.ctype) false) (here g)) s ≡ Ok (leaves, s)) }
{}
