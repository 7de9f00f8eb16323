//! What holds of a tree that shows a program in normal form.

ghost use Rattle.std.specs.Prelude.{◌≡◌, ◌<◌, ◌≤◌, ℕ, List, length, map, Ok};
ghost use Rattle.cc_type.specs.CcLex.Tokens.{Tokens};
ghost use Rattle.cc_type.specs.CcLex.declared.token.Token.{Token};
ghost use Rattle.cc_program.specs.declared.program.Program.{Program};
ghost use Rattle.cc_type.specs.CcScopes.State.{Name, at_first};
ghost use Rattle.cc_type.specs.CcScopes.Verdicts.{checked};
ghost use Rattle.cc_shown_names.specs.Parts.{HasParts};
ghost use Rattle.cc_shown_names.specs.States.{last_state, objects_given, place_at, places, unit_state};
ghost use Rattle.cc_type.specs.CcSyntax.Normal.{IsNormal};
ghost use Rattle.cc_tree.specs.Sentences.{IsSentence};
ghost use Rattle.cc_tree.specs.declared.at.At.{At};
ghost use Rattle.cc_tree.specs.declared.unit.Item.{Item};
ghost use Rattle.cc_tree.specs.declared.unit.Unit.{Unit as UnitTree};
ghost use Rattle.cc_type.specs.Defined.{defined_names};
ghost use Rattle.cc_type.specs.Units.{items_found};
ghost use Rattle.cc_unit_trees.specs.Externals.{AFunction};
ghost use Rattle.cc_unit_trees.specs.Programs.{ShowsExternals, ShowsProgram};

use cc_item_offsets::items_ascend;
use cc_shown_declarations::values_are_typed;

/// What holds of a tree that shows a program in normal form (C99 6.9): behind its last item each device, function and object
/// of the program is known with its number, its type and its definition. The call does nothing.
pub fn units_are_typed()
    // The definitions of functions behind all else, at the offsets of their declarators.
    ensures definitions { (p : Program) → IsNormal p → (defined : List Name) → (objects : List ℕ) (xs : List (At Item)) → length objects ≡ length p.objects → ShowsExternals p (map AFunction p.funcs) xs →
        items_found p.target p.roles defined xs (unit_state p (objects_given p objects)) ≡ Ok (checked, last_state p objects (places xs)) }
    // The whole tree, from what is known in front of it.
    ensures units { (p : Program) → IsNormal p → (u : UnitTree) →
        ShowsProgram p u → (parts : HasParts p u.items) × (items_found p.target p.roles (defined_names u) u.items at_first ≡ Ok (checked, last_state p (places parts.objects) (places parts.functions))) }
    // In the tree of a text the items of objects, and those of functions, begin at offsets that never fall.
    ensures offsets { (p : Program) (text : List ℕ) (ts : List Token) (u : UnitTree) → Tokens text ts → IsSentence ts u → (parts : HasParts p u.items) →
        ((i j : ℕ) → i ≤ j → j < length parts.objects → place_at (places parts.objects) i ≤ place_at (places parts.objects) j)
        × ((i j : ℕ) → i ≤ j → j < length parts.functions → place_at (places parts.functions) i ≤ place_at (places parts.functions) j) }
{
    values_are_typed();
    items_ascend();
}
