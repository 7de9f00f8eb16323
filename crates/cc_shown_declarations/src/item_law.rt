//! What holds of the items that show the structures of a program.

ghost use Rattle.std.specs.Prelude.{◌≡◌, ◌++◌, List, length, map, Ok};
ghost use Rattle.cc_program.specs.declared.program.Program.{Program};
ghost use Rattle.cc_program.specs.declared.program.Roles.{Roles};
ghost use Rattle.cc_type.specs.CcScopes.State.{Name, at_first};
ghost use Rattle.cc_type.specs.CcScopes.Verdicts.{checked};
ghost use Rattle.cc_shown_declarations.specs.Order.{appearance};
ghost use Rattle.cc_shown_declarations.specs.States.{first_state};
ghost use Rattle.cc_type.specs.CcSyntax.Sound.{IsSound};
ghost use Rattle.cc_tree.specs.declared.at.At.{At};
ghost use Rattle.cc_tree.specs.declared.unit.Item.{Item};
ghost use Rattle.cc_type.specs.Units.{items_found};
ghost use Rattle.cc_unit_trees.specs.Externals.{ATag, AStructure, announced};
ghost use Rattle.cc_unit_trees.specs.Programs.{ShowsExternals};

/// What holds of the items that show the structures of a sound program, those that are announced in front (C99 6.7.2.1,
/// 6.7.2.3): in front of all else they declare each structure, in the order in which the text names them first, as complete
/// as it is in the program, and nothing else. The call does nothing.
pub fn structure_items_are_typed()
    ensures items { (p : Program) (roles : Roles) (defined : List Name) → IsSound p → (xs : List (At Item)) →
        ShowsExternals p (map ATag (announced p.structures 0 p.structures) ++ map AStructure p.structures) xs →
        items_found p.target roles defined xs at_first ≡ Ok (checked, first_state p (length p.structures) (appearance p)) }
{}
