//! What holds of the structures of a program while its text declares them.

ghost use Rattle.std.specs.Prelude.{◌≡◌, ℕ, suc, true, List, [], length, map, Ok, Some, slice_get};
ghost use Rattle.cc_unit_trees.specs.Items.{ShowsMembers};
ghost use Rattle.cc_program.specs.declared.program.Program.{Program};
ghost use Rattle.cc_program.specs.declared.program.Roles.{Roles};
ghost use Rattle.cc_program.specs.declared.types.Structure.{Structure};
ghost use Rattle.cc_type.specs.CcScopes.Structures.{completed};
ghost use Rattle.cc_shown_declarations.specs.Order.{appearance, order_before, structure_number, with_first, with_members};
ghost use Rattle.cc_shown_declarations.specs.States.{first_state};
ghost use Rattle.cc_shown_expressions.specs.Known.{KnowsStructures};
ghost use Rattle.cc_shown_expressions.specs.Numbers.{named_numbered};
ghost use Rattle.cc_type.specs.CcSyntax.Sound.{IsSound};
ghost use Rattle.cc_type.specs.CcSyntax.Types.{has_members};
ghost use Rattle.cc_type.specs.CcTerms.Structures.{members_found};
ghost use Rattle.cc_type.specs.CcTerms.Terms.{members_here};
ghost use Rattle.cc_tree.specs.declared.at.At.{At};
ghost use Rattle.cc_tree.specs.declared.tree.MemberDecl.{MemberDecl};

/// What holds of the structures of a sound program while its text declares them (C99 6.7.2.1, 6.7.2.3): those in front are
/// complete, and of those to come some are named, by the order in which the text names them first. The call does nothing.
pub fn structures_are_declared()
    // The declarations that show the members of the next one declare them, with the unit's numbers, and the structures that their
    // words name first.
    ensures members { (p : Program) (roles : Roles) → IsSound p → (k : ℕ) (s : Structure) → slice_get p.structures k ≡ Some s → (ms : List (At MemberDecl)) → ShowsMembers p.structures s.members ms →
        members_found (map (members_here p.target roles) ms) (first_state p k (with_first k (order_before p k)))
        ≡ Ok (map (named_numbered (structure_number p)) s.members, first_state p k (with_members s.members (with_first k (order_before p k)))) }
    // Behind its members it is complete.
    ensures completions { (p : Program) → IsSound p → (k : ℕ) (s : Structure) → slice_get p.structures k ≡ Some s → has_members (Some s) ≡ true →
        completed p.target (structure_number p k) (map (named_numbered (structure_number p)) s.members) (first_state p k (order_before p (suc k))) ≡ first_state p (suc k) (order_before p (suc k)) }
    // Behind all of them each is known, as complete as it is in the program.
    ensures known { (p : Program) → IsSound p → KnowsStructures p (structure_number p) (first_state p (length p.structures) (appearance p)) }
{}
