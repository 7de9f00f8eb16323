//! What a structure contains comes before it in the program, as in its source.

ghost use Rattle.std.specs.Prelude.{◌≡◌, ℕ, true, List, [], length, Some, slice_get};
ghost use Rattle.cc_program.specs.CcNum.declared.target.Target.{Target};
ghost use Rattle.cc_program.specs.declared.types.CType.{CType};
ghost use Rattle.cc_structures.specs.Structures.{Known, Numbering, AreNumbered, type_in};
ghost use Rattle.cc_operands.specs.CcSyntax.Kinds.{Kind, kind_of, extent_in, extent_with};
ghost use Rattle.cc_operands.specs.CcSyntax.Lists.{come_first};
ghost use Rattle.cc_operands.specs.CcSyntax.Sound.{are_structures, is_only_named};
ghost use Rattle.cc_unit.specs.declared.unit.TypedUnit.{TypedUnit};
ghost use Rattle.cc_relocated_units.specs.Linked.{linked, structures_of, AllStand};

/// Where the structures of each source stand as those of a sound program do, so do those of the program, whatever tags they have; and a type
/// of a source has the kind in the program that it has there. The call does nothing.
pub fn structure_laws()
    // What a structure contains comes before it.
    ensures in_order { (units : List TypedUnit) (numbering : Numbering) (firsts : List Known) (tags : List (List ℕ)) (target : Target) → AreNumbered units numbering firsts → length tags ≡ length firsts →
        AllStand target units → are_structures [] (length (linked numbering tags firsts)) target (linked numbering tags firsts) ≡ true }
    // Those that are only named stand in front.
    ensures named_first { (units : List TypedUnit) (numbering : Numbering) (firsts : List Known) (tags : List (List ℕ)) (target : Target) → AreNumbered units numbering firsts → length tags ≡ length firsts →
        AllStand target units → come_first is_only_named (linked numbering tags firsts) ≡ true }
    // A type has its kind.
    ensures kinds { (units : List TypedUnit) (numbering : Numbering) (firsts : List Known) (tags : List (List ℕ)) (target : Target) → AreNumbered units numbering firsts → length tags ≡ length firsts →
        AllStand target units → (t : ℕ) (u : TypedUnit) → slice_get units t ≡ Some u → (c : CType) (k : Kind) → kind_of target (extent_with (structures_of u) (length u.structures) target) c ≡ Some k →
        kind_of target (extent_in (linked numbering tags firsts) target) (type_in numbering t c) ≡ Some k }
{}
