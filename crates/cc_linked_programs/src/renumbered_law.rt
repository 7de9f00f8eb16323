ghost use Rattle.std.specs.Prelude.{◌≡◌, ℕ, true, List, None, Some, nat_eq, slice_get};
ghost use Rattle.std.specs.List.{list_any};
ghost use Rattle.cc_causes.specs.Causes.{cause_of_things};
ghost use Rattle.cc_link.specs.Linked.{all_ids, ids_in, program};
ghost use Rattle.cc_program.specs.CcNum.declared.target.Target.{Target};
ghost use Rattle.cc_program.specs.declared.program.Roles.{Roles};
ghost use Rattle.cc_relocated_units.specs.Renumbering.{place_type_renumbered};
ghost use Rattle.cc_relocated_units.specs.Units.{unit_view, IsSoundUnit};
ghost use Rattle.cc_operand_types.specs.Reduced.{ReducedPlace};
ghost use Rattle.cc_structures.specs.Structures.{Known, Numbering};
ghost use Rattle.cc_operands.specs.CcSyntax.Types.{Named};
ghost use Rattle.cc_operands.specs.CcSyntax.Values.{PlaceType};
ghost use Rattle.cc_operands.specs.CcSyntax.Views.{of_program};
ghost use Rattle.cc_operands.specs.CcSyntax.Expressions.{place_type};
ghost use Rattle.cc_things.specs.Things.{things};
ghost use Rattle.cc_things.specs.declared.text.Text.{Text};
ghost use Rattle.cc_unit.specs.Mentioned.{mentioned};
ghost use Rattle.cc_unit.specs.Renumbered.{device_by, object_by};

/// Of sound sources against whose things no cause stands, the program's view has what each mentions, by its numbers: objects with their types, and devices
/// with theirs, which may be objects there (`Renumbers`). The call does nothing.
pub fn renumbered_view_laws()
    ensures objects { (texts : List Text) (target : Target) → ((t : ℕ) (x : Text) → slice_get texts t ≡ Some x → IsSoundUnit target x.unit) → (roles : Roles) (numbering : Numbering) (firsts : List Known) → cause_of_things numbering (things texts) ≡ None →
        (t : ℕ) (x : Text) → slice_get texts t ≡ Some x → (i : ℕ) (a : PlaceType) → list_any (nat_eq i) (mentioned x.unit.names) ≡ true → (unit_view target x.unit).statics i ≡ Some a →
        (of_program (program texts roles numbering firsts target)).statics (object_by (slice_get (ids_in (all_ids texts numbering) t).names i)) ≡ Some (place_type_renumbered (ids_in (all_ids texts numbering) t).structures a) }
    ensures devices { (texts : List Text) (target : Target) → ((t : ℕ) (x : Text) → slice_get texts t ≡ Some x → IsSoundUnit target x.unit) → (roles : Roles) (numbering : Numbering) (firsts : List Known) → cause_of_things numbering (things texts) ≡ None →
        (t : ℕ) (x : Text) → slice_get texts t ≡ Some x → (i : ℕ) (a : PlaceType) → list_any (nat_eq i) (mentioned x.unit.names) ≡ true → (unit_view target x.unit).devices i ≡ Some a → (locals : List Named) →
        (b : PlaceType) × (place_type (of_program (program texts roles numbering firsts target)) locals (device_by (slice_get (ids_in (all_ids texts numbering) t).names i)) ≡ Some b)
        × ReducedPlace b (place_type_renumbered (ids_in (all_ids texts numbering) t).structures a) }
{}
