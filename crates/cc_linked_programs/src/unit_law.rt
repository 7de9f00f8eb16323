ghost use Rattle.std.specs.Prelude.{◌≡◌, ℕ, true, List, None, Some, map, nat_eq, slice_get};
ghost use Rattle.std.specs.List.{list_any};
ghost use Rattle.cc_causes.specs.Causes.{bad_handler, cause_of_things};
ghost use Rattle.cc_link.specs.Linked.{all_ids, ids_in, program};
ghost use Rattle.cc_linked_names.specs.Given.{name_at, reserved_names};
ghost use Rattle.cc_program.specs.CcNum.declared.target.Target.{Target};
ghost use Rattle.cc_program.specs.declared.program.Roles.{Roles};
ghost use Rattle.cc_relocated_units.specs.Renumbering.{Renumbers};
ghost use Rattle.cc_relocated_units.specs.Units.{unit_view, IsSoundUnit};
ghost use Rattle.cc_structures.specs.Structures.{AreNumbered, Known, Numbering};
ghost use Rattle.cc_operands.specs.CcSyntax.Views.{of_program};
ghost use Rattle.cc_things.specs.Things.{things};
ghost use Rattle.cc_things.specs.declared.text.Text.{Text};
ghost use Rattle.cc_unit.specs.Mentioned.{mentioned};

/// Of sound sources against which no cause stands, the program's view has what each mentions, by its numbers: structures, objects, devices and functions,
/// with their types (C99 6.2.2, 6.2.7). The call does nothing.
pub fn linked_unit_laws()
    ensures renumbers { (texts : List Text) (target : Target) → ((t : ℕ) (x : Text) → slice_get texts t ≡ Some x → IsSoundUnit target x.unit) → (roles : Roles) (numbering : Numbering) (firsts : List Known) → AreNumbered (map (λ (x : Text). x.unit) texts) numbering firsts →
        cause_of_things numbering (things texts) ≡ None → bad_handler (things texts) roles (name_at (things texts) (reserved_names texts roles) roles firsts) ≡ None → (t : ℕ) (x : Text) → slice_get texts t ≡ Some x →
        Renumbers (unit_view target x.unit) (of_program (program texts roles numbering firsts target)) (ids_in (all_ids texts numbering) t) (λ i. list_any (nat_eq i) (mentioned x.unit.names)) }
{}
