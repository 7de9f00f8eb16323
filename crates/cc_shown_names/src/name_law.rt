//! What holds of the items that show what a program declares by name.

ghost use Rattle.std.specs.Prelude.{◌≡◌, ℕ, false, List, [], length, map, Ok, Some, slice_get};
ghost use Rattle.std.specs.List.{filter, list_any};
ghost use Rattle.std.specs.Str.{bytes_eq};
ghost use Rattle.cc_program.specs.declared.object.Device.{Device};
ghost use Rattle.cc_program.specs.declared.program.Program.{Program};
ghost use Rattle.cc_type.specs.CcScopes.State.{Name};
ghost use Rattle.cc_type.specs.CcScopes.Verdicts.{checked};
ghost use Rattle.cc_shown_names.specs.Definitions.{KnowsFile};
ghost use Rattle.cc_shown_names.specs.Numbers.{read_numbers};
ghost use Rattle.cc_shown_names.specs.States.{devices_declared, functions_declared, objects_declared, objects_given, places, unit_state};
ghost use Rattle.cc_type.specs.CcSyntax.Normal.{IsNormal, count_named, has_name};
ghost use Rattle.cc_type.specs.CcSyntax.Sound.{IsSound};
ghost use Rattle.cc_tree.specs.declared.at.At.{At};
ghost use Rattle.cc_tree.specs.declared.unit.Item.{Item};
ghost use Rattle.cc_type.specs.Units.{items_found};
ghost use Rattle.cc_unit_trees.specs.Externals.{ADevice, APrototype, AValue, AnObject, is_given};
ghost use Rattle.cc_unit_trees.specs.Programs.{ShowsExternals};

use cc_shown_declarations::values_are_typed;

/// What holds of the items that show what a sound program declares by name, behind those of its structures (C99 6.7, 6.9.2):
/// each kind leaves known what was known in front of it, and the names that it declares. The call does nothing.
pub fn names_are_declared()
    // Devices with names, which no object of the unit has.
    ensures devices { (p : Program) → IsSound p → (defined : List Name) → ((i : ℕ) (d : Device) (x : Name) → slice_get p.devices i ≡ Some d → d.name ≡ Some x → list_any (bytes_eq x) defined ≡ false) →
        (xs : List (At Item)) → ShowsExternals p (map ADevice (filter has_name p.devices)) xs → items_found p.target p.roles defined xs (unit_state p []) ≡ Ok (checked, unit_state p (devices_declared p)) }
    // Functions, by their prototypes.
    ensures functions { (p : Program) → IsSound p → (defined : List Name) → (xs : List (At Item)) → ShowsExternals p (map APrototype p.funcs) xs →
        items_found p.target p.roles defined xs (unit_state p (devices_declared p)) ≡ Ok (checked, unit_state p (functions_declared p)) }
    // Objects without their first values, at the offsets of their items.
    ensures objects { (p : Program) → IsSound p → (defined : List Name) → (xs : List (At Item)) → ShowsExternals p (map AnObject p.objects) xs →
        items_found p.target p.roles defined xs (unit_state p (functions_declared p)) ≡ Ok (checked, unit_state p (objects_declared p (places xs))) }
    // The first values of objects.
    ensures values { (p : Program) → IsSound p → (defined : List Name) → (offsets : List ℕ) (xs : List (At Item)) → length offsets ≡ length p.objects → ShowsExternals p (map AValue (filter is_given p.objects)) xs →
        items_found p.target p.roles defined xs (unit_state p (objects_declared p offsets)) ≡ Ok (checked, unit_state p (objects_given p offsets)) }
    // All that definitions name is known behind them.
    ensures file { (p : Program) → IsNormal p → (offsets : List ℕ) → length offsets ≡ length p.objects → KnowsFile p (read_numbers p) (count_named p.devices) (unit_state p (objects_given p offsets)) }
{
    values_are_typed();
}
