//! What the definitions say of some rows.

ghost use Rattle.std.specs.Prelude.{◌≡◌, [], ◌∷◌, map, Some, None, codes};
ghost use Rattle.cc_rows.specs.Numbers.{number_in};
ghost use Rattle.cc_rows.specs.Rows.{rows_of};
ghost use Rattle.cc_cost.specs.Rules.{first_fault};

/// Numbers, rows and faults, for example. The call does nothing.
pub fn laws()
    // Numbers up to 1,000, and fields that are none: one too large, one with a leading zero, one with a sign, an empty one.
    ensures numbers { map (number_in 0 1000) (codes "0" ∷ codes "1000" ∷ codes "1001" ∷ codes "01" ∷ codes "+1" ∷ [] ∷ []) ≡ Some 0 ∷ Some 1000 ∷ None ∷ None ∷ None ∷ None ∷ [] }

    // An empty line is no row, and quotes are no part of a field.
    ensures rows { rows_of (codes "\nint,2,\n\"char\",signed") ≡ (codes "int" ∷ codes "2" ∷ [] ∷ []) ∷ (codes "char" ∷ codes "signed" ∷ []) ∷ [] }

    // A key that stands twice, with a value that is not allowed, and with one that is.
    ensures refused { first_fault ((codes "int" ∷ codes "2" ∷ [] ∷ []) ∷ (codes "int" ∷ codes "3" ∷ [] ∷ []) ∷ []) ≡ Some (2, 3) }
    ensures twice { first_fault ((codes "int" ∷ codes "2" ∷ [] ∷ []) ∷ (codes "int" ∷ codes "4" ∷ [] ∷ []) ∷ []) ≡ Some (2, 4) }

    // A handler with the default name of an intrinsic: alone, and where a row behind it gives the intrinsic another name,
    // or that of the handler.
    ensures by_default { first_fault ((codes "handler" ∷ codes "irq_on" ∷ [] ∷ []) ∷ []) ≡ Some (1, 6) }
    ensures renamed { first_fault ((codes "handler" ∷ codes "irq_on" ∷ [] ∷ []) ∷ (codes "intrinsic" ∷ codes "on" ∷ codes "sei" ∷ []) ∷ []) ≡ None }
    ensures by_rows { first_fault ((codes "handler" ∷ codes "sei" ∷ [] ∷ []) ∷ (codes "intrinsic" ∷ codes "on" ∷ codes "sei" ∷ []) ∷ []) ≡ Some (2, 6) }
{}
