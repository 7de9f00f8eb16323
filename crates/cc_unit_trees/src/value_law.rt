//! What holds of the printed text of first values.

ghost use Rattle.std.specs.Prelude.{◌≡◌, ℕ, Some, slice_get};
ghost use Rattle.cc_pieces.specs.Pieces.{Pieces, flat};
ghost use Rattle.cc_expression_trees.specs.Parts.{Fits};
ghost use Rattle.cc_print.specs.Values.{value};
ghost use Rattle.cc_program.specs.declared.object.Object.{Object};
ghost use Rattle.cc_program.specs.declared.program.Program.{Program};
ghost use Rattle.cc_typed.specs.CcSyntax.Sound.{IsSound};
ghost use Rattle.cc_expression_trees.specs.Soft.{IsSoft};
ghost use Rattle.cc_unit_trees.specs.ValueNames.{HasUnitNames};
ghost use Rattle.cc_unit_trees.specs.ReadValues.{ReadsGiven};
ghost use Rattle.cc_unit_trees.specs.Values.{ShowsInitial};

/// What holds of the text of the first values of static objects in a sound program, wherever it stands. The call does
/// nothing.
pub fn values_read_back()
    // Its tokens have an initialiser that shows these values.
    ensures values { (p : Program) → IsSound p → (i : ℕ) (o : Object) → slice_get p.objects i ≡ Some o → (at : ℕ) (ps : Pieces) → ReadsGiven (ShowsInitial p o) at (value p o ps) ps }

    // Its pieces part from one another, where names are names and the text behind them begins with a byte that parts.
    ensures values_part { (p : Program) → IsSound p → HasUnitNames p → (i : ℕ) (o : Object) → slice_get p.objects i ≡ Some o → (ps : Pieces) → Fits ps → IsSoft (flat ps) → Fits (value p o ps) }
{}
