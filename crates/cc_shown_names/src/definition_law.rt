//! What holds of the definitions that show the functions of a program, one behind another.

ghost use Rattle.std.specs.Prelude.{◌≡◌, ◌≤◌, ℕ, List, Ok, Some, drop, length, true};
ghost use Rattle.std.specs.List.{flat_map, list_all};
ghost use Rattle.cc_program.specs.declared.func.Func.{Func};
ghost use Rattle.cc_program.specs.declared.program.Program.{Program};
ghost use Rattle.cc_type.specs.CcScopes.State.{Name, State};
ghost use Rattle.cc_type.specs.CcScopes.Verdicts.{checked};
ghost use Rattle.cc_shown_names.specs.Definitions.{KnowsFile, ShowsFunctions, with_definitions};
ghost use Rattle.cc_shown_expressions.specs.OperationNumbers.{Numbers};
ghost use Rattle.cc_type.specs.CcSyntax.Normal.{devices_in, is_normal_body, next_of};
ghost use Rattle.cc_type.specs.CcSyntax.Sound.{IsSound};
ghost use Rattle.cc_tree.specs.declared.at.At.{At};
ghost use Rattle.cc_tree.specs.declared.unit.Item.{Item};
ghost use Rattle.cc_type.specs.Units.{items_found};

/// What holds of the definitions that show functions in normal form of a sound program, where all that it names is declared
/// (C99 6.9). The call does nothing.
pub fn definitions_are_typed()
    // One behind another they are typed to the functions, with the numbers that the translation unit gives.
    ensures definitions { (p : Program) (n : Numbers) (first behind i : ℕ) (s : State) → IsSound p → list_all (λ f. is_normal_body p.target f) p.funcs ≡ true →
        (defined : List Name) (fs : List Func) (xs : List (At Item)) → drop i p.funcs ≡ fs → ShowsFunctions p fs xs → KnowsFile p n first s → next_of first (flat_map (λ f. devices_in f.body) fs) ≡ Some behind → behind ≤ length p.devices →
        items_found p.target p.roles defined xs s ≡ Ok (checked, with_definitions p n fs xs i first s) }
    // What is known in front of them is known behind them, and which devices they have declared.
    ensures behind { (p : Program) (n : Numbers) (first behind i : ℕ) (s : State) → IsSound p → (fs : List Func) (xs : List (At Item)) → drop i p.funcs ≡ fs → length xs ≡ length fs → KnowsFile p n first s →
        next_of first (flat_map (λ f. devices_in f.body) fs) ≡ Some behind → behind ≤ length p.devices → KnowsFile p n behind (with_definitions p n fs xs i first s) }
{}
