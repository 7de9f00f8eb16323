//! What holds of the printed text of expressions.

ghost use Rattle.std.specs.Prelude.{◌≡◌, ◌≤◌, ◌-◌, ◌^◌, ℕ, Some, true, slice_get};
ghost use Rattle.std.specs.Option.{is_some};
ghost use Rattle.cc_bodies.specs.Exprs.{expr, place_text};
ghost use Rattle.cc_bodies.specs.Spots.{Spot};
ghost use Rattle.cc_expression_trees.specs.Exprs.{ShowsAt, ShowsPlace};
ghost use Rattle.cc_expression_trees.specs.Names.{HasNames};
ghost use Rattle.cc_expression_trees.specs.ReadExpressions.{ReadsTree, tightest, tightest_place};
ghost use Rattle.cc_pieces.specs.Pieces.{Pieces, flat};
ghost use Rattle.cc_expression_trees.specs.Parts.{Fits};
ghost use Rattle.cc_program.specs.declared.expr.Expr.{Expr};
ghost use Rattle.cc_program.specs.declared.expr.Place.{Place};
ghost use Rattle.cc_program.specs.declared.func.Func.{Func};
ghost use Rattle.cc_program.specs.declared.object.Device.{Device};
ghost use Rattle.cc_program.specs.declared.program.Program.{Program};
ghost use Rattle.cc_typed.specs.CcSyntax.Effects.{no_one, effects_of, place_effects_of};
ghost use Rattle.cc_typed.specs.CcSyntax.Programs.{type_of, place_type};
ghost use Rattle.cc_expression_trees.specs.Soft.{IsSoft};

/// What holds of the text of an expression that has a type and no effect, and of a place with such operands,
/// wherever they stand. The call does nothing.
pub fn expressions_read_back()
    // Their tokens have trees that show them, of each level up to that which the text can be read at.
    ensures expressions { (p : Program) (f : Func) (e : Expr) → is_some (type_of p f.locals e) ≡ true → (effects_of f e).pure no_one ≡ true →
        (spot : Spot) (l at : ℕ) (ps : Pieces) → l ≤ tightest spot → ReadsTree (ShowsAt p f spot e) l at (expr p f e spot ps) ps }
    ensures places { (p : Program) (f : Func) (a : Place) → is_some (place_type p f.locals a) ≡ true → (place_effects_of f a).pure no_one ≡ true →
        (spot : Spot) (l at : ℕ) (ps : Pieces) → l ≤ tightest_place spot → ReadsTree (ShowsPlace p f a) l at (place_text p f a spot ps) ps }

    // Their pieces part from one another, where names are names and the text behind them begins with a byte that parts.
    ensures expressions_part { (p : Program) (f : Func) → HasNames p f → ((i : ℕ) (d : Device) → slice_get p.devices i ≡ Some d → d.number ≤ 2 ^ 63 - 1) →
        (e : Expr) → is_some (type_of p f.locals e) ≡ true → (effects_of f e).pure no_one ≡ true → (spot : Spot) (ps : Pieces) → Fits ps → IsSoft (flat ps) → Fits (expr p f e spot ps) }
    ensures places_part { (p : Program) (f : Func) → HasNames p f → ((i : ℕ) (d : Device) → slice_get p.devices i ≡ Some d → d.number ≤ 2 ^ 63 - 1) →
        (a : Place) → is_some (place_type p f.locals a) ≡ true → (place_effects_of f a).pure no_one ≡ true → (spot : Spot) (ps : Pieces) → Fits ps → IsSoft (flat ps) → Fits (place_text p f a spot ps) }
{}
