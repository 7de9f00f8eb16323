ghost use Rattle.std.specs.Prelude.{◌≡◌};
ghost use Rattle.cc_program.specs.declared.expr.Expr.{Expr};
ghost use Rattle.cc_program.specs.declared.expr.Place.{Place};
ghost use Rattle.cc_syntax.specs.Effects.{Registers, effects_of, place_effects_of};
ghost use Rattle.cc_syntax.specs.Programs.{type_of, place_type};
ghost use Rattle.cc_eval.specs.Context.{Context};
ghost use Rattle.cc_eval.specs.Eval.{meaning, designation};
ghost use Rattle.cc_eval.specs.Marks.{UsesFirst, Stays, UsesAll};

/// What holds of all expressions and places, wherever they stand. The call does nothing.
pub fn laws()
    // An answer uses the first marks, the same ones whatever stands behind them, and so does a trap.
    ensures marks { (c : Context) (e : Expr) (later : Registers) → UsesFirst ((meaning c e).next later) }
    ensures place_marks { (c : Context) (a : Place) (later : Registers) → UsesFirst ((designation c a).leads later) }

    // So under more marks an answer stays the same, and a trap; and where a step is waited for no mark is left.
    ensures stays { (c : Context) (e : Expr) (later : Registers) → Stays ((meaning c e).next later) }
    ensures place_stays { (c : Context) (a : Place) (later : Registers) → Stays ((designation c a).leads later) }
    ensures waits { (c : Context) (e : Expr) (later : Registers) → UsesAll ((meaning c e).next later) }
    ensures place_waits { (c : Context) (a : Place) (later : Registers) → UsesAll ((designation c a).leads later) }

    // The type, and what is known before a run, are those of the expression or the place.
    ensures types { (c : Context) (e : Expr) → (meaning c e).ctype ≡ type_of c.program c.func.locals e }
    ensures place_types { (c : Context) (a : Place) → (designation c a).ctype ≡ place_type c.program c.func.locals a }
    ensures effects { (c : Context) (e : Expr) → (meaning c e).effects ≡ effects_of c.func e }
    ensures place_effects { (c : Context) (a : Place) → (designation c a).effects ≡ place_effects_of c.func a }
{}
