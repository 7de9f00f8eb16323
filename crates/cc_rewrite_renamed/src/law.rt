ghost use Rattle.std.specs.Prelude.{◌≡◌, ℕ, Bool, true, List};
ghost use Rattle.cc_eval.specs.declared.mark.Mark.{Mark};
ghost use Rattle.cc_eval.specs.Eval.{meaning};
ghost use Rattle.cc_program.specs.declared.expr.Expr.{Expr};
ghost use Rattle.cc_program.specs.declared.func.Func.{Func};
ghost use Rattle.cc_program.specs.declared.object.Object.{Object};
ghost use Rattle.cc_program.specs.declared.program.Program.{Program};
ghost use Rattle.cc_rewrite_renamed.specs.Names.{names_in_expr};
ghost use Rattle.cc_rewrite_renamed.specs.Objects.{expr_renamed, func_renamed, with_objects};
ghost use Rattle.cc_rewrite_renamed.specs.Renaming.{AreRenamed, in_program, marks_renamed, may_renamed, progress_renamed};
ghost use Rattle.cc_eval.specs.CcSyntax.Effects.{Registers, effects_of};
ghost use Rattle.cc_eval.specs.CcSyntax.Programs.{type_of};

/// What an expression does where static objects have other numbers. The call does nothing.
pub fn renaming_laws()
    // Whatever its steps have given, it asks for the same step, traps at the same place or gives the same value, by the other numbers.
    ensures does { (object : ℕ → ℕ) (objects : List Object) (p : Program) → AreRenamed object objects p → (number id : ℕ) (f : Func) (e : Expr) (later : Registers) (ms : List Mark) →
        (meaning (in_program (with_objects object objects p) number id (func_renamed object f)) (expr_renamed object e)).next later (marks_renamed object ms)
        ≡ progress_renamed object (may_renamed object) ((meaning (in_program p number id f) e).next later ms) }

    // One that names only objects which keep their numbers is the same.
    ensures stays { (test : ℕ → Bool) (object : ℕ → ℕ) → ((i : ℕ) → test i ≡ true → object i ≡ i) → (e : Expr) → names_in_expr test e ≡ true → expr_renamed object e ≡ e }

    // Its type is the same, and so is what is known of it before it runs.
    ensures types { (object : ℕ → ℕ) (objects : List Object) (p : Program) → AreRenamed object objects p → (f : Func) (e : Expr) →
        type_of (with_objects object objects p) f.locals (expr_renamed object e) ≡ type_of p f.locals e }
    ensures known_before { (object : ℕ → ℕ) (objects : List Object) (p : Program) → AreRenamed object objects p → (f : Func) (e : Expr) → effects_of (func_renamed object f) (expr_renamed object e) ≡ effects_of f e }
{}
