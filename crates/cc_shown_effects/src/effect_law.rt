//! What holds of the trees that show expression statements of a program.

ghost use Rattle.std.specs.Prelude.{◌≡◌, ℕ, true, Some, Ok, slice_get};
ghost use Rattle.cc_typed_bodies.specs.CcDesignators.Designators.{IsValue};
ghost use Rattle.cc_typed_bodies.specs.CcOperands.Operands.{operand};
ghost use Rattle.cc_program.specs.declared.expr.Expr.{Expr};
ghost use Rattle.cc_program.specs.declared.func.Func.{Func};
ghost use Rattle.cc_program.specs.declared.program.Program.{Program};
ghost use Rattle.cc_typed_bodies.specs.CcScopes.State.{State};
ghost use Rattle.cc_shown_effects.specs.Steps.{Steps};
ghost use Rattle.cc_shown_expressions.specs.KnownNames.{KnowsNames};
ghost use Rattle.cc_shown_expressions.specs.OperationNumbers.{Numbers, expr_numbered};
ghost use Rattle.cc_shown_expressions.specs.Numbers.{value_numbered};
ghost use Rattle.cc_unit_trees.specs.Effects.{ShowsEffect};
ghost use Rattle.cc_typed_bodies.specs.CcSyntax.Forms.{form_of};
ghost use Rattle.cc_typed_bodies.specs.CcSyntax.Normal.{is_expression_statement};
ghost use Rattle.cc_typed_bodies.specs.CcSyntax.Programs.{type_of};
ghost use Rattle.cc_typed_bodies.specs.CcSyntax.Sound.{IsSound};
ghost use Rattle.cc_typed_bodies.specs.CcSyntax.Values.{ValueType};
ghost use Rattle.cc_typed_bodies.specs.CcTerms.Terms.{tree_of};
ghost use Rattle.cc_tree.specs.declared.tree.Tree.{Tree};

/// What holds of trees that show expression statements in normal form of a function of a sound program, where its structures
/// and names are known (C99 6.8.3): they are typed to the assignment, the call or the intrinsic, with the numbers that the
/// translation unit gives. A device without a name is declared where it is first accessed. The call does nothing.
pub fn effects_are_typed()
    ensures effects { (p : Program) (i : ℕ) (f : Func) (n : Numbers) (s u : State) → IsSound p → slice_get p.funcs i ≡ Some f → KnowsNames p f n s →
        (e : Expr) (v : ValueType) (x : Tree) → ShowsEffect p f e x → type_of p f.locals e ≡ Some v → is_expression_statement p.target f (form_of e) ≡ true → Steps p n e s u → (at : ℕ) →
        tree_of p.target p.roles x at s ≡ Ok (IsValue (operand (expr_numbered n e) (value_numbered n.structure v)), u) }
    // What names designate is known behind them as in front of them.
    ensures behind { (p : Program) (i : ℕ) (f : Func) (n : Numbers) (s u : State) → IsSound p → slice_get p.funcs i ≡ Some f → KnowsNames p f n s → (e : Expr) → Steps p n e s u → KnowsNames p f n u }
{}
