//! What holds of the trees that show calls of a program.

ghost use Rattle.std.specs.Prelude.{◌≡◌, ℕ, true, List, Some, Ok, slice_get};
ghost use Rattle.std.specs.List.{list_all};
ghost use Rattle.cc_bodies.specs.Stmts.{parameters_of};
ghost use Rattle.cc_typed_bodies.specs.CcDesignators.Designators.{IsValue};
ghost use Rattle.cc_expression_trees.specs.Exprs.{ShowsExpr};
ghost use Rattle.cc_typed_bodies.specs.CcOperands.Operands.{operand};
ghost use Rattle.cc_program.specs.declared.expr.Expr.{Expr, out-Expr};
ghost use Rattle.cc_program.specs.declared.expr.Expr.TheOpen as one;
ghost use Rattle.cc_program.specs.declared.func.Func.{Func};
ghost use Rattle.cc_program.specs.declared.program.Program.{Program};
ghost use Rattle.cc_typed_bodies.specs.CcScopes.State.{State};
ghost use Rattle.cc_shown_expressions.specs.KnownNames.{KnowsNames};
ghost use Rattle.cc_shown_expressions.specs.OperationNumbers.{Numbers, expr_numbered};
ghost use Rattle.cc_shown_expressions.specs.Numbers.{value_numbered};
ghost use Rattle.cc_unit_trees.specs.Effects.{ShowsArguments};
ghost use Rattle.cc_typed_bodies.specs.CcSyntax.Programs.{type_of};
ghost use Rattle.cc_typed_bodies.specs.CcSyntax.Forms.{form_of};
ghost use Rattle.cc_typed_bodies.specs.CcSyntax.Normal.{is_callee, is_operand};
ghost use Rattle.cc_typed_bodies.specs.CcSyntax.Sound.{IsSound};
ghost use Rattle.cc_typed_bodies.specs.CcSyntax.Values.{ValueType};
ghost use Rattle.cc_typed_bodies.specs.CcTerms.Terms.{tree_of};
ghost use Rattle.cc_tree.specs.declared.at.At.{At};
ghost use Rattle.cc_tree.specs.declared.tree.Tree as tree;

/// What holds of trees that show calls of a function of a program in normal form, where its structures and names are known
/// (C99 6.5.2.2): what is called is a function or a register, and each argument is passed to its parameter as it is, and
/// nothing that is known changes. The call does nothing.
pub fn calls_are_typed()
    ensures { (p : Program) (i : ℕ) (f : Func) (n : Numbers) (s : State) → IsSound p → slice_get p.funcs i ≡ Some f → KnowsNames p f n s →
        (e g : Expr) (args : List Expr) (v : ValueType) (x : At tree.Tree) (xs : List (At tree.Tree)) → out-Expr e ≡ one.Call g args → type_of p f.locals e ≡ Some v → ShowsExpr p f g x.node → ShowsArguments p f (parameters_of (type_of p f.locals g)) args xs →
        is_callee p.target f (form_of g) ≡ true → list_all (is_operand p.target f) args ≡ true → (at : ℕ) →
        tree_of p.target p.roles (tree.Call x xs) at s ≡ Ok (IsValue (operand (expr_numbered n e) (value_numbered n.structure v)), s) }
{}
