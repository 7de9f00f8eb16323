//! What holds of the trees that show intrinsics of a program.

ghost use Rattle.std.specs.Prelude.{◌≡◌, ℕ, [], ◌∷◌, true, None, Some, Ok, slice_get};
ghost use Rattle.cc_bodies.specs.Stmts.{intrinsic_name};
ghost use Rattle.cc_typed_bodies.specs.CcDesignators.Designators.{IsValue};
ghost use Rattle.cc_expression_trees.specs.Exprs.{ShowsValue};
ghost use Rattle.cc_typed_bodies.specs.CcOperands.Operands.{operand};
ghost use Rattle.cc_program.specs.declared.expr.Expr.{Expr, out-Expr};
ghost use Rattle.cc_program.specs.declared.expr.Expr.TheOpen as one;
ghost use Rattle.cc_program.specs.declared.expr.Intr.{Intr};
ghost use Rattle.cc_program.specs.declared.func.Func.{Func};
ghost use Rattle.cc_program.specs.declared.program.Program.{Program};
ghost use Rattle.cc_typed_bodies.specs.CcScopes.State.{State};
ghost use Rattle.cc_shown_expressions.specs.KnownNames.{KnowsNames};
ghost use Rattle.cc_shown_expressions.specs.OperationNumbers.{Numbers, expr_numbered};
ghost use Rattle.cc_shown_expressions.specs.Numbers.{value_numbered};
ghost use Rattle.cc_typed_bodies.specs.CcSyntax.Normal.{is_operand};
ghost use Rattle.cc_typed_bodies.specs.CcSyntax.Programs.{type_of};
ghost use Rattle.cc_typed_bodies.specs.CcSyntax.Sound.{IsSound};
ghost use Rattle.cc_typed_bodies.specs.CcSyntax.Values.{ValueType};
ghost use Rattle.cc_typed_bodies.specs.CcTerms.Terms.{tree_of};
ghost use Rattle.cc_tree.specs.declared.at.At.{At};
ghost use Rattle.cc_tree.specs.declared.tree.Tree as tree;

/// What holds of trees that show intrinsics in a function of a program in normal form, where its structures and names are
/// known: the name of an intrinsic, with an operand or none in parentheses, is typed to the intrinsic, and nothing that is
/// known changes. The call does nothing.
pub fn intrinsics_are_typed()
    ensures alone { (p : Program) (i : ℕ) (f : Func) (n : Numbers) (s : State) → IsSound p → slice_get p.funcs i ≡ Some f → KnowsNames p f n s →
        (e : Expr) (a : Intr) (v : ValueType) (j at : ℕ) → out-Expr e ≡ one.Intr a None → type_of p f.locals e ≡ Some v →
        tree_of p.target p.roles (tree.Call (record { at = j; node = tree.Named (intrinsic_name p.roles a) }) []) at s ≡ Ok (IsValue (operand (expr_numbered n e) (value_numbered n.structure v)), s) }
    ensures with_operand { (p : Program) (i : ℕ) (f : Func) (n : Numbers) (s : State) → IsSound p → slice_get p.funcs i ≡ Some f → KnowsNames p f n s →
        (e b : Expr) (a : Intr) (v : ValueType) (j at : ℕ) (x : At tree.Tree) → out-Expr e ≡ one.Intr a (Some b) → type_of p f.locals e ≡ Some v → ShowsValue p f None b x.node → is_operand p.target f b ≡ true →
        tree_of p.target p.roles (tree.Call (record { at = j; node = tree.Named (intrinsic_name p.roles a) }) (x ∷ [])) at s ≡ Ok (IsValue (operand (expr_numbered n e) (value_numbered n.structure v)), s) }
{}
