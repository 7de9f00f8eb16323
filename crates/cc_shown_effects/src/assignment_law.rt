//! What holds of the trees that show assignments of a program, and places that they access.

ghost use Rattle.std.specs.Prelude.{◌≡◌, ℕ, true, Option, Some, Ok, slice_get};
ghost use Rattle.cc_bodies.specs.Stmts.{taker};
ghost use Rattle.cc_typed_bodies.specs.CcDesignators.Designators.{IsPlace, IsValue};
ghost use Rattle.cc_expression_trees.specs.Exprs.{ShowsPlace, ShowsValue};
ghost use Rattle.cc_typed_bodies.specs.CcLex.declared.token.Mark.TheVariants as m;
ghost use Rattle.cc_typed_bodies.specs.CcOperands.Operands.{operand};
ghost use Rattle.cc_program.specs.declared.expr.Expr.{Assign, Expr, out-Expr};
ghost use Rattle.cc_program.specs.declared.expr.Expr.TheOpen as one;
ghost use Rattle.cc_program.specs.declared.expr.Place.{Place};
ghost use Rattle.cc_program.specs.declared.func.Func.{Func};
ghost use Rattle.cc_program.specs.declared.program.Program.{Program};
ghost use Rattle.cc_program.specs.declared.types.CType.{CType};
ghost use Rattle.cc_typed_bodies.specs.CcScopes.State.{State};
ghost use Rattle.cc_shown_effects.specs.Accesses.{Accesses};
ghost use Rattle.cc_shown_expressions.specs.KnownNames.{KnowsNames};
ghost use Rattle.cc_shown_expressions.specs.Normal.{HasOperand, HasPlace};
ghost use Rattle.cc_shown_expressions.specs.OperationNumbers.{Numbers, expr_numbered, place_numbered};
ghost use Rattle.cc_shown_expressions.specs.Numbers.{place_type_numbered, value_numbered};
ghost use Rattle.cc_typed_bodies.specs.CcSyntax.Sound.{IsSound};
ghost use Rattle.cc_typed_bodies.specs.CcSyntax.Values.{PlaceType, ValueType, is_assignable, read_from, written_to};
ghost use Rattle.cc_typed_bodies.specs.CcTerms.Terms.{tree_of};
ghost use Rattle.cc_tree.specs.declared.at.At.{At};
ghost use Rattle.cc_tree.specs.declared.tree.Tree as tree;

/// What holds of trees that show assignments of a function of a program in normal form, where its structures and names are
/// known (C99 6.5.16). A device without a name is declared where it is first accessed, and nothing else that is known
/// changes. The call does nothing.
pub fn assignments_are_typed()
    // A place that is accessed, a device among them, is typed to it; what names designate is known behind it as in front of it.
    ensures places { (p : Program) (i : ℕ) (f : Func) (n : Numbers) (s u : State) → IsSound p → slice_get p.funcs i ≡ Some f → KnowsNames p f n s →
        (a : Place) (t : PlaceType) (x : tree.Tree) → ShowsPlace p f a x → HasPlace p f a t → Accesses p n s a u → (at : ℕ) →
        tree_of p.target p.roles x at s ≡ Ok (IsPlace (place_numbered n a) (place_type_numbered n.structure t), u) }
    ensures behind { (p : Program) (f : Func) (n : Numbers) (s u : State) → KnowsNames p f n s → (a : Place) → Accesses p n s a u → KnowsNames p f n u }

    // An operand, or what is read from a place, is assigned to a place that may be written.
    ensures operands { (p : Program) (i : ℕ) (f : Func) (n : Numbers) (s u : State) → IsSound p → slice_get p.funcs i ≡ Some f → KnowsNames p f n s →
        (a : Place) (t : PlaceType) (r : Expr) (v w : ValueType) (x y : At tree.Tree) → ShowsPlace p f a x.node → ShowsValue p f (taker (Some t)) r y.node → HasPlace p f a t → written_to t ≡ Some w → HasOperand p f r v → is_assignable w v ≡ true →
        Accesses p n s a u → (at : ℕ) → tree_of p.target p.roles (tree.Assign m.Assign x y) at s ≡ Ok (IsValue (operand (Assign (place_numbered n a) (expr_numbered n r)) (value_numbered n.structure w)), u) }
    ensures reads { (p : Program) (i : ℕ) (f : Func) (n : Numbers) (s u z : State) → IsSound p → slice_get p.funcs i ≡ Some f → KnowsNames p f n s →
        (a b : Place) (t q : PlaceType) (to : Option CType) (r : Expr) (v w : ValueType) (x y : At tree.Tree) → ShowsPlace p f a x.node → ShowsValue p f to r y.node → out-Expr r ≡ one.Load b →
        HasPlace p f a t → written_to t ≡ Some w → HasPlace p f b q → read_from q ≡ Some v → is_assignable w v ≡ true → Accesses p n s a u → Accesses p n u b z → (at : ℕ) →
        tree_of p.target p.roles (tree.Assign m.Assign x y) at s ≡ Ok (IsValue (operand (Assign (place_numbered n a) (expr_numbered n r)) (value_numbered n.structure w)), z) }
{}
