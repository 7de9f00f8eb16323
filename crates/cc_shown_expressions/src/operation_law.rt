//! What holds of the trees that show operations of a program.

ghost use Rattle.std.specs.Prelude.{◌≡◌, ℕ};
ghost use Rattle.cc_bodies.specs.Exprs.{binary_mark, movement_mark, unary_mark};
ghost use Rattle.cc_terms.specs.CcLex.declared.token.Mark.TheVariants as m;
ghost use Rattle.cc_program.specs.CcNum.declared.int_type.IntType.{IntType};
ghost use Rattle.cc_program.specs.CcNum.declared.op.UnOp.{UnOp};
ghost use Rattle.cc_program.specs.declared.expr.Expr.{Expr, FuncAddr, Null, out-Expr};
ghost use Rattle.cc_program.specs.declared.expr.Place.{Local, Static};
ghost use Rattle.cc_program.specs.declared.expr.Place.{Device as DeviceAt};
ghost use Rattle.cc_program.specs.declared.types.CType.{CType};
ghost use Rattle.cc_program.specs.declared.expr.Expr.TheOpen as one;
ghost use Rattle.cc_program.specs.declared.func.Func.{Func};
ghost use Rattle.cc_program.specs.declared.program.Program.{Program};
ghost use Rattle.cc_expression_trees.specs.Exprs.{IsBinary};
ghost use Rattle.cc_terms.specs.CcScopes.State.{State};
ghost use Rattle.cc_shown_expressions.specs.Normal.{HasOperand};
ghost use Rattle.cc_shown_expressions.specs.OperationNumbers.{Numbers, expr_numbered, place_numbered};
ghost use Rattle.cc_shown_expressions.specs.Typed.{IsShown};
ghost use Rattle.cc_shown_expressions.specs.Numbers.{type_numbered};
ghost use Rattle.cc_shown_expressions.specs.Known.{KnowsStructures};
ghost use Rattle.cc_terms.specs.CcSyntax.Values.{ValueType};
ghost use Rattle.cc_tree.specs.declared.at.At.{At};
ghost use Rattle.cc_tree.specs.declared.tree.Tree as tree;
ghost use Rattle.cc_terms.specs.CcLex.declared.token.Mark.{Mark};

/// What holds of trees that show operations of a program in normal form, where its structures are known: with operands
/// that are typed to those of the program they are typed to the operation (C99 6.5.3.3, 6.5.5 to 6.5.14), and nothing that
/// is known changes. The call does nothing.
pub fn operations_are_typed()
    // Objects, devices, functions and the types of nulls have their numbers there; registers are as they were.
    ensures numbered { (n : Numbers) (i : ℕ) → (place_numbered n (Static i) ≡ Static (n.object i)) × (place_numbered n (DeviceAt i) ≡ DeviceAt (n.device i)) × (place_numbered n (Local i) ≡ Local i) × (expr_numbered n (FuncAddr i) ≡ FuncAddr (n.func i)) }
    ensures nulls { (n : Numbers) (t : CType) → expr_numbered n (Null t) ≡ Null (type_numbered n.structure t) }

    ensures unary { (p : Program) (f : Func) (n : Numbers) (s : State) → KnowsStructures p n.structure s →
        (o : UnOp) (t : IntType) (a e : Expr) (v : ValueType) (x : At tree.Tree) (at : ℕ) → out-Expr e ≡ one.Un o t a → HasOperand p f e v →
        ((u : ValueType) → HasOperand p f a u → IsShown p n s x.node x.at a u) → IsShown p n s (tree.Prefix (unary_mark o) x) at e v }
    ensures binary { (p : Program) (f : Func) (n : Numbers) (s : State) → KnowsStructures p n.structure s →
        (o : Mark) (a b e : Expr) (v : ValueType) (x y : At tree.Tree) (at : ℕ) → IsBinary (out-Expr e) o a b → HasOperand p f e v →
        ((u : ValueType) → HasOperand p f a u → IsShown p n s x.node x.at a u) → ((u : ValueType) → HasOperand p f b u → IsShown p n s y.node y.at b u) → IsShown p n s (tree.Binary o x y) at e v }
{}
