//! What holds of the lines that show statements of a program with no other in them.

ghost use Rattle.std.specs.Prelude.{◌≡◌, ℕ, [], ◌∷◌, List, true, None, Some, Ok, slice_get};
ghost use Rattle.cc_expression_trees.specs.Exprs.{ShowsValue};
ghost use Rattle.cc_program.specs.declared.expr.Expr.{Expr};
ghost use Rattle.cc_program.specs.declared.func.Func.{Func};
ghost use Rattle.cc_program.specs.declared.program.Program.{Program};
ghost use Rattle.cc_program.specs.declared.stmt.Stmt.{Stmt, out-Stmt};
ghost use Rattle.cc_program.specs.declared.stmt.Stmt.TheOpen as is;
ghost use Rattle.cc_program.specs.declared.types.CType.{CType};
ghost use Rattle.cc_typed_bodies.specs.CcScopes.State.{Name, State};
ghost use Rattle.cc_shown_effects.specs.Steps.{Steps};
ghost use Rattle.cc_shown_effects.specs.Numbers.{stmt_numbered};
ghost use Rattle.cc_shown_expressions.specs.Fits.{FitsValue};
ghost use Rattle.cc_shown_expressions.specs.KnownNames.{KnowsNames};
ghost use Rattle.cc_shown_expressions.specs.Normal.{HasOperand};
ghost use Rattle.cc_shown_expressions.specs.OperationNumbers.{Numbers};
ghost use Rattle.cc_shown_expressions.specs.Numbers.{type_numbered};
ghost use Rattle.cc_unit_trees.specs.Effects.{ShowsEffect};
ghost use Rattle.cc_typed_bodies.specs.CcSyntax.Forms.{form_of};
ghost use Rattle.cc_typed_bodies.specs.CcSyntax.Normal.{is_expression_statement};
ghost use Rattle.cc_typed_bodies.specs.CcSyntax.Programs.{type_of};
ghost use Rattle.cc_typed_bodies.specs.CcSyntax.Sound.{IsSound};
ghost use Rattle.cc_typed_bodies.specs.CcSyntax.Values.{ValueType, is_assignable, is_void, scalar_value};
ghost use Rattle.cc_tree.specs.declared.at.At.{At};
ghost use Rattle.cc_tree.specs.declared.tree.Tree.{Tree};
ghost use Rattle.cc_tree.specs.declared.unit.Line as line;
ghost use Rattle.cc_typed_bodies.specs.Lines.{line_of};
ghost use Rattle.cc_typed_bodies.specs.CcTypedStatements.declared.jumps.Jumps.{Jumps};

/// What holds of lines that show statements with no other in them, in a function of a sound program with this result, where
/// its structures and names are known (C99 6.8.3, 6.8.6): they are typed to the statement, with the numbers that the
/// translation unit gives. The call does nothing.
pub fn lines_are_typed()
    ensures effects { (p : Program) (i : ℕ) (f : Func) (n : Numbers) (s u : State) → IsSound p → slice_get p.funcs i ≡ Some f → KnowsNames p f n s → (defined : List Name) (result : CType) →
        (t : Stmt) (e : Expr) (v : ValueType) (x : At Tree) → out-Stmt t ≡ is.Do e → ShowsEffect p f e x.node → type_of p f.locals e ≡ Some v → is_expression_statement p.target f (form_of e) ≡ true → Steps p n e s u → (j : Jumps) (at : ℕ) →
        (line_of p.target p.roles defined result (line.Expr (Some x))).line j at s ≡ Ok (stmt_numbered n t ∷ [], u) }
    ensures breaks { (p : Program) (n : Numbers) (s : State) (defined : List Name) (result : CType) (t : Stmt) → out-Stmt t ≡ is.Break → (j : Jumps) → j.breaks ≡ true → (at : ℕ) →
        (line_of p.target p.roles defined result line.Break).line j at s ≡ Ok (stmt_numbered n t ∷ [], s) }
    ensures continues { (p : Program) (n : Numbers) (s : State) (defined : List Name) (result : CType) (t : Stmt) → out-Stmt t ≡ is.Continue → (j : Jumps) → j.continues ≡ true → (at : ℕ) →
        (line_of p.target p.roles defined result line.Continue).line j at s ≡ Ok (stmt_numbered n t ∷ [], s) }
    ensures returns { (p : Program) (n : Numbers) (s : State) (defined : List Name) (result : CType) (t : Stmt) → out-Stmt t ≡ is.Return None → is_void result ≡ true → (j : Jumps) (at : ℕ) →
        (line_of p.target p.roles defined result (line.Return None)).line j at s ≡ Ok (stmt_numbered n t ∷ [], s) }
    ensures values { (p : Program) (i : ℕ) (f : Func) (n : Numbers) (s : State) → IsSound p → slice_get p.funcs i ≡ Some f → KnowsNames p f n s → (defined : List Name) →
        (t : Stmt) (e : Expr) (r : CType) (v w : ValueType) (x : At Tree) → out-Stmt t ≡ is.Return (Some e) → ShowsValue p f (Some r) e x.node → HasOperand p f e v → scalar_value r ≡ Some w → FitsValue p w → is_assignable w v ≡ true → (j : Jumps) (at : ℕ) →
        (line_of p.target p.roles defined (type_numbered n.structure r) (line.Return (Some x))).line j at s ≡ Ok (stmt_numbered n t ∷ [], s) }
{}
