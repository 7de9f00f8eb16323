ghost use Rattle.std.specs.Prelude.{◌≡◌, ℕ, Ok};
ghost use Rattle.cc_terms.specs.CcDesignators.Designators.{TypedExpr};
ghost use Rattle.cc_folded_operands.specs.Folded.{IsFoldedExpr, IsFoldedOperand};
ghost use Rattle.cc_program.specs.CcNum.declared.target.Target.{Target};
ghost use Rattle.cc_terms.specs.CcOperands.Operands.{Operand};
ghost use Rattle.cc_program.specs.declared.program.Roles.{Roles};
ghost use Rattle.cc_terms.specs.CcScopes.State.{State};
ghost use Rattle.cc_terms.specs.Terms.{here, tree_of};
ghost use Rattle.cc_tree.specs.declared.at.At.{At};
ghost use Rattle.cc_tree.specs.declared.tree.Tree.{Tree};
ghost use Rattle.cc_terms.specs.CcTypedTerms.Values.{value_found};

/// What expressions are found to be (C99 6.5), whatever is known where they stand: no part of one but a constant is an
/// integer constant expression that has a value (6.6). The call does nothing.
pub fn term_laws()
    ensures designated { (target : Target) (roles : Roles) → (e : Tree) (at : ℕ) (s : State) (r : TypedExpr × State) → tree_of target roles e at s ≡ Ok r → IsFoldedExpr target r.0 }

    // The value of an expression.
    ensures values { (target : Target) (roles : Roles) → (e : At Tree) (s : State) (r : Operand × State) → value_found (here target roles e) s ≡ Ok r → IsFoldedOperand target r.0 }
{}
