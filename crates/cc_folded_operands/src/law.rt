ghost use Rattle.std.specs.Prelude.{◌≡◌, ℕ, ℤ, Bool, true, List, Ok};
ghost use Rattle.cc_designators.specs.Assignments.{assign_of, stepped_after, stepped_before};
ghost use Rattle.cc_designators.specs.Calls.{called, intrinsic};
ghost use Rattle.cc_designators.specs.Casts.{cast_of, size_value};
ghost use Rattle.cc_designators.specs.Designators.{TypedExpr, null, value_at};
ghost use Rattle.cc_designators.specs.Postfix.{address, arrow, dot, element, indirection, subscripted};
ghost use Rattle.cc_folded_operands.specs.Folded.{IsFoldedExpr, IsFoldedOperand};
ghost use Rattle.cc_operands.specs.CcLex.declared.token.Mark.{Mark};
ghost use Rattle.cc_program.specs.CcNum.declared.int_type.IntType.{IntType};
ghost use Rattle.cc_program.specs.CcNum.declared.target.Target.{Target};
ghost use Rattle.cc_operands.specs.Arithmetic.{binary_of};
ghost use Rattle.cc_operands.specs.Assignments.{assigned};
ghost use Rattle.cc_operands.specs.Choices.{choose_of, comma_of};
ghost use Rattle.cc_operands.specs.Operands.{Operand, converted_to, integer};
ghost use Rattle.cc_operands.specs.Unary.{unary_of};
ghost use Rattle.cc_operands.specs.declared.operator.Operator.{Operator};
ghost use Rattle.cc_operands.specs.declared.operator.UnaryOperator.{UnaryOperator};
ghost use Rattle.cc_program.proofs.Each.{Each};
ghost use Rattle.cc_program.specs.declared.expr.Intr.{Intr as Intrinsic};
ghost use Rattle.cc_program.specs.declared.expr.Place.{Place};
ghost use Rattle.cc_program.specs.declared.types.CType.{CType};
ghost use Rattle.cc_program.specs.declared.types.Structure.{Structure};
ghost use Rattle.cc_operands.specs.CcSyntax.Folding.{is_folded, is_folded_place};
ghost use Rattle.cc_operands.specs.CcSyntax.Values.{PlaceType, ValueType};

/// What operators make of folded operands (C99 6.5.3.3, 6.5.5 to 6.5.17). The call does nothing.
pub fn operand_laws()
    ensures constants { (target : Target) → (n : ℤ) (t : IntType) → IsFoldedOperand target (integer n t) }
    ensures conversions { (target : Target) → (t : IntType) (x : Operand) → IsFoldedOperand target x → IsFoldedOperand target (converted_to target t x) }
    ensures unary { (target : Target) → (o : UnaryOperator) (x r : Operand) → IsFoldedOperand target x → unary_of target o x ≡ Ok r → IsFoldedOperand target r }
    ensures binary { (target : Target) → (structures : List Structure) (o : Operator) (x y r : Operand) → IsFoldedOperand target x → IsFoldedOperand target y → binary_of target structures o x y ≡ Ok r → IsFoldedOperand target r }
    ensures choices { (target : Target) → (c x y r : Operand) → IsFoldedOperand target c → IsFoldedOperand target x → IsFoldedOperand target y → choose_of target c x y ≡ Ok r → IsFoldedOperand target r }
    ensures commas { (target : Target) → (x y r : Operand) → IsFoldedOperand target x → IsFoldedOperand target y → comma_of x y ≡ Ok r → IsFoldedOperand target r }

    // As it is assigned, an operand is taken as an expression.
    ensures assigned { (target : Target) → (to : ValueType) (x r : Operand) → IsFoldedOperand target x → assigned target to x ≡ Ok r → is_folded target r.value ≡ true }
{}

/// What is made of what expressions designate, where they are folded (C99 6.3.2.1, 6.5.2 to 6.5.4, 6.5.16). The call does nothing.
pub fn designator_laws()
    ensures values { (target : Target) → (a : Place) (t : PlaceType) (r : Operand) → is_folded_place target a ≡ true → value_at a t ≡ Ok r → IsFoldedOperand target r }
    ensures nulls { (target : Target) → (t : CType) → IsFoldedOperand target (null t) }
    ensures elements { (target : Target) → (a : Place) (t : PlaceType) (i : Operand) (r : TypedExpr) → is_folded_place target a ≡ true → IsFoldedOperand target i → element a t i ≡ Ok r → IsFoldedExpr target r }
    ensures subscripts { (target : Target) → (structures : List Structure) (x i : Operand) (r : TypedExpr) → IsFoldedOperand target x → IsFoldedOperand target i → subscripted structures x i ≡ Ok r → IsFoldedExpr target r }
    ensures members { (target : Target) → (structures : List Structure) (x : List ℕ) (a r : TypedExpr) → IsFoldedExpr target a → dot structures x a ≡ Ok r → IsFoldedExpr target r }
    ensures arrows { (target : Target) → (structures : List Structure) (x : List ℕ) (p : Operand) (r : TypedExpr) → IsFoldedOperand target p → arrow structures x p ≡ Ok r → IsFoldedExpr target r }
    ensures addresses { (target : Target) → (a : TypedExpr) (r : Operand) → IsFoldedExpr target a → address a ≡ Ok r → IsFoldedOperand target r }
    ensures indirections { (target : Target) → (p : Operand) (r : TypedExpr) → IsFoldedOperand target p → indirection p ≡ Ok r → IsFoldedExpr target r }
    ensures casts { (target : Target) → (at : ℕ) (t : CType) (x : Operand) (r : TypedExpr) → IsFoldedOperand target x → cast_of target at t x ≡ Ok r → IsFoldedExpr target r }
    ensures sizes { (target : Target) → (n : ℕ) (r : Operand) → size_value target n ≡ Ok r → IsFoldedOperand target r }
    ensures calls { (target : Target) → (f : Operand) (xs : List Operand) (r : Operand) → IsFoldedOperand target f → Each (IsFoldedOperand target) xs → called target f xs ≡ Ok r → IsFoldedOperand target r }
    ensures intrinsics { (target : Target) → (i : Intrinsic) (xs : List Operand) (r : Operand) → Each (IsFoldedOperand target) xs → intrinsic target i xs ≡ Ok r → IsFoldedOperand target r }
    ensures assignments { (target : Target) → (structures : List Structure) (mark : Mark) (a : TypedExpr) (x r : Operand) → IsFoldedExpr target a → IsFoldedOperand target x → assign_of target structures mark a x ≡ Ok r → IsFoldedOperand target r }
    ensures before { (target : Target) → (structures : List Structure) (down : Bool) (a : TypedExpr) (r : Operand) → IsFoldedExpr target a → stepped_before target structures down a ≡ Ok r → IsFoldedOperand target r }
    ensures after { (target : Target) → (structures : List Structure) (down : Bool) (a : TypedExpr) (r : Operand) → IsFoldedExpr target a → stepped_after structures down a ≡ Ok r → IsFoldedOperand target r }
{}
