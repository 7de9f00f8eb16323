//! What the type rules make of operands that have the types that a program writes out.

ghost use Rattle.std.specs.Prelude.{◌≡◌, ℕ, ℤ, true, false, List, Ok};
ghost use Rattle.cc_terms.specs.CcDesignators.Casts.{cast_of};
ghost use Rattle.cc_terms.specs.CcDesignators.Designators.{IsAddress, IsValue, null};
ghost use Rattle.cc_program.specs.CcNum.declared.int_type.IntType.{IntType};
ghost use Rattle.cc_program.specs.CcNum.declared.op.BinOp.{BinOp};
ghost use Rattle.cc_program.specs.CcNum.declared.op.UnOp.{UnOp};
ghost use Rattle.cc_program.specs.CcNum.declared.target.Target.{Target};
ghost use Rattle.cc_program.specs.CcNum.Integers.{is_value_of};
ghost use Rattle.cc_shown_expressions.specs.Assigned.{AssignedAs};
ghost use Rattle.cc_shown_expressions.specs.Operators.{NullsAgree, operator_for, unary_for};
ghost use Rattle.cc_terms.specs.CcOperands.Arithmetic.{binary_of, both, either, truth, worked};
ghost use Rattle.cc_terms.specs.CcOperands.Choices.{choose_of, chosen_integer};
ghost use Rattle.cc_terms.specs.CcOperands.Operands.{Operand, cast_to, constancy, integer, is_null_constant, is_pointer, is_to_void, null_of, operand};
ghost use Rattle.cc_terms.specs.CcOperands.Qualified.{unqualified};
ghost use Rattle.cc_terms.specs.CcOperands.Unary.{negated, unary_of};
ghost use Rattle.cc_terms.specs.CcOperands.declared.operator.Operator.TheVariants as operator;
ghost use Rattle.cc_program.specs.declared.expr.Expr.{Choose, Compare, Const, Gap, Move, Qualify};
ghost use Rattle.cc_program.specs.declared.types.CType.{CType};
ghost use Rattle.cc_program.specs.declared.types.Shape.{out-Shape};
ghost use Rattle.cc_program.specs.declared.types.Shape.TheOpen as shape;
ghost use Rattle.cc_program.specs.declared.types.Structure.{Structure};
ghost use Rattle.cc_terms.specs.CcSyntax.Folding.{Value};
ghost use Rattle.cc_terms.specs.CcSyntax.Operators.{common_type, difference_type, has_difference, is_promoted, points_to_object, second_fits};
ghost use Rattle.cc_terms.specs.CcSyntax.Values.{Integer, ValueType, is_assignable, is_scalar, is_void, point_alike, pointer_to};

/// What the type rules make of operands that have the types that a program writes out (C99 6.5): the operation on them as they are, with no conversion more. The call does nothing.
pub fn operands_stay()
    // Operators on integers of a promoted type; of a shift the second operand has one of its own.
    ensures unary { (target : Target) (o : UnOp) (t : IntType) (x : Operand) → is_promoted target t ≡ true → x.type ≡ Integer t → unary_of target (unary_for o) x ≡ Ok (negated target o t x) }
    ensures binary { (target : Target) (structures : List Structure) (o : BinOp) (t s : IntType) (x y : Operand) → is_promoted target t ≡ true → second_fits target o t (Integer s) ≡ true → x.type ≡ Integer t → y.type ≡ Integer s →
        binary_of target structures (operator_for o) x y ≡ Ok (worked target o t x y) }

    // Pointers that are moved by an integer, which is not promoted, their differences and comparisons.
    ensures moved { (target : Target) (structures : List Structure) (x y : Operand) (s : IntType) → points_to_object structures x.type ≡ true → y.type ≡ Integer s → binary_of target structures operator.Sum x y ≡ Ok (operand (Move x.value y.value false) x.type) }
    ensures moved_back { (target : Target) (structures : List Structure) (x y : Operand) (s : IntType) → points_to_object structures x.type ≡ true → y.type ≡ Integer s → binary_of target structures operator.Difference x y ≡ Ok (operand (Move x.value y.value true) x.type) }
    ensures differences { (target : Target) (structures : List Structure) (x y : Operand) → point_alike x.type y.type ≡ true → has_difference structures x.type ≡ true →
        binary_of target structures operator.Difference x y ≡ Ok (operand (Gap x.value y.value) (Integer (difference_type target))) }
    ensures comparisons { (target : Target) (structures : List Structure) (o : BinOp) (x y : Operand) → point_alike x.type y.type ≡ true → NullsAgree x y → binary_of target structures (operator.Comparison o) x y ≡ Ok (truth (Compare o x.value y.value)) }

    // `&&` and `||` of scalars, and `?:` with arms of one type.
    ensures both { (target : Target) (structures : List Structure) (x y : Operand) → is_scalar x.type ≡ true → is_scalar y.type ≡ true → binary_of target structures operator.Both x y ≡ Ok (both x y) }
    ensures either { (target : Target) (structures : List Structure) (x y : Operand) → is_scalar x.type ≡ true → is_scalar y.type ≡ true → binary_of target structures operator.Either x y ≡ Ok (either x y) }
    ensures chosen_integers { (target : Target) (c x y : Operand) (t : IntType) → is_scalar c.type ≡ true → x.structure ≡ false → y.structure ≡ false → x.type ≡ Integer t → y.type ≡ Integer t → is_promoted target t ≡ true →
        choose_of target c x y ≡ Ok (chosen_integer t c x y) }
    ensures chosen_pointers { (target : Target) (c x y : Operand) → is_scalar c.type ≡ true → x.structure ≡ false → y.structure ≡ false → is_pointer x.type ≡ true → is_pointer y.type ≡ true → is_null_constant x ≡ false → is_null_constant y ≡ false →
        point_alike x.type y.type ≡ true → is_to_void x.type ≡ false → choose_of target c x y ≡ Ok (operand (Choose c.value x.value y.value) (common_type target x.type y.type)) }

    // What can be assigned stays as it is; a null constant becomes a null of the type, and a constant one of an integer type that has its value.
    ensures assigned { (target : Target) (to : ValueType) (x : Operand) → x.structure ≡ false → (is_pointer to ≡ true → is_null_constant x ≡ false) → is_assignable to x.type ≡ true → AssignedAs target to x x.value }
    ensures assigned_nulls { (target : Target) (to : ValueType) (x : Operand) → is_pointer to ≡ true → x.structure ≡ false → is_scalar x.type ≡ true → is_null_constant x ≡ true → AssignedAs target to x (null_of to) }
    ensures assigned_constants { (target : Target) (n : ℤ) (s t : IntType) → is_value_of t target n ≡ true → AssignedAs target (Integer t) (integer n s) (Const n t) }

    // Casts: of an integer; of an integer constant and of a null to a pointer, and of a pointer to the same type.
    ensures integer_casts { (target : Target) (at : ℕ) (t : CType) (i s : IntType) (x : Operand) → out-Shape t.shape ≡ shape.Int i → x.type ≡ Integer s → cast_of target at t x ≡ Ok (IsValue (cast_to target i x)) }
    ensures constant_casts { (target : Target) (at : ℕ) (t to : CType) (n : ℤ) (s : IntType) (x : Operand) → out-Shape t.shape ≡ shape.Pointer to → is_void to ≡ false → x.type ≡ Integer s → constancy x ≡ Value n →
        cast_of target at t x ≡ Ok (IsAddress n (unqualified t) at) }
    ensures void_casts { (target : Target) (at : ℕ) (t to : CType) (x : Operand) → out-Shape t.shape ≡ shape.Pointer to → is_void to ≡ true → is_scalar x.type ≡ true → is_null_constant x ≡ true → cast_of target at t x ≡ Ok (IsValue (null (unqualified t))) }
    ensures null_casts { (target : Target) (at : ℕ) (t to : CType) (x : Operand) → out-Shape t.shape ≡ shape.Pointer to → is_void to ≡ false → is_pointer x.type ≡ true → is_null_constant x ≡ true → cast_of target at t x ≡ Ok (IsValue (null (unqualified t))) }
    ensures pointer_casts { (target : Target) (at : ℕ) (t to : CType) (x : Operand) → out-Shape t.shape ≡ shape.Pointer to → is_void to ≡ false → is_pointer x.type ≡ true → is_null_constant x ≡ false → is_assignable (pointer_to to) x.type ≡ true →
        cast_of target at t x ≡ Ok (IsValue (operand (Qualify (unqualified t) x.value) (pointer_to to))) }
{}
