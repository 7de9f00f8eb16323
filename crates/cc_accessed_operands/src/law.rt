ghost use Rattle.std.specs.Prelude.{◌≡◌, ◌||◌, ℕ, Bool, List, Ok};
ghost use Rattle.std.specs.List.{list_any};
ghost use Rattle.cc_accessed_operands.specs.Accessed.{accesses, of_place, place_access};
ghost use Rattle.cc_accessed_operands.specs.Kept.{designated_accesses, IsKnownPlace, Keeps, KeepsDesignated, KeepsOperand, TrapsWithoutAccess};
ghost use Rattle.cc_designators.specs.Assignments.{assign_of, stepped_after, stepped_before};
ghost use Rattle.cc_designators.specs.Calls.{called, intrinsic};
ghost use Rattle.cc_designators.specs.Casts.{cast_of};
ghost use Rattle.cc_designators.specs.Designators.{TypedExpr, IsPlace, value_at};
ghost use Rattle.cc_designators.specs.Postfix.{address, arrow, dot, element, indirection, subscripted};
ghost use Rattle.cc_operands.specs.CcLex.declared.token.Mark.{Mark};
ghost use Rattle.cc_program.specs.CcNum.declared.int_type.IntType.{IntType};
ghost use Rattle.cc_program.specs.CcNum.declared.target.Target.{Target};
ghost use Rattle.cc_operands.specs.Arithmetic.{binary_of};
ghost use Rattle.cc_operands.specs.Assignments.{assigned};
ghost use Rattle.cc_operands.specs.Choices.{choose_of, comma_of};
ghost use Rattle.cc_operands.specs.Operands.{Operand, converted_to};
ghost use Rattle.cc_operands.specs.Unary.{unary_of};
ghost use Rattle.cc_operands.specs.declared.operator.Operator.{Operator};
ghost use Rattle.cc_operands.specs.declared.operator.UnaryOperator.{UnaryOperator};
ghost use Rattle.cc_program.specs.declared.expr.Intr.{Intr as Intrinsic};
ghost use Rattle.cc_program.specs.declared.expr.Place.{Place};
ghost use Rattle.cc_program.specs.declared.types.CType.{CType};
ghost use Rattle.cc_program.specs.declared.types.Structure.{Structure};
ghost use Rattle.cc_operands.specs.CcSyntax.Values.{PlaceType, ValueType};

/// What operators make of operands accesses what these access (C99 6.5.3.3, 6.5.5 to 6.5.17): what is folded has no part that
/// accesses a device, where operands that trap have none. The call does nothing.
pub fn operand_laws()
    ensures conversions { (target : Target) → (t : IntType) (x : Operand) → Keeps (converted_to target t x).value x.value }
    ensures unary { (target : Target) → (o : UnaryOperator) (x r : Operand) → TrapsWithoutAccess x → unary_of target o x ≡ Ok r → KeepsOperand r (λ d. accesses d x.value) }
    ensures binary { (target : Target) → (structures : List Structure) (o : Operator) (x y r : Operand) → TrapsWithoutAccess x → TrapsWithoutAccess y → binary_of target structures o x y ≡ Ok r → KeepsOperand r (λ d. accesses d x.value || accesses d y.value) }
    ensures choices { (target : Target) → (c x y r : Operand) → TrapsWithoutAccess c → TrapsWithoutAccess x → TrapsWithoutAccess y → choose_of target c x y ≡ Ok r → KeepsOperand r (λ d. accesses d c.value || (accesses d x.value || accesses d y.value)) }
    ensures commas { (x y r : Operand) → comma_of x y ≡ Ok r → KeepsOperand r (λ d. accesses d x.value || accesses d y.value) }
    ensures assigned { (target : Target) → (to : ValueType) (x r : Operand) → assigned target to x ≡ Ok r → Keeps r.value x.value }
{}

/// What is made of what expressions designate accesses what these access (C99 6.3.2.1, 6.5.2 to 6.5.4, 6.5.16). The call does nothing.
pub fn designator_laws()
    ensures values { (a : Place) (t : PlaceType) (r : Operand) → IsKnownPlace (IsPlace a t) → value_at a t ≡ Ok r → KeepsOperand r (λ d. of_place (place_access d a)) }
    ensures elements { (a : Place) (t : PlaceType) (i : Operand) (r : TypedExpr) → IsKnownPlace (IsPlace a t) → element a t i ≡ Ok r → KeepsDesignated r (λ d. of_place (place_access d a) || accesses d i.value) }
    ensures subscripts { (structures : List Structure) (x i : Operand) (r : TypedExpr) → subscripted structures x i ≡ Ok r → KeepsDesignated r (λ d. accesses d x.value || accesses d i.value) }
    ensures members { (structures : List Structure) (x : List ℕ) (a r : TypedExpr) → IsKnownPlace a → dot structures x a ≡ Ok r → KeepsDesignated r (λ d. designated_accesses d a) }
    ensures arrows { (structures : List Structure) (x : List ℕ) (p : Operand) (r : TypedExpr) → arrow structures x p ≡ Ok r → KeepsDesignated r (λ d. accesses d p.value) }
    ensures addresses { (a : TypedExpr) (r : Operand) → IsKnownPlace a → address a ≡ Ok r → KeepsOperand r (λ d. designated_accesses d a) }
    ensures indirections { (p : Operand) (r : TypedExpr) → indirection p ≡ Ok r → KeepsDesignated r (λ d. accesses d p.value) }
    ensures casts { (target : Target) → (at : ℕ) (t : CType) (x : Operand) (r : TypedExpr) → TrapsWithoutAccess x → cast_of target at t x ≡ Ok r → KeepsDesignated r (λ d. accesses d x.value) }
    ensures calls { (target : Target) → (f : Operand) (xs : List Operand) (r : Operand) → called target f xs ≡ Ok r → KeepsOperand r (λ d. accesses d f.value || list_any (λ (x : Operand). accesses d x.value) xs) }
    ensures intrinsics { (target : Target) → (i : Intrinsic) (xs : List Operand) (r : Operand) → intrinsic target i xs ≡ Ok r → KeepsOperand r (λ d. list_any (λ (x : Operand). accesses d x.value) xs) }
    ensures assignments { (target : Target) → (structures : List Structure) (mark : Mark) (a : TypedExpr) (x r : Operand) → assign_of target structures mark a x ≡ Ok r → KeepsOperand r (λ d. designated_accesses d a || accesses d x.value) }
    ensures before { (target : Target) → (structures : List Structure) (down : Bool) (a : TypedExpr) (r : Operand) → stepped_before target structures down a ≡ Ok r → KeepsOperand r (λ d. designated_accesses d a) }
    ensures after { (structures : List Structure) (down : Bool) (a : TypedExpr) (r : Operand) → stepped_after structures down a ≡ Ok r → KeepsOperand r (λ d. designated_accesses d a) }
{}
