ghost use Rattle.std.specs.Prelude.{◌≡◌, ◌<◌, ◌^◌, ℕ, ℤ, pos, Bool, true, false, List, length, Ok, Option, Some, slice_get};
ghost use Rattle.cc_designators.specs.Assignments.{assign_of, stepped_after, stepped_before};
ghost use Rattle.cc_designators.specs.Calls.{called, intrinsic};
ghost use Rattle.cc_designators.specs.Casts.{cast_of, size_value};
ghost use Rattle.cc_designators.specs.Designators.{TypedExpr, IsPlace, IsFunction, null, value_at};
ghost use Rattle.cc_designators.specs.Postfix.{address, arrow, dot, element, indirection, subscripted};
ghost use Rattle.cc_operands.specs.CcLex.declared.token.Mark.{Mark};
ghost use Rattle.cc_operands.specs.CcLex.declared.token.Suffix.{Suffix};
ghost use Rattle.cc_program.specs.CcNum.declared.int_type.IntType.{IntType};
ghost use Rattle.cc_program.specs.CcNum.declared.int_type.IntType.TheVariants as int;
ghost use Rattle.cc_program.specs.CcNum.Integers.{is_value_of};
ghost use Rattle.cc_operands.specs.Arithmetic.{binary_of};
ghost use Rattle.cc_operands.specs.Assignments.{assigned};
ghost use Rattle.cc_operands.specs.Choices.{choose_of, comma_of};
ghost use Rattle.cc_operands.specs.Operands.{Operand, cast_to, character_value, converted_to, integer, is_pointer, null_of, number_type};
ghost use Rattle.cc_operands.specs.Operators.{operator_of};
ghost use Rattle.cc_operands.specs.Qualified.{unqualified};
ghost use Rattle.cc_operands.specs.Unary.{unary_of};
ghost use Rattle.cc_operands.specs.declared.operator.Operator.{Operator};
ghost use Rattle.cc_operands.specs.declared.operator.UnaryOperator.{UnaryOperator};
ghost use Rattle.cc_program.proofs.Each.{Each};
ghost use Rattle.cc_program.specs.declared.expr.Intr.{Intr as Intrinsic};
ghost use Rattle.cc_program.specs.declared.expr.Place.{Place, Local, Static, Device as DeviceAt};
ghost use Rattle.cc_program.specs.declared.types.CType.{CType};
ghost use Rattle.cc_program.specs.declared.types.Shape.{out-Shape};
ghost use Rattle.cc_program.specs.declared.types.Shape.TheOpen as shape;
ghost use Rattle.cc_program.specs.declared.types.Sig.{Sig};
ghost use Rattle.cc_operands.specs.CcSyntax.Kinds.{Kind, is_object_type};
ghost use Rattle.cc_operands.specs.CcSyntax.Types.{Named};
ghost use Rattle.cc_operands.specs.CcSyntax.Values.{Integer, ToFunction, PlaceType, ValueType, is_scalar, object_place};
ghost use Rattle.cc_operand_types.specs.Typed.{HasType, IsAssigned, IsNullType, IsTypedExpr, IsTypedOperand, IsTypedPlace, MembersStand, is_pointed_kind, stands, place_stands};
ghost use Rattle.cc_operands.specs.CcSyntax.Views.{View, kind_in};
ghost use Rattle.cc_operands.specs.CcSyntax.Expressions.{type_of};

/// What holds of constants, conversions and operators, over any view of a program and any locals, where the operands are typed (C99 6.5.3.3, 6.5.5 to 6.5.15, 6.5.17). The call does nothing.
pub fn operator_laws()
    // A typed operand that is no structure has a type; an integer has just its own, and a scalar that of a scalar.
    ensures types { (p : View) (locals : List Named) → (x : Operand) → IsTypedOperand p locals x → x.structure ≡ false → (t : ValueType) × (type_of p locals x.value ≡ Some t) }
    ensures integers { (p : View) (locals : List Named) → (x : Operand) (t : IntType) → IsTypedOperand p locals x → x.type ≡ Integer t → type_of p locals x.value ≡ Some (Integer t) }
    ensures scalars { (p : View) (locals : List Named) → (x : Operand) → IsTypedOperand p locals x → is_scalar x.type ≡ true → (t : ValueType) × (type_of p locals x.value ≡ Some t) × (is_scalar t ≡ true) }

    // The type of an integer constant and that of a character have its value.
    ensures numbers { (p : View) → (n : ℕ) (suffix : Suffix) → n < 2 ^ 64 → is_value_of (number_type p.target n suffix) p.target (pos n) ≡ true }
    ensures characters { (p : View) → (byte : ℕ) → is_value_of int.Int p.target (character_value p.target byte) ≡ true }

    // A constant that fits its type is typed, and so is an operand that is converted, with the type that it is converted to.
    ensures constants { (p : View) (locals : List Named) → (n : ℤ) (t : IntType) → is_value_of t p.target n ≡ true → IsTypedOperand p locals (integer n t) }
    ensures casts { (p : View) (locals : List Named) → (t s : IntType) (x : Operand) → IsTypedOperand p locals x → x.type ≡ Integer s →
        IsTypedOperand p locals (cast_to p.target t x) × ((cast_to p.target t x).type ≡ Integer t) }
    ensures conversions { (p : View) (locals : List Named) → (t s : IntType) (x : Operand) → IsTypedOperand p locals x → x.type ≡ Integer s →
        IsTypedOperand p locals (converted_to p.target t x) × ((converted_to p.target t x).type ≡ Integer t) }

    // A null of a type that may stand has that type.
    ensures nulls { (p : View) (locals : List Named) → (t : ValueType) → is_pointer t ≡ true → stands p t ≡ true → HasType p locals (null_of t) t }

    // Unary and binary operators, `c ? a : b` and `a, b`.
    ensures unary { (p : View) (locals : List Named) → (o : UnaryOperator) (x r : Operand) → IsTypedOperand p locals x → unary_of p.target o x ≡ Ok r → IsTypedOperand p locals r }
    ensures binary { (p : View) (locals : List Named) → (mark : Mark) (o : Operator) → operator_of mark ≡ Some o → (x y r : Operand) → IsTypedOperand p locals x → IsTypedOperand p locals y →
        binary_of p.target p.structures o x y ≡ Ok r → IsTypedOperand p locals r }
    ensures choices { (p : View) (locals : List Named) → (c x y r : Operand) → IsTypedOperand p locals c → IsTypedOperand p locals x → IsTypedOperand p locals y →
        choose_of p.target c x y ≡ Ok r → IsTypedOperand p locals r }
    ensures commas { (p : View) (locals : List Named) → (x y r : Operand) → IsTypedOperand p locals x → IsTypedOperand p locals y → comma_of x y ≡ Ok r → IsTypedOperand p locals r }
{}

/// What holds of assignments, over any view of a program and any locals, where what is assigned to and the operand are typed (C99 6.5.16, 6.5.2.4, 6.5.3.1). The call does nothing.
pub fn assignment_laws()
    // What is converted as if by assignment can be assigned.
    ensures assigned { (p : View) (locals : List Named) → (to : ValueType) (x y : Operand) → stands p to ≡ true → IsTypedOperand p locals x → assigned p.target to x ≡ Ok y → IsAssigned p locals to y.value }

    // `a = b`, `a op= b`, `++a`, `--a`, `a++` and `a--`.
    ensures assignments { (p : View) (locals : List Named) → (mark : Mark) (a : TypedExpr) (x r : Operand) → IsTypedExpr p locals a → IsTypedOperand p locals x →
        assign_of p.target p.structures mark a x ≡ Ok r → IsTypedOperand p locals r }
    ensures before { (p : View) (locals : List Named) → (down : Bool) (a : TypedExpr) (r : Operand) → IsTypedExpr p locals a → stepped_before p.target p.structures down a ≡ Ok r → IsTypedOperand p locals r }
    ensures after { (p : View) (locals : List Named) → (down : Bool) (a : TypedExpr) (r : Operand) → IsTypedExpr p locals a → stepped_after p.structures down a ≡ Ok r → IsTypedOperand p locals r }
{}

/// What holds of what expressions designate, over any view of a program and any locals, where the parts are typed (C99 6.3.2.1, 6.5.2.1, 6.5.2.3, 6.5.3.2). The call does nothing.
pub fn designator_laws()
    // The type of an object may stand where an object is designated.
    ensures object_types { (o : Option Kind) → is_object_type o ≡ true → is_pointed_kind false o ≡ true }

    // What names stand for: a local, a static object, a device, and a function that is no handler.
    ensures locals { (p : View) (locals : List Named) → (r : ℕ) (l : Named) → slice_get locals r ≡ Some l → is_pointed_kind false (kind_in p l.1) ≡ true → IsTypedExpr p locals (IsPlace (Local r) (object_place l.1)) }
    ensures objects { (p : View) (locals : List Named) → (i : ℕ) (t : PlaceType) → p.statics i ≡ Some t → place_stands p t ≡ true → IsTypedExpr p locals (IsPlace (Static i) t) }
    ensures devices { (p : View) (locals : List Named) → (i : ℕ) (t : PlaceType) → p.devices i ≡ Some t → place_stands p t ≡ true → IsTypedExpr p locals (IsPlace (DeviceAt i) t) }
    ensures functions { (p : View) (locals : List Named) → (i : ℕ) (sig : Sig) → p.functions i ≡ Some (ToFunction sig) → stands p (ToFunction sig) ≡ true → IsTypedExpr p locals (IsFunction i sig) }

    // The value of a place, and the address of what is designated.
    ensures values { (p : View) (locals : List Named) → (a : Place) (t : PlaceType) (r : Operand) → IsTypedPlace p locals a t → value_at a t ≡ Ok r → IsTypedOperand p locals r }
    ensures addresses { (p : View) (locals : List Named) → (a : TypedExpr) (r : Operand) → IsTypedExpr p locals a → address a ≡ Ok r → IsTypedOperand p locals r }

    // `a[i]`, of an array and of a pointer, and `*p`.
    ensures elements { (p : View) (locals : List Named) → (a : Place) (t : PlaceType) (i : Operand) (r : TypedExpr) → IsTypedPlace p locals a t → IsTypedOperand p locals i → element a t i ≡ Ok r → IsTypedExpr p locals r }
    ensures subscripts { (p : View) (locals : List Named) → (x i : Operand) (r : TypedExpr) → IsTypedOperand p locals x → IsTypedOperand p locals i → subscripted p.structures x i ≡ Ok r → IsTypedExpr p locals r }
    ensures indirections { (p : View) (locals : List Named) → (x : Operand) (r : TypedExpr) → IsTypedOperand p locals x → indirection x ≡ Ok r → IsTypedExpr p locals r }

    // `a.m` and `p->m`.
    ensures members { (p : View) (locals : List Named) → MembersStand p → (name : List ℕ) (a r : TypedExpr) → IsTypedExpr p locals a → dot p.structures name a ≡ Ok r → IsTypedExpr p locals r }
    ensures arrows { (p : View) (locals : List Named) → MembersStand p → (name : List ℕ) (x : Operand) (r : TypedExpr) → IsTypedOperand p locals x → arrow p.structures name x ≡ Ok r → IsTypedExpr p locals r }
{}

/// What holds of calls, casts and sizes, over any view of a program and any locals, where the operands are typed (C99 6.5.2.2, 6.5.4, 6.5.3.4). The call does nothing.
pub fn call_laws()
    ensures calls { (p : View) (locals : List Named) → (f : Operand) (xs : List Operand) (r : Operand) → IsTypedOperand p locals f → Each (IsTypedOperand p locals) xs → called p.target f xs ≡ Ok r → IsTypedOperand p locals r }
    ensures intrinsics { (p : View) (locals : List Named) → (i : Intrinsic) (xs : List Operand) (r : Operand) → Each (IsTypedOperand p locals) xs → intrinsic p.target i xs ≡ Ok r → IsTypedOperand p locals r }

    // A cast to a type of pointers asks that a null may have it.
    ensures casts { (p : View) (locals : List Named) → (at : ℕ) (t : CType) (x : Operand) (r : TypedExpr) → ((to : CType) → out-Shape t.shape ≡ shape.Pointer to → IsNullType p (unqualified t)) →
        IsTypedOperand p locals x → cast_of p.target at t x ≡ Ok r → IsTypedExpr p locals r }
    ensures nulls { (p : View) (locals : List Named) → (t : CType) → IsNullType p t → IsTypedOperand p locals (null t) }
    ensures sizes { (p : View) (locals : List Named) → (n : ℕ) (r : Operand) → size_value p.target n ≡ Ok r → IsTypedOperand p locals r }
{}
