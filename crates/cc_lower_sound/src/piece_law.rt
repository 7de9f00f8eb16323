ghost use Rattle.std.specs.Prelude.{◌≡◌, ℕ, true, List, Option, Some, slice_get};
ghost use Rattle.cc_lower_expressions.specs.Expressions.{lowering};
ghost use Rattle.cc_lower_expressions.specs.Temporaries.{declared_type, is_same_type};
ghost use Rattle.cc_lower_sound.specs.Pieces.{AreDeclared, AreNormal, AreRegisters, Extends, IsNormalOperand, IsSoundAnywhere, IsTypedOperand, TakesValues};
ghost use Rattle.cc_program.proofs.Each.{Each};
ghost use Rattle.cc_program.specs.declared.expr.Expr.{Expr};
ghost use Rattle.cc_program.specs.declared.func.Func.{Func};
ghost use Rattle.cc_program.specs.declared.program.Program.{Program};
ghost use Rattle.cc_program.specs.declared.types.CType.{CType};
ghost use Rattle.cc_eval.specs.CcSyntax.Effects.{Registers};
ghost use Rattle.cc_eval.specs.CcSyntax.Expressions.{type_of};
ghost use Rattle.cc_eval.specs.CcSyntax.Folding.{is_folded};
ghost use Rattle.cc_eval.specs.CcSyntax.Registers.{is_register};
ghost use Rattle.cc_eval.specs.CcSyntax.Sound.{IsTypedProgram};
ghost use Rattle.cc_eval.specs.CcSyntax.Types.{Named};
ghost use Rattle.cc_eval.specs.CcSyntax.Values.{ValueType, is_scalar};
ghost use Rattle.cc_eval.specs.CcSyntax.Views.{of_program};

/// What is made of an expression that has a type in a function of a typed program, over more locals, of which the temporaries are
/// some: its statements are sound, and where it is an operand, its value has the type. The call does nothing.
pub fn typed_piece_laws()
    ensures operand { (p : Program) → IsTypedProgram p → (i : ℕ) (f : Func) → slice_get p.funcs i ≡ Some f → (e : Expr) (t : ValueType) → type_of (of_program p) f.locals e ≡ Some t → (locals : List Named) (result : CType) →
        Extends f.locals locals → is_scalar t ≡ true → (later : Registers) (n : ℕ) → AreDeclared locals n ((lowering p f declared_type is_same_type e).operand later n).temps →
        IsTypedOperand locals p result t ((lowering p f declared_type is_same_type e).operand later n) }
    ensures whole { (p : Program) → IsTypedProgram p → (i : ℕ) (f : Func) → slice_get p.funcs i ≡ Some f → (e : Expr) (t : ValueType) → type_of (of_program p) f.locals e ≡ Some t → (locals : List Named) (result : CType) →
        Extends f.locals locals → is_scalar t ≡ true → (o : Option ValueType) (r : ℕ) → TakesValues locals p result r t → (later : Registers) (n : ℕ) →
        AreDeclared locals n ((lowering p f declared_type is_same_type e).whole o r later n).temps → Each (IsSoundAnywhere locals p result) ((lowering p f declared_type is_same_type e).whole o r later n).stmts }
    ensures effect { (p : Program) → IsTypedProgram p → (i : ℕ) (f : Func) → slice_get p.funcs i ≡ Some f → (e : Expr) (t : ValueType) → type_of (of_program p) f.locals e ≡ Some t → (locals : List Named) (result : CType) →
        Extends f.locals locals → (later : Registers) (n : ℕ) → AreDeclared locals n ((lowering p f declared_type is_same_type e).effect later n).temps →
        Each (IsSoundAnywhere locals p result) ((lowering p f declared_type is_same_type e).effect later n).stmts }
{}

/// The same of normal form, where the expression is folded, in a function in which registers stay registers and the temporaries are
/// some. The call does nothing.
pub fn normal_piece_laws()
    ensures operand { (p : Program) → IsTypedProgram p → (i : ℕ) (f : Func) → slice_get p.funcs i ≡ Some f → (e : Expr) (t : ValueType) → type_of (of_program p) f.locals e ≡ Some t → (g : Func) →
        ((r : ℕ) → is_register f r ≡ true → is_register g r ≡ true) → is_folded p.target e ≡ true → is_scalar t ≡ true → (later : Registers) (n : ℕ) → AreRegisters p g n ((lowering p f declared_type is_same_type e).operand later n).temps →
        IsNormalOperand p g ((lowering p f declared_type is_same_type e).operand later n) }
    ensures whole { (p : Program) → IsTypedProgram p → (i : ℕ) (f : Func) → slice_get p.funcs i ≡ Some f → (e : Expr) (t : ValueType) → type_of (of_program p) f.locals e ≡ Some t → (g : Func) →
        ((r : ℕ) → is_register f r ≡ true → is_register g r ≡ true) → is_folded p.target e ≡ true → is_scalar t ≡ true → (o : Option ValueType) (r : ℕ) → is_register g r ≡ true → (later : Registers) (n : ℕ) →
        AreRegisters p g n ((lowering p f declared_type is_same_type e).whole o r later n).temps → AreNormal p g ((lowering p f declared_type is_same_type e).whole o r later n).stmts }
    ensures effect { (p : Program) → IsTypedProgram p → (i : ℕ) (f : Func) → slice_get p.funcs i ≡ Some f → (e : Expr) (t : ValueType) → type_of (of_program p) f.locals e ≡ Some t → (g : Func) →
        ((r : ℕ) → is_register f r ≡ true → is_register g r ≡ true) → is_folded p.target e ≡ true → (later : Registers) (n : ℕ) → AreRegisters p g n ((lowering p f declared_type is_same_type e).effect later n).temps →
        AreNormal p g ((lowering p f declared_type is_same_type e).effect later n).stmts }
{}
