//! What holds of the trees that show expressions and places of a program.

ghost use Rattle.std.specs.Prelude.{◌≡◌, ℕ, true, false, Option, Some, None, slice_get};
ghost use Rattle.cc_expression_trees.specs.Exprs.{ShowsExpr, ShowsPlace, ShowsPointer, ShowsValue};
ghost use Rattle.cc_terms.specs.CcTypedTerms.Devices.{cast_constant};
ghost use Rattle.cc_program.specs.declared.expr.Expr.{Expr};
ghost use Rattle.cc_program.specs.declared.expr.Place.{Place};
ghost use Rattle.cc_program.specs.declared.func.Func.{Func};
ghost use Rattle.cc_program.specs.declared.program.Program.{Program};
ghost use Rattle.cc_program.specs.declared.types.CType.{CType};
ghost use Rattle.cc_terms.specs.CcScopes.State.{State};
ghost use Rattle.cc_shown_expressions.specs.Taken.{IsTakenAs};
ghost use Rattle.cc_shown_expressions.specs.Fits.{FitsValue, is_device_place};
ghost use Rattle.cc_shown_expressions.specs.KnownNames.{KnowsNames};
ghost use Rattle.cc_shown_expressions.specs.Normal.{HasOperand, HasPlace};
ghost use Rattle.cc_shown_expressions.specs.OperationNumbers.{Numbers};
ghost use Rattle.cc_shown_expressions.specs.Typed.{IsPlacedAs, IsTypedAs};
ghost use Rattle.cc_terms.specs.CcSyntax.Sound.{IsSound};
ghost use Rattle.cc_terms.specs.CcSyntax.Values.{PlaceType, ValueType, is_assignable, scalar_value};
ghost use Rattle.cc_tree.specs.declared.tree.Tree.{Tree};

/// What holds of trees that show operands and places of a function of a program in normal form, where its structures and
/// names are known: they are typed to them, with the numbers that the translation unit gives to structures, objects, devices
/// and functions (C99 6.5), and nothing that is known changes. The call does nothing.
pub fn expressions_are_typed()
    ensures expressions { (p : Program) (i : ℕ) (f : Func) (n : Numbers) (s : State) → IsSound p → slice_get p.funcs i ≡ Some f → KnowsNames p f n s →
        (e : Expr) (v : ValueType) (x : Tree) → ShowsExpr p f e x → HasOperand p f e v → (at : ℕ) → IsTypedAs p n s x at e v }
    // A device is no operand, and stands elsewhere.
    ensures places { (p : Program) (i : ℕ) (f : Func) (n : Numbers) (s : State) → IsSound p → slice_get p.funcs i ≡ Some f → KnowsNames p f n s →
        (a : Place) (t : PlaceType) (x : Tree) → ShowsPlace p f a x → HasPlace p f a t → is_device_place t ≡ false → (at : ℕ) → IsPlacedAs p n s x at a t }
    // Right under `*` it is no integer constant that is cast to a pointer, which would name a device.
    ensures pointers { (p : Program) (i : ℕ) (f : Func) (n : Numbers) (s : State) → IsSound p → slice_get p.funcs i ≡ Some f → KnowsNames p f n s →
        (e : Expr) (v : ValueType) (x : Tree) → ShowsPointer p f e x → HasOperand p f e v → (at : ℕ) → (q : IsTypedAs p n s x at e v) × (cast_constant q.found ≡ None) }
    // What is assigned, passed or returned is taken as what it shows, where that may be assigned to the type of what takes it.
    ensures values { (p : Program) (i : ℕ) (f : Func) (n : Numbers) (s : State) → IsSound p → slice_get p.funcs i ≡ Some f → KnowsNames p f n s →
        (to : Option CType) (e : Expr) (v w : ValueType) (x : Tree) → ShowsValue p f to e x → HasOperand p f e v → FitsValue p w → is_assignable w v ≡ true →
        ((t : CType) → to ≡ Some t → scalar_value t ≡ Some w) → (at : ℕ) → IsTakenAs p n s x at e w }
{}
