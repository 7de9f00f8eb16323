ghost use Rattle.std.specs.Prelude.{◌≡◌, ◌<◌, ◌≤◌, ◌+◌, ◌+ℤ◌, ◌*◌, ◌/◌, ◌^◌, ℕ, ℤ, true, false, List, ◌∷◌, ◌++◌, [], Option, Some, None, bit_and, slice_get};
ghost use Rattle.cc_program.specs.CcNum.declared.int_type.IntType.{IntType};
ghost use Rattle.cc_program.specs.CcNum.declared.int_type.IntType.TheVariants as int;
ghost use Rattle.cc_program.specs.CcNum.declared.op.BinOp.{BinOp};
ghost use Rattle.cc_program.specs.CcNum.declared.op.BinOp.TheVariants as op;
ghost use Rattle.cc_program.specs.CcNum.declared.target.Target.{Target};
ghost use Rattle.cc_program.specs.CcNum.Integers.{bits_of, IsValueOf};
ghost use Rattle.cc_program.specs.declared.expr.Expr.{Assign, Bin, Choose, Compare, Const, Conv, Expr, Load};
ghost use Rattle.cc_program.specs.declared.expr.Place.{Local, Member, Place, Static};
ghost use Rattle.cc_program.specs.declared.object.Object.{Object};
ghost use Rattle.cc_program.specs.declared.value.Cell.{Cell};
ghost use Rattle.cc_program.specs.declared.value.Part.{Part};
ghost use Rattle.cc_program.specs.declared.value.Part.TheVariants as part;
ghost use Rattle.cc_program.specs.declared.value.Value.{Value};
ghost use Rattle.cc_program.specs.declared.value.Value.TheVariants.{Int};
ghost use Rattle.cc_rewrite_accesses_follows.specs.Asked.{Asked, Copies, Fails, IsPlain, IsPlainStatic, Register, Way, Writes, register_cell, static_cell};
ghost use Rattle.cc_rewrite_accesses_follows.specs.Evaluates.{AssignsNone, Evaluates, IsCell, LeadsTo};
ghost use Rattle.cc_rewrite_accesses_follows.specs.Numbers.{number};
ghost use Rattle.cc_rewrite_fields.specs.Field.{field, keep, mask, put};
ghost use Rattle.cc_steps.specs.CcEval.Context.{Context, is_seen};
ghost use Rattle.cc_steps.specs.CcEval.Eval.{designation};
ghost use Rattle.cc_steps.specs.CcSyntax.Operators.{is_promoted};
ghost use Rattle.cc_steps.specs.CcSyntax.Registers.{is_register};
ghost use Rattle.cc_steps.specs.CcSyntax.Values.{PlaceType, object_place};
ghost use Rattle.cc_steps.specs.CcValues.Values.{binary, comparison, conversion, is_true};

/// What operands come to that are built of registers and constants, and assignments of them. The call does nothing.
pub fn operands()
    // A register has its value, or none where it was never written and is named by no pointer.
    ensures register { (c : Context) (r : ℕ) (v : Value) → IsPlain c r → Evaluates c (Load (Local r)) (Register r (Some v) ∷ []) (Some v) }
    ensures unwritten { (c : Context) (r : ℕ) → IsPlain c r → is_register c.func r ≡ true → Evaluates c (Load (Local r)) (Register r None ∷ []) None }
    ensures constant { (c : Context) (n : ℤ) (t : IntType) → Evaluates c (Const n t) [] (Some (Int n)) }
    ensures converted { (c : Context) (t : IntType) (e : Expr) (asked : List Asked) (v : Option Value) → Evaluates c e asked v → Evaluates c (Conv t e) asked (conversion t c.program.target v) }
    ensures worked { (c : Context) (o : BinOp) (t : IntType) (a b : Expr) (asked others : List Asked) (v w : Option Value) → Evaluates c a asked v → Evaluates c b others w →
        Evaluates c (Bin o t a b) (asked ++ others) (binary o t c.program.target v w) }
    ensures compared { (c : Context) (o : BinOp) (a b : Expr) (asked others : List Asked) (v w : Option Value) → Evaluates c a asked v → Evaluates c b others w →
        Evaluates c (Compare o a b) (asked ++ others) (comparison o v w) }

    // A choice has the value of the arm that is taken; it asks for its way between.
    ensures chosen_first { (c : Context) (d a b : Expr) (asked others : List Asked) (v w : Value) → is_true v ≡ true → Evaluates c d asked (Some v) → Evaluates c a others (Some w) → AssignsNone c b →
        Evaluates c (Choose d a b) (asked ++ Way (Some true) ∷ others) (Some w) }
    ensures chosen_second { (c : Context) (d a b : Expr) (asked others : List Asked) (v w : Value) → is_true v ≡ false → Evaluates c d asked (Some v) → AssignsNone c a → Evaluates c b others (Some w) →
        Evaluates c (Choose d a b) (asked ++ Way (Some false) ∷ others) (Some w) }

    // A register, a static scalar, or another place that asks for nothing, is set to such an operand; a bad one traps.
    ensures sets { (c : Context) (r : ℕ) (e : Expr) (asked : List Asked) (v : Value) → IsPlain c r → Evaluates c e asked (Some v) → Writes c (Assign (Local r) e) [] asked (register_cell c r) v }
    ensures sets_bad { (c : Context) (r : ℕ) (e : Expr) (asked : List Asked) → IsPlain c r → Evaluates c e asked None → Fails c (Assign (Local r) e) [] asked }
    ensures writes { (c : Context) (a : Place) (at : Cell) (e : Expr) (asked : List Asked) (v : Value) → IsCell c a at → Evaluates c e asked (Some v) → Writes c (Assign a e) [] asked at v }
    ensures writes_bad { (c : Context) (a : Place) (at : Cell) (e : Expr) (asked : List Asked) → IsCell c a at → Evaluates c e asked None → Fails c (Assign a e) [] asked }
    ensures copies { (c : Context) (r : ℕ) (a : Place) (at : Cell) → IsPlain c r → IsCell c a at → Copies c (Assign (Local r) (Load a)) [] at (register_cell c r) }
    ensures objects { (c : Context) (i : ℕ) (o : Object) → slice_get c.program.objects i ≡ Some o → LeadsTo c (Static i) i [] (object_place o.ctype) }
    ensures members { (c : Context) (a : Place) (object : ℕ) (path : List Part) (t u : PlaceType) (m : ℕ) → LeadsTo c a object path t → (designation c (Member a m)).ctype ≡ Some u →
        LeadsTo c (Member a m) object (path ++ part.Member m ∷ []) u }
    ensures places { (c : Context) (a : Place) (object : ℕ) (path : List Part) (t : PlaceType) → LeadsTo c a object path t → is_seen (Some t) ≡ false → IsCell c a (static_cell object path) }
    ensures cells { (c : Context) (i : ℕ) → IsPlainStatic c i → IsCell c (Static i) (static_cell i []) }
{}

/// The values that `unsigned int` gives for a word of n bits, a field of b bits from bit s up, and its codes: those of `(w >> s) & mask`,
/// and of `(w & keep) | (c << s)`. The call does nothing.
pub fn words()
    ensures shifted { (t : Target) (n : ℕ) → n ≤ bits_of int.UInt t → (s b : ℕ) → s + b ≤ n → (w : ℕ) → w < 2 ^ n → s < bits_of int.UInt t → binary op.Shr int.UInt t (number w) (number s) ≡ number (w / 2 ^ s) }
    ensures masked { (t : Target) (n : ℕ) → n ≤ bits_of int.UInt t → (s b : ℕ) → s + b ≤ n → (w : ℕ) → w < 2 ^ n → s < bits_of int.UInt t →
        binary op.And int.UInt t (number (w / 2 ^ s)) (number (mask b)) ≡ number (field w s b) }
    ensures kept { (t : Target) (n : ℕ) → n ≤ bits_of int.UInt t → (s b : ℕ) → s + b ≤ n → (w c : ℕ) → w < 2 ^ n → c < 2 ^ b →
        binary op.And int.UInt t (number w) (number (keep n s b)) ≡ number (bit_and w (keep n s b)) }
    ensures raised { (t : Target) (n : ℕ) → n ≤ bits_of int.UInt t → (s b : ℕ) → s + b ≤ n → (c : ℕ) → c < 2 ^ b → s < bits_of int.UInt t → binary op.Shl int.UInt t (number c) (number s) ≡ number (c * 2 ^ s) }
    ensures joined { (t : Target) (n : ℕ) → n ≤ bits_of int.UInt t → (s b : ℕ) → s + b ≤ n → (w c : ℕ) → w < 2 ^ n → c < 2 ^ b →
        binary op.Or int.UInt t (number (bit_and w (keep n s b))) (number (c * 2 ^ s)) ≡ number (put w s b c) }
    // Where nothing stands above the field no mask is needed; and a code in its place stays within the word.
    ensures alone { (w s b : ℕ) → w / 2 ^ s < 2 ^ b → w / 2 ^ s ≡ field w s b }
    ensures placed { (n s b c : ℕ) → s + b ≤ n → c < 2 ^ b → c * 2 ^ s < 2 ^ n }
    // Conversions to a type that has the value, and sums in a promoted type.
    ensures converted { (t : Target) (s : IntType) (n : ℤ) → IsValueOf s t n → conversion s t (Some (Int n)) ≡ Some (Int n) }
    ensures sum { (t : Target) (s : IntType) (a b : ℤ) → is_promoted t s ≡ true → IsValueOf s t a → IsValueOf s t b → IsValueOf s t (a +ℤ b) →
        binary op.Add s t (Some (Int a)) (Some (Int b)) ≡ Some (Int (a +ℤ b)) }
{}
