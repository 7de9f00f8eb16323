//! Constants, strings, devices and what is designated, for example.

ghost use Rattle.std.specs.Prelude.{◌≡◌, pos, negsuc, true, false, [], ◌∷◌, Some, None, Ok, Err};
ghost use Rattle.cc_typed_terms.specs.CcDesignators.Designators.{IsPlace, IsIntrinsic, IsAddress};
ghost use Rattle.cc_typed_terms.specs.CcLex.declared.token.Mark.TheVariants as mark;
ghost use Rattle.cc_num.specs.declared.int_type.IntType.TheVariants as int;
ghost use Rattle.cc_typed_terms.specs.CcOperands.Operands.{integer, number_type};
ghost use Rattle.cc_typed_terms.specs.CcOperands.declared.rule.Rule.TheVariants as rule;
ghost use Rattle.cc_typed_terms.specs.Devices.{device_of, declared_device, number_of, register_found};
ghost use Rattle.cc_typed_terms.specs.Operators.{prefix_of};
ghost use Rattle.cc_typed_terms.specs.Primary.{string_object};
ghost use Rattle.cc_typed_terms.specs.Sizes.{size_of_place};
ghost use Rattle.cc_typed_terms.specs.Values.{valued, designating};
ghost use Rattle.cc_typed_terms.specs.declared.prefix.Prefix.TheVariants as prefix;
ghost use Rattle.cc_program.specs.declared.expr.Intr.TheVariants as intr;
ghost use Rattle.cc_program.specs.declared.expr.Place.{Device as DeviceAt};
ghost use Rattle.cc_program.specs.declared.types.CType.{CType};
ghost use Rattle.cc_program.specs.declared.types.Shape.TheOpen as shape;
ghost use Rattle.cc_program.specs.declared.value.Leaf.TheVariants as leaf;
ghost use Rattle.cc_rule_examples.specs.Examples.{narrow, wide, suffix, register};
ghost use Rattle.cc_typed_terms.specs.CcScopes.State.{State, at_first, with_declared};
ghost use Rattle.cc_typed_terms.specs.CcUnit.declared.unit.UnitKind.TheVariants as kind;
ghost use Rattle.cc_syntax.specs.Values.{DevicePlace};

/// The types of integer constants (C99 6.4.4.1, 5).
pub fn constants()
    // 32768 is long and 0x8000 unsigned, where `int` has 2 bytes; where it has 4, 32768 is int.
    ensures decimal_is_long { number_type narrow 32768 (suffix true false 0) ≡ int.Long }
    ensures hexadecimal_is_unsigned { number_type narrow 32768 (suffix false false 0) ≡ int.UInt }
    ensures unsigned_is_long { number_type narrow 65536 (suffix true true 0) ≡ int.ULong }
    ensures two_longs { number_type narrow 1 (suffix true false 2) ≡ int.LongLong }
    ensures decimal_is_int { number_type wide 32768 (suffix true false 0) ≡ int.Int }
{}

/// The first values of strings (C99 6.4.5, 5).
#[tactic(auto, unfolding(cc_num::specs::Integers::converted))]
pub fn strings()
    // "a\377" has the first values 97, -1 and 0, and "" has none, since all are zero.
    ensures negative { (string_object narrow 7 (97 ∷ 255 ∷ [])).kind ≡ kind.Object (leaf.Int (pos 97) ∷ leaf.Int (negsuc 0) ∷ leaf.Int (pos 0) ∷ []) }
    ensures empty { (string_object narrow 7 []).kind ≡ kind.Object [] }
{}

/// `*(volatile T *)n`.
#[tactic(auto, unfolding(cc_syntax::specs::SameTypes::same_int))]
pub fn devices()
    // Equal devices are one; a const one is another.
    ensures known { number_of (device_of (pos 38) false int.UChar) (declared_device (device_of (pos 38) true int.UChar) ∷ declared_device (device_of (pos 38) false int.UChar) ∷ []) ≡ Some 1 }
    ensures new { number_of (device_of (pos 38) false int.SChar) (declared_device (device_of (pos 38) false int.UChar) ∷ []) ≡ None }
    // A pointer of 2 bytes holds 65535, and not 65536.
    ensures last_address { (t : CType) → register_found narrow 3 (pos 65535) t at_first register (shape.Int int.UChar)
        ≡ Ok (IsPlace (DeviceAt 0) (DevicePlace false int.UChar), with_declared (declared_device (device_of (pos 65535) false int.UChar)) at_first) }
    ensures no_address { (t : CType) → register_found narrow 3 (pos 65536) t at_first register (shape.Int int.UChar) ≡ Err (record { rule = rule.Device; at = 3 }) }
    // sizeof of a device of type long.
    ensures size { size_of_place narrow at_first (DevicePlace true int.Long) ≡ Ok (integer (pos 4) int.UInt) }
{}

/// What a prefix operator takes its operand as (C99 6.5.3).
pub fn prefixes()
    ensures decrement { prefix_of mark.MinusMinus ≡ prefix.Step true }
    ensures negation { prefix_of mark.Minus ≡ prefix.OnValue }
{}

/// The value of what is designated (C99 6.3.2.1).
pub fn values()
    // An intrinsic that is not called is at fault at its name, and an address that no pointer is made of at its cast.
    ensures intrinsic { (s : State) → valued 3 (IsIntrinsic intr.On 9) s ≡ Err (record { rule = rule.MainOrIntrinsic; at = 9 }) }
    ensures number { (t : CType) (s : State) → designating (IsAddress (pos 5) t 9) s ≡ Err (record { rule = rule.Cast; at = 9 }) }
{}
