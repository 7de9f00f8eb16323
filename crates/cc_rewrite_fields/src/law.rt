ghost use Rattle.std.specs.Prelude.{◌≡◌, ◌≢◌, ◌⊎◌, ◌<◌, ◌≤◌, ◌+◌, ◌*◌, ◌-◌, ◌/◌, ◌%◌, ◌^◌, ℕ, suc, pos, Some, bit_and, bit_or};
ghost use Rattle.cc_num.specs.declared.int_type.IntType.TheVariants as int;
ghost use Rattle.cc_num.specs.declared.op.BinOp.TheVariants as op;
ghost use Rattle.cc_num.specs.declared.op.UnOp.TheVariants as unary;
ghost use Rattle.cc_num.specs.declared.target.Target.{Target};
ghost use Rattle.cc_num.specs.Integers.{bits_of};
ghost use Rattle.cc_num.specs.Results.{result_of, unary_result_of};
ghost use Rattle.cc_rewrite_fields.specs.Field.{field, put, mask, keep};

/// Laws of fields. The call does nothing.
pub fn fields()
    // A field has the number that is written to it, and the others of the word keep theirs.
    ensures written { (w s b c : ℕ) → c < 2 ^ b → field (put w s b c) s b ≡ c }
    ensures below { (w s b c t d : ℕ) → t + d ≤ s → field (put w s b c) t d ≡ field w t d }
    ensures above { (w s b c t d : ℕ) → c < 2 ^ b → s + b ≤ t → field (put w s b c) t d ≡ field w t d }
    ensures within { (w n s b c : ℕ) → s + b ≤ n → w < 2 ^ n → c < 2 ^ b → put w s b c < 2 ^ n }
    // A word with one field alone.
    ensures alone { (s b c : ℕ) → c < 2 ^ b → field (c * 2 ^ s) s b ≡ c }
{}

/// How C's operators in `unsigned int` read and write a field of a word of n bits, where it has as many (C99 6.5.7, 6.5.10, 6.5.12). The
/// call does nothing.
pub fn operators()
    // (word >> s) & mask
    ensures shifted { (t : Target) (n w s b : ℕ) → n ≤ bits_of int.UInt t → s + b ≤ n → w < 2 ^ n → s < bits_of int.UInt t →
        result_of op.Shr (pos w) (pos s) int.UInt t ≡ Some (pos (w / 2 ^ s)) }
    ensures masked { (t : Target) (n w s b : ℕ) → n ≤ bits_of int.UInt t → s + b ≤ n → w < 2 ^ n → s < bits_of int.UInt t →
        result_of op.And (pos (w / 2 ^ s)) (pos (mask b)) int.UInt t ≡ Some (pos (field w s b)) }
    // (word & keep) | (code << s)
    ensures kept { (t : Target) (n w s b c : ℕ) → n ≤ bits_of int.UInt t → s + b ≤ n → w < 2 ^ n → c < 2 ^ b →
        result_of op.And (pos w) (pos (keep n s b)) int.UInt t ≡ Some (pos (bit_and w (keep n s b))) }
    ensures put_in { (t : Target) (n w s b c : ℕ) → n ≤ bits_of int.UInt t → s + b ≤ n → w < 2 ^ n → c < 2 ^ b →
        result_of op.Or (pos (bit_and w (keep n s b))) (pos (c * 2 ^ s)) int.UInt t ≡ Some (pos (put w s b c)) }
    ensures raised { (t : Target) (n s b c : ℕ) → n ≤ bits_of int.UInt t → s + b ≤ n → s < bits_of int.UInt t → c < 2 ^ b →
        result_of op.Shl (pos c) (pos s) int.UInt t ≡ Some (pos (c * 2 ^ s)) }
{}

/// Elements of packed arrays: i stands in the element i / n, from the bit i % n * b up, where n fields of b bits stand in one. The call does
/// nothing.
pub fn arrays()
    // Two in one element lie apart, and each lies within it.
    ensures apart { (i j n b : ℕ) → i ≢ j → i / n ≡ j / n → (i % n * b + b ≤ j % n * b) ⊎ (j % n * b + b ≤ i % n * b) }
    ensures within { (i n b : ℕ) → 0 < n → i % n * b + b ≤ n * b }
    // The operators by which they are worked out.
    ensures quotient { (t : Target) (i n : ℕ) → i < 2 ^ bits_of int.UInt t → result_of op.Div (pos i) (pos (suc n)) int.UInt t ≡ Some (pos (i / suc n)) }
    ensures remainder { (t : Target) (i n : ℕ) → i < 2 ^ bits_of int.UInt t → suc n < 2 ^ bits_of int.UInt t →
        result_of op.Rem (pos i) (pos (suc n)) int.UInt t ≡ Some (pos (i % suc n)) }
    ensures product { (t : Target) (x b : ℕ) → x * b < 2 ^ bits_of int.UInt t → result_of op.Mul (pos x) (pos b) int.UInt t ≡ Some (pos (x * b)) }
    ensures complement { (t : Target) (a : ℕ) → a < 2 ^ bits_of int.UInt t → unary_result_of unary.Not (pos a) int.UInt t ≡ Some (pos (2 ^ bits_of int.UInt t - 1 - a)) }
    // (element & ~(mask << s)) | (code << s) is the element with the code.
    ensures put_in { (t : Target) (w s b c : ℕ) → s + b ≤ 8 → w < 2 ^ 8 → c < 2 ^ b → 8 ≤ bits_of int.UInt t →
        bit_or (bit_and w (2 ^ bits_of int.UInt t - 1 - mask b * 2 ^ s)) (c * 2 ^ s) ≡ put w s b c }
{}
