ghost use Rattle.std.specs.Prelude.{◌≡◌, ◌⊎◌, ℤ, true, Some};
ghost use Rattle.cc_num.specs.declared.int_type.IntType.{IntType};
ghost use Rattle.cc_num.specs.declared.target.Target.{Target};
ghost use Rattle.cc_num.specs.declared.op.BinOp.{BinOp};
ghost use Rattle.cc_num.specs.Integers.{IsValueOf};
ghost use Rattle.cc_num.specs.Results.{result_of, one_if};
ghost use Rattle.cc_lattice.specs.Domains.{IsIntValue, is_comparison, passes};

/// What the definitions that this crate's contracts cite keep of C's. The call does nothing.
pub fn laws()
    // A number may stand in a set exactly where it is a value of a type.
    ensures value { (v : ℤ) (t : IntType) (c : Target) → IsValueOf t c v → IsIntValue v }
    ensures only_values { (v : ℤ) (c : Target) → IsIntValue v → IsValueOf IntType.LongLong c v ⊎ IsValueOf IntType.ULongLong c v }

    // Two numbers pass a comparison exactly where it gives 1, in any type.
    ensures comparison { (op : BinOp) (v w : ℤ) (t : IntType) (c : Target) → is_comparison op ≡ true →
        result_of op v w t c ≡ Some (one_if (passes op v w)) }
{}
