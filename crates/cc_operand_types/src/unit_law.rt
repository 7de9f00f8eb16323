ghost use Rattle.cc_operands.specs.Qualified.{without_const};
ghost use Rattle.cc_program.specs.declared.types.CType.{CType};
ghost use Rattle.cc_operand_types.specs.Reduced.{ReducedType};

/// A type without the const of its objects is the type but for qualifiers (C99 6.7.3). The call does nothing.
pub fn object_laws()
    ensures without_const { (t : CType) → ReducedType (without_const t) t }
    ensures itself { (t : CType) → ReducedType t t }
{}
