ghost use Rattle.std.specs.Prelude.{◌≡◌, ℕ, true, [], List, Option, Some, length};
ghost use Rattle.cc_program.specs.CcNum.declared.target.Target.{Target};
ghost use Rattle.cc_operand_types.specs.Typed.{MembersStand};
ghost use Rattle.cc_operands.specs.CcSyntax.Views.{of_program};
ghost use Rattle.cc_program.specs.declared.program.Program.{Program};
ghost use Rattle.cc_program.specs.declared.types.CType.{CType};
ghost use Rattle.cc_operands.specs.CcSyntax.Kinds.{Kind, kind_of};
ghost use Rattle.cc_operands.specs.CcSyntax.Sound.{are_structures};
ghost use Rattle.cc_operand_types.specs.Later.{Grow, Later};

/// What holds of the kinds of types where structures are completed (C99 6.2.5, 22; 6.7.2.1). The call does nothing.
pub fn kind_laws()
    // A type has a kind where more structures are complete too: its own, or that of a structure which was only named.
    ensures kinds { (target : Target) (before after : ℕ → Option (Option ℕ)) → Grow before after → (t : CType) (k : Kind) → kind_of target before t ≡ Some k → (l : Kind) × (kind_of target after t ≡ Some l) × Later k l }

    // In a program, over whose structures members have complete object types, each member may be designated.
    ensures members { (p : Program) → are_structures [] (length p.structures) p.target p.structures ≡ true → MembersStand (of_program p) }
{}
