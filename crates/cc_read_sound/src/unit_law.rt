ghost use Rattle.std.specs.Prelude.{◌<◌, ◌^◌, ℕ, List, length};
ghost use Rattle.cc_type.specs.CcLex.Tokens.{Tokens};
ghost use Rattle.cc_type.specs.CcLex.declared.token.Token.{Token};
ghost use Rattle.cc_program.specs.CcNum.declared.target.Target.{Target};
ghost use Rattle.cc_program.specs.declared.program.Roles.{Roles};
ghost use Rattle.cc_relocated_units.specs.Units.{IsSoundUnit};
ghost use Rattle.cc_tree.specs.Sentences.{IsSentence};
ghost use Rattle.cc_tree.specs.declared.unit.Unit.{Unit as UnitTree};
ghost use Rattle.cc_type.specs.Typed.{IsTyped};
ghost use Rattle.cc_type.specs.CcUnit.declared.unit.TypedUnit.{TypedUnit};

/// The unit that the tree of a text stands for is sound (C99 6.9). The call does nothing.
pub fn unit_laws()
    ensures sound { (text : List ℕ) (ts : List Token) (u : UnitTree) (target : Target) (roles : Roles) (t : TypedUnit) → length text < 2 ^ 32 → Tokens text ts → IsSentence ts u → IsTyped u target roles t → IsSoundUnit target t }
{}
