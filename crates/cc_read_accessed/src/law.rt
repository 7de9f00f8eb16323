ghost use Rattle.std.specs.Prelude.{◌≡◌, ℕ, List, Some, slice_get};
ghost use Rattle.cc_accessed_operands.specs.Accessed.{AreDevicesAccessed};
ghost use Rattle.cc_type.specs.CcLex.Tokens.{Tokens};
ghost use Rattle.cc_type.specs.CcLex.declared.token.Token.{Token};
ghost use Rattle.cc_link.specs.Linked.{Links};
ghost use Rattle.cc_program.specs.CcNum.declared.target.Target.{Target};
ghost use Rattle.cc_program.specs.declared.program.Program.{Program};
ghost use Rattle.cc_program.specs.declared.program.Roles.{Roles};
ghost use Rattle.cc_read.specs.Texts.{Reads};
ghost use Rattle.cc_read_accessed.specs.Accessed.{AccessesItsDevices};
ghost use Rattle.cc_things.specs.declared.text.Text.{Text};
ghost use Rattle.cc_tree.specs.Sentences.{IsSentence};
ghost use Rattle.cc_tree.specs.declared.unit.Unit.{Unit as UnitTree};
ghost use Rattle.cc_type.specs.Typed.{IsTyped};
ghost use Rattle.cc_type.specs.CcUnit.declared.unit.TypedUnit.{TypedUnit};

/// A device without a name is there because an expression of a function's body accesses it. The call does nothing.
pub fn read_laws()
    // In the unit that the tree of a text stands for, unless something is defined twice there.
    ensures units { (text : List ℕ) (ts : List Token) (u : UnitTree) (target : Target) (roles : Roles) (t : TypedUnit) → Tokens text ts → IsSentence ts u → IsTyped u target roles t → AccessesItsDevices t }

    // In the program that such units link to.
    ensures linked { (texts : List Text) (target : Target) (roles : Roles) (p : Program) → ((t : ℕ) (x : Text) → slice_get texts t ≡ Some x → AccessesItsDevices x.unit) → Links texts target roles p → AreDevicesAccessed p }

    // In the program that texts are read as.
    ensures accessed { (texts : List (List ℕ)) (target : Target) (roles : Roles) (p : Program) → Reads texts target roles p → AreDevicesAccessed p }
{}
