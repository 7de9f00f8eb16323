//! What holds of the printed text of types.

ghost use Rattle.std.specs.Prelude.{◌≡◌, ℕ, List, Some, true, slice_get};
ghost use Rattle.std.specs.Option.{is_some};
ghost use Rattle.cc_program.specs.CcNum.declared.target.Target.{Target};
ghost use Rattle.cc_program.specs.CcWords.Names.{is_name};
ghost use Rattle.cc_pieces.specs.Declarators.{type_name, declaration};
ghost use Rattle.cc_pieces.specs.Pieces.{Pieces, flat};
ghost use Rattle.cc_expression_trees.specs.Parts.{Fits};
ghost use Rattle.cc_program.specs.declared.types.CType.{CType};
ghost use Rattle.cc_program.specs.declared.types.Structure.{Structure};
ghost use Rattle.cc_typed.specs.CcSyntax.Kinds.{kind_of, extent_in};
ghost use Rattle.cc_tree.specs.Tokens.{Name};
ghost use Rattle.cc_expression_trees.specs.ReadTypes.{ReadsTypeName, ReadsDeclared};
ghost use Rattle.cc_expression_trees.specs.Soft.{IsSoft};
ghost use Rattle.cc_expression_trees.specs.Types.{Plain};

/// What holds of the text of a type that may stand in a program, wherever it stands. The call does nothing.
pub fn types_read_back()
    // The tokens of a type's name, and those of a declaration, have trees that show the type.
    ensures names { (structures : List Structure) (target : Target) (t : CType) → is_some (kind_of target (extent_in structures target) t) ≡ true →
        (at : ℕ) (ps : Pieces) → ReadsTypeName structures t at (type_name structures t ps) ps }
    ensures declarations { (structures : List Structure) (target : Target) (t : CType) → is_some (kind_of target (extent_in structures target) t) ≡ true →
        (x : Name) (at : ℕ) (ps : Pieces) → ReadsDeclared structures (Plain (Some x)) t at (declaration structures t x ps) ps }

    // Their pieces part from one another, where tags are names and the text behind them begins with a byte that parts.
    ensures names_part { (structures : List Structure) (target : Target) (t : CType) → is_some (kind_of target (extent_in structures target) t) ≡ true →
        ((i : ℕ) (s : Structure) → slice_get structures i ≡ Some s → is_name s.tag ≡ true) → (ps : Pieces) → Fits ps → IsSoft (flat ps) → Fits (type_name structures t ps) }
    ensures declarations_part { (structures : List Structure) (target : Target) (t : CType) → is_some (kind_of target (extent_in structures target) t) ≡ true →
        ((i : ℕ) (s : Structure) → slice_get structures i ≡ Some s → is_name s.tag ≡ true) → (x : Name) → is_name x ≡ true → (ps : Pieces) → Fits ps → IsSoft (flat ps) → Fits (declaration structures t x ps) }
{}
