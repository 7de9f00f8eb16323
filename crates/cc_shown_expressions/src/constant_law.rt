//! What holds of the trees that show integer constants.

ghost use Rattle.std.specs.Prelude.{◌≡◌, ℕ, ℤ, pos, true, false, Ok};
ghost use Rattle.cc_terms.specs.CcDesignators.Designators.{IsValue};
ghost use Rattle.cc_expression_trees.specs.Constants.{IsZero, ShowsInteger};
ghost use Rattle.cc_program.specs.CcNum.Integers.{is_value_of};
ghost use Rattle.cc_program.specs.CcNum.declared.int_type.IntType.{IntType};
ghost use Rattle.cc_program.specs.CcNum.declared.int_type.IntType.TheVariants as int;
ghost use Rattle.cc_program.specs.CcNum.declared.target.Target.{Target};
ghost use Rattle.cc_terms.specs.CcOperands.Operands.{integer};
ghost use Rattle.cc_pieces.specs.Constants.{is_narrow};
ghost use Rattle.cc_program.specs.declared.program.Roles.{Roles};
ghost use Rattle.cc_terms.specs.CcScopes.State.{State};
ghost use Rattle.cc_terms.specs.Terms.{tree_of};
ghost use Rattle.cc_tree.specs.declared.tree.Tree.{Tree};

/// What holds of trees that show integer constants: they are typed to constants, and nothing that is known changes. The call
/// does nothing.
pub fn constants_are_typed()
    // A value of a type, as it is printed, is a constant that has it: of that type, where its rank is that of int at least (C99 6.4.4.1, 5).
    ensures integers { (target : Target) (roles : Roles) (s : State) → (n : ℤ) (t : IntType) (x : Tree) → ShowsInteger target n t x → is_value_of t target n ≡ true → (at : ℕ) →
        (type : IntType) × (tree_of target roles x at s ≡ Ok (IsValue (integer n type), s)) × (is_narrow t ≡ false → type ≡ t) }
    ensures zeros { (target : Target) (roles : Roles) (s : State) → (x : Tree) → IsZero x → (at : ℕ) → tree_of target roles x at s ≡ Ok (IsValue (integer (pos 0) int.Int), s) }
{}
