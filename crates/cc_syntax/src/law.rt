ghost use Rattle.std.specs.Prelude.{◌≡◌, ◌↔◌, ◌≤◌, ◌*◌, ◌%◌, ℕ, pos, true, false, List, [], ◌∷◌, Some, None, slice_get};
ghost use Rattle.std.specs.List.{All};
ghost use Rattle.cc_program.specs.CcNum.declared.int_type.IntType.TheVariants as int;
ghost use Rattle.cc_program.specs.CcNum.declared.op.BinOp.TheVariants as op;
ghost use Rattle.cc_program.specs.CcNum.declared.target.Target.{Target as OfTarget};
ghost use Rattle.cc_program.specs.declared.types.CType.{CType};
ghost use Rattle.cc_program.specs.declared.types.Shape.{Array, Pointer, Struct};
ghost use Rattle.cc_program.specs.declared.types.Structure.{Structure};
ghost use Rattle.cc_syntax.specs.declared.sizes.Layout.{Layout};
ghost use Rattle.cc_syntax.specs.Examples.{wide, packed, plain, char, integer, array, struct, mixed, nested, both};
ghost use Rattle.cc_syntax.specs.Layout.{IsAlign, ArePlaced, NoneAbove, places_from, structure, layout_of, size_of, align_of, member_layouts, HasSizes};
ghost use Rattle.cc_program.specs.declared.program.Program.{Program};
ghost use Rattle.cc_program.specs.declared.value.Part.TheVariants as part;
ghost use Rattle.cc_syntax.specs.Folding.{Value, Traps, binary_constant, both_constant};
ghost use Rattle.cc_syntax.specs.Initial.{names_whole};
ghost use Rattle.cc_syntax.specs.Kinds.{kind_of, is_object_type, extent_with};
ghost use Rattle.cc_syntax.specs.Normal.{IsNormal, next_of};
ghost use Rattle.cc_syntax.specs.Operators.{choice_type, changes_by};
ghost use Rattle.cc_syntax.specs.Values.{ValueType, PlaceType, NoValue, Integer};
ghost use Rattle.cc_syntax.specs.Sound.{IsSound, IsTypedProgram, AreNamesApart};
ghost use Rattle.cc_syntax.specs.Types.{IsInOrder};

/// What the definitions of sizes, of sound programs and of normal form keep: laws over all types, targets
/// and programs, and layouts that are known. The call does nothing.
pub fn laws()
    // An array's elements stand at their alignment, which is 1, 2 or 4.
    ensures size_is_multiple { (t : CType) (s : List Structure) (c : OfTarget) → size_of t s c % align_of t s c ≡ 0 }
    ensures align_is_small { (t : CType) (s : List Structure) (c : OfTarget) → IsAlign (align_of t s c) }

    // An array is its elements; a structure is its members, whose types stand over the same structures.
    ensures array { (t e : CType) (n : ℕ) (s : List Structure) (c : OfTarget) → t.shape ≡ Array e n →
        size_of t s c ≡ n * size_of e s c }
    ensures structure { (t : CType) (i : ℕ) (m : Structure) (s : List Structure) (c : OfTarget) → IsInOrder s →
        t.shape ≡ Struct i → slice_get s i ≡ Some m → layout_of t s c ≡ structure (member_layouts m.members s c) }

    // Objects that lie in order lie apart, each at its alignment, and none could lie lower.
    ensures placed { (n : ℕ) (objects : List Layout) → All (λ o. IsAlign o.align) objects → ArePlaced n objects (places_from n objects) }
    ensures lowest { (n : ℕ) (objects : List Layout) (places : List ℕ) → All (λ o. IsAlign o.align) objects →
        ArePlaced n objects places → NoneAbove (places_from n objects) places }

    // A sound program is one that is typed, and whose names are apart.
    ensures sound_is { (p : Program) → IsSound p ↔ (IsTypedProgram p × AreNamesApart p) }

    // A program in normal form is sound, and the objects of a typed program have sizes.
    ensures normal_is_sound { (p : Program) → IsNormal p → IsSound p }
    ensures typed_has_sizes { (p : Program) → IsTypedProgram p → HasSizes p }
    ensures sound_has_sizes { (p : Program) → IsSound p → HasSizes p }

    // char, int, char at the greatest alignment 4 and at 1.
    ensures offsets { places_from 0 (member_layouts mixed.members [] wide) ≡ 0 ∷ 4 ∷ 8 ∷ [] }
    ensures padded { size_of (struct 0) both wide ≡ 12 }
    ensures packed { size_of (struct 0) both packed ≡ 6 }
    ensures array_of_structures { size_of (array (struct 0) 3) both wide ≡ 36 }
    ensures nested_offsets { places_from 0 (member_layouts nested.members both wide) ≡ 0 ∷ 4 ∷ 16 ∷ [] }
    ensures large { size_of (array (array char 65535) 65535) [] wide ≡ 4294836225 }

    // An element is named by its array and its index alone, and not as an array of one.
    ensures element_by_path { (to : ValueType) (a : PlaceType) → names_whole to (part.Index 3 ∷ []) 0 1 a ≡ false }
    // `struct s { struct s *m; }` stands, and `struct s { struct s m[2]; }` does not.
    ensures pointer_to_own_structure { is_object_type (kind_of wide (extent_with [] 1 wide) (plain (Pointer (struct 0)))) ≡ true }
    ensures array_of_own_structure { is_object_type (kind_of wide (extent_with [] 1 wide) (array (struct 0) 2)) ≡ false }
    // `c ? i : l` has no value that may be used; the sum in `c += l` is taken in long.
    ensures arms_of_two_types { choice_type wide (Integer int.Int) (Integer int.Int) (Integer int.Long) ≡ Some NoValue }
    ensures sum_in_long { changes_by wide int.SChar op.Add int.Long (Integer int.Long) ≡ true }
    ensures sum_in_char { changes_by wide int.SChar op.Add int.SChar (Integer int.SChar) ≡ false }
    // `1 / 0` traps, and `0 && 1 / 0` is 0.
    ensures division_traps { binary_constant wide op.Div int.Int (Value (pos 1)) (Value (pos 0)) ≡ Traps }
    ensures division_not_evaluated { both_constant (Value (pos 0)) Traps ≡ Value (pos 0) }
    // Devices that the text accesses in the order 0, 1, 0, and in the order 1, 0.
    ensures in_order { next_of 0 (0 ∷ 1 ∷ 0 ∷ []) ≡ Some 2 }
    ensures out_of_order { next_of 0 (1 ∷ 0 ∷ []) ≡ None }
{}
