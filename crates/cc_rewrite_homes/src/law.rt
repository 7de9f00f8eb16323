ghost use Rattle.std.specs.Prelude.{◌≡◌, ◌<◌, ◌≤◌, ◌+◌, ◌*◌, ◌^◌, ℕ, pos, List, Some};
ghost use Rattle.cc_steps.specs.CcCells.Cells.{scalar_in, with_scalar};
ghost use Rattle.cc_program.specs.declared.value.Value.{Value};
ghost use Rattle.cc_program.specs.declared.value.Value.TheVariants.{Int};
ghost use Rattle.cc_rewrite_fields.specs.Field.{put};
ghost use Rattle.cc_rewrite_homes.specs.Homes.{Field, Home, Whole, Packed, HoldsWord, IsOff, Statics, AreHomes};

/// That a write of a scalar is one of its home: all scalars have their values at their homes behind it. The call does nothing.
pub fn homes()
    // In a field of a word, of which the others keep their codes.
    ensures packed { (home : ℕ → ℕ → Home) (decode : ℕ → ℕ → ℕ → Value) → AreHomes home → (these those : List (List Value)) → Statics home decode these those →
        (i k : ℕ) (f : Field) → home i k ≡ Packed f → (word : ℕ) → HoldsWord these f word → (code : ℕ) → code < 2 ^ f.width → (v : Value) → decode i k code ≡ v →
        Statics home decode (with_scalar these f.object f.position (Int (pos (put word f.shift f.width code)))) (with_scalar those i k v) }
    ensures words { (these : List (List Value)) (f : Field) (word code : ℕ) → f.shift + f.width ≤ f.bits → HoldsWord these f word → code < 2 ^ f.width →
        HoldsWord (with_scalar these f.object f.position (Int (pos (put word f.shift f.width code)))) f (put word f.shift f.width code) }

    // A code alone in its word.
    ensures alone { (home : ℕ → ℕ → Home) (decode : ℕ → ℕ → ℕ → Value) → AreHomes home → (these those : List (List Value)) → Statics home decode these those →
        (i k : ℕ) (f : Field) → home i k ≡ Packed f → ((m n : ℕ) → (i ≡ m → k ≡ n → ⊥) → IsOff f.object f.position (home m n)) →
        (word : ℕ) → HoldsWord these f word → (code : ℕ) → code < 2 ^ f.width → code * 2 ^ f.shift < 2 ^ f.bits → (v : Value) → decode i k code ≡ v →
        Statics home decode (with_scalar these f.object f.position (Int (pos (code * 2 ^ f.shift)))) (with_scalar those i k v) }

    // One that stands as it is.
    ensures whole { (home : ℕ → ℕ → Home) (decode : ℕ → ℕ → ℕ → Value) → AreHomes home → (these those : List (List Value)) → Statics home decode these those →
        (i k j l : ℕ) → home i k ≡ Whole j l → (old : Value) → scalar_in these j l ≡ Some old → (v : Value) →
        Statics home decode (with_scalar these j l v) (with_scalar those i k v) }
{}
