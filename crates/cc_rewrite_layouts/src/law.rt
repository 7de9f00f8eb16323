ghost use Rattle.std.specs.Prelude.{◌≡◌, ℕ};
ghost use Rattle.cc_rewrite_homes.specs.Homes.{Field, IsOff, AreHomes};
ghost use Rattle.cc_rewrite_layouts.specs.Layouts.{Layout, InField, InElements, homes_of, AreLayouts};

/// That objects whose layouts do not meet have homes for their scalars that do not. The call does nothing.
pub fn layouts()
    ensures homes { (layout : ℕ → Layout) → AreLayouts layout → AreHomes (homes_of layout) }

    // What has a word, or an element, alone is off all else.
    ensures field_alone { (layout : ℕ → Layout) → AreLayouts layout → (i : ℕ) (f : Field) → layout i ≡ InField f →
        ((j : ℕ) (g : Field) → layout j ≡ InField g → (i ≡ j → ⊥) → f.object ≡ g.object → f.position ≡ g.position → ⊥) →
        (m n : ℕ) → (i ≡ m → 0 ≡ n → ⊥) → IsOff f.object f.position (homes_of layout m n) }
    ensures element_alone { (layout : ℕ → Layout) → AreLayouts layout → (i object bits : ℕ) → layout i ≡ InElements object 1 bits →
        (k m n : ℕ) → (i ≡ m → k ≡ n → ⊥) → IsOff object k (homes_of layout m n) }
{}
