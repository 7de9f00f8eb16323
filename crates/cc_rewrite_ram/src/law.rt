ghost use Rattle.std.specs.Prelude.{◌≡◌, ◌≤◌, ◌+◌, ◌%◌, ℕ, List, fold};
ghost use Rattle.cc_rewrite_ram.specs.Descending.{AreWhole, Descend, sizes};
ghost use Rattle.cc_syntax.specs.declared.sizes.Layout.{Layout};
ghost use Rattle.cc_syntax.specs.Layout.{IsAlign, end_behind};

/// Of objects that lie one behind the other, each at its alignment (C99 6.5.3.4), and of which each has a whole number of its alignment as its
/// size. The call does nothing.
pub fn laws()
    // They end no earlier than their sizes together.
    ensures at_least { (objects : List Layout) (n : ℕ) → AreWhole objects → n + sizes objects ≤ fold end_behind n objects }
    // By alignment descending they end just there.
    ensures just { (objects : List Layout) (n most : ℕ) → IsAlign most → n % most ≡ 0 → AreWhole objects → Descend most objects → fold end_behind n objects ≡ n + sizes objects }
    // So they take no more than others that take as much, whatever the order of those.
    ensures no_more { (these those : List Layout) → AreWhole these → AreWhole those → Descend 4 these → sizes these ≤ sizes those →
        fold end_behind 0 these ≤ fold end_behind 0 those }
{}
