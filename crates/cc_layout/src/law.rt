ghost use Rattle.std.specs.Prelude.{◌≡◌, ◌+◌, ℕ, List, [], ◌∷◌, fold, map};
ghost use Rattle.cc_layout.specs.Examples.{three, const_between, qualified_parts, seat};
ghost use Rattle.cc_layout.specs.Seats.{ram, seats, in_ram, layouts};
ghost use Rattle.cc_program.specs.declared.program.Program.{Program};
ghost use Rattle.cc_syntax.specs.Layout.{ArePlaced, NoneAbove};

/// What the definition of seats keeps, for all programs, and seats that are known. The call does nothing.
pub fn laws()
    // Each static object that is not const has one seat of its size, and no other has any.
    ensures objects { (p : Program) → map (λ s. s.object) (seats p) ≡ map (λ o. o.0) (in_ram p) }
    ensures sizes { (p : Program) → map (λ s. s.size) (seats p) ≡ map (λ l. l.size) (layouts p) }

    // Seats lie apart, each at its alignment, and none could lie lower in this order.
    ensures placed { (p : Program) → ArePlaced 0 (layouts p) (map (λ s. s.at) (seats p)) }
    ensures lowest { (p : Program) (places : List ℕ) → ArePlaced 0 (layouts p) places → NoneAbove (map (λ s. s.at) (seats p)) places }

    // The RAM is the end of the last seat.
    ensures last { (p : Program) → fold (λ end s. s.at + s.size) 0 (seats p) ≡ ram p }

    // char, int, char at `int` 4 and the greatest alignment 4.
    ensures three_seats { seats three ≡ seat 0 0 1 ∷ seat 1 4 4 ∷ seat 2 8 1 ∷ [] }
    ensures three_ram { ram three ≡ 9 }

    // A const object between two others has no seat. An array of const elements is const, a pointer to const is not.
    ensures const_seats { seats const_between ≡ seat 0 0 1 ∷ seat 2 1 1 ∷ [] }
    ensures const_ram { ram const_between ≡ 2 }
    ensures part_seats { seats qualified_parts ≡ seat 1 0 2 ∷ seat 3 2 2 ∷ [] }
    ensures part_ram { ram qualified_parts ≡ 4 }
{}
