//! Simulations by single steps of the running activations.

ghost use Rattle.std.specs.Prelude.{ℕ, ℤ, Bool, true, List, ◌∷◌, Option, option_map, slice_get, ◌≡◌};
ghost use Rattle.cc_program.specs.declared.func.Func.{Func};
ghost use Rattle.cc_program.specs.declared.program.Program.{Program};
ghost use Rattle.cc_steps.specs.declared.event.Event.TheVariants.{Enter};
ghost use Rattle.cc_steps.specs.Rows.{row_of, rows_of};
ghost use Rattle.cc_steps.specs.Runs.{Follows, Answers};
ghost use Rattle.cc_steps.specs.State.{Active, IsSameCall, Memory, State};
ghost use Rattle.cc_steps.specs.Turn.{only_handler, level_of, start, turn};
ghost use Rattle.cc_meaning_simulations.specs.StepSimulations.{going, begins_there, Related, Followed, Answered, EnterBoth, CatchesUp};

/// Pairs of programs, and for each pair a relation of the running activations, one of the suspended ones below them, and an
/// invariant of the runs of the second program. Each function of the second program has a counterpart in the first, the
/// handlers have the handlers, of the same levels. Each step of either program is followed or answered, a handler may enter
/// both where the flag of the first is on, and the first catches up where one enters the second at a boundary.
pub trait StepSimulation {
    ghost pairs: { Program → Program → Type 0 };

    ghost counterpart: { Program → Program → Func → Func };

    ghost suspended: { Program → Program → Bool → Active → Active → Type 0 };

    ghost running: { Program → Program → Memory → Active → Memory → Active → Type 0 };

    ghost invariant: { Program → Program → State → Type 0 };

    ghost handlers: { (q p : Program) → pairs q p → (h : ℕ) → only_handler (slice_get q.funcs h) ≡ option_map (counterpart q p) (only_handler (slice_get p.funcs h)) };

    ghost levels: { (q p : Program) → pairs q p → (f : ℕ) → level_of q f ≡ level_of p f };

    ghost entries: { (q p : Program) → pairs q p → (h : ℕ) → row_of q (Enter h) ≡ row_of p (Enter h) };

    ghost rows: { (q p : Program) → pairs q p → (m n : Memory) (a b : Active) → running q p m a n b → rows_of q m.trace ≡ rows_of p n.trace };

    ghost kept: { (q p : Program) → pairs q p → (t : State) → invariant q p t → (arrival : Option ℕ) → invariant q p (turn p t arrival) };

    ghost starts: { (q p : Program) → pairs q p → (inputs : List ℤ) → Related (suspended q p) (running q p) q p (start q inputs) (start p inputs) × invariant q p (start p inputs) };

    ghost followed: { (q p : Program) → pairs q p → (m n : Memory) (a b : Active) (below : List Active) (opened : ℕ) → IsSameCall a b → running q p m a n b → invariant q p (going n (b ∷ below) opened) →
        Followed (suspended q p) (running q p) q p below opened m a n b };

    ghost answered: { (q p : Program) → pairs q p → (m n : Memory) (a b : Active) (below : List Active) (opened : ℕ) → IsSameCall a b → running q p m a n b → invariant q p (going n (b ∷ below) opened) →
        Answered (suspended q p) (running q p) q p below opened m a n b };

    ghost entered: { (q p : Program) → pairs q p → (m n : Memory) (a b : Active) → IsSameCall a b → running q p m a n b → m.flag ≡ true →
        EnterBoth (suspended q p) (running q p) q p (counterpart q p) m a n b };

    ghost caught: { (q p : Program) → pairs q p → (m n : Memory) (a b : Active) → IsSameCall a b → running q p m a n b → n.flag ≡ true → begins_there b ≡ true →
        CatchesUp (suspended q p) (running q p) q p (counterpart q p) m a n b };
}

/// In each pair, the first program follows the second.
pub fn follows_by_steps<S: StepSimulation>()
    ensures { (q p : Program) → S.pairs q p → Follows q p }
{}

/// In each pair, the first program answers the second.
pub fn answers_by_steps<S: StepSimulation>()
    ensures { (q p : Program) → S.pairs q p → Answers q p }
{}
