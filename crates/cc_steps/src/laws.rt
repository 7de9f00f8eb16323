//! Laws of runs, of activations, and of what is written.

ghost use Rattle.std.specs.Prelude.{ℕ, ℤ, List, Option, Some, true, option_map, slice_get, slice_set, ◌≡◌};
ghost use Rattle.cc_cells.specs.Cells.{with_scalar};
ghost use Rattle.cc_eval.specs.declared.mark.Mark.{Mark};
ghost use Rattle.cc_program.specs.declared.program.Program.{Program};
ghost use Rattle.cc_program.specs.declared.value.Value.{Value};
ghost use Rattle.cc_steps.specs.Access.{with_locals};
ghost use Rattle.cc_steps.specs.State.{Active, State, IsSameCall};
ghost use Rattle.cc_steps.specs.Step.{marked};
ghost use Rattle.cc_steps.specs.Turn.{start, turn, enters};
ghost use Rattle.cc_steps.specs.Runs.{Arrivals, run, Same, Follows, Answers, EntersAtBoundaries, IsBoundary};

/// That one program follows another, and that one answers another, hold of each program and itself, and compose.
pub fn orders()
    ensures follows_itself { (p : Program) → Follows p p }
    ensures follows_on { (r q p : Program) → Follows r q → Follows q p → Follows r p }
    ensures answers_itself { (p : Program) → Answers p p }
    ensures answers_on { (r q p : Program) → Answers r q → Answers q p → Answers r p }
{}

/// How a mark changes an activation, which may go on by it to another place of its function. The call does nothing.
pub fn activation_laws()
    // A write of its locals and a mark come in either order.
    ensures locals { (p : Program) (a : Active) (m : Mark) (locals : List (List (Option Value))) → marked p (with_locals a locals) m ≡ with_locals (marked p a m) locals }

    // It is the same call still.
    ensures calls { (p : Program) (a : Active) (m : Mark) → IsSameCall (marked p a m) a }
{}

/// What a write of a scalar of an object changes. The call does nothing.
pub fn write_laws()
    // Of the scalars of the object, its own alone.
    ensures scalar { (scalars : List (Option Value)) (k : ℕ) (v x : Option Value) → slice_get scalars k ≡ Some x → slice_get (slice_set scalars k v) k ≡ Some v }
    ensures other_scalars { (scalars : List (Option Value)) (k other : ℕ) (v : Option Value) → (k ≡ other → ⊥) → slice_get (slice_set scalars k v) other ≡ slice_get scalars other }

    // Of the objects, its own alone.
    ensures elsewhere { (cells : List (List (Option Value))) (object other scalar : ℕ) (v : Option Value) → (object ≡ other → ⊥) → slice_get (with_scalar cells object scalar v) other ≡ slice_get cells other }
    ensures there { (cells : List (List (Option Value))) (object scalar : ℕ) (v : Option Value) →
        slice_get (with_scalar cells object scalar v) object ≡ option_map (λ scalars. slice_set scalars scalar v) (slice_get cells object) }

    // Writes of different objects come in either order.
    ensures apart { (cells : List (List (Option Value))) (object other scalar k : ℕ) (v w : Option Value) → (object ≡ other → ⊥) →
        with_scalar (with_scalar cells object scalar v) other k w ≡ with_scalar (with_scalar cells other k w) object scalar v }
{}

/// Pairs of programs, and for each pair a relation of their states: the starts with the same inputs are related, what can
/// be seen of related states is the same, and each turn of the first program, with any arrival or none, is answered by turns
/// of the second that lead to related states.
pub trait Simulation {
    ghost pairs: { Program → Program → Type 0 };

    ghost related: { Program → Program → State → State → Type 0 };

    ghost same: { (q p : Program) → pairs q p → (s t : State) → related q p s t → Same q p s t };

    ghost starts: { (q p : Program) → pairs q p → (inputs : List ℤ) → related q p (start q inputs) (start p inputs) };

    ghost turns: { (q p : Program) → pairs q p → (s t : State) → related q p s t → (arrival : Option ℕ) → (others : Arrivals) × related q p (turn q s arrival) (run p t others) };
}

/// Pairs of programs, and for each pair a relation of their states: the starts with the same inputs are related, what can
/// be seen of related states is the same, and each turn of the second program that makes no entry, or makes one at a
/// boundary, is answered by turns of the first that enter at boundaries alone and lead to related states.
pub trait SimulationBack {
    ghost pairs: { Program → Program → Type 0 };

    ghost related: { Program → Program → State → State → Type 0 };

    ghost same: { (q p : Program) → pairs q p → (s t : State) → related q p s t → Same q p s t };

    ghost starts: { (q p : Program) → pairs q p → (inputs : List ℤ) → related q p (start q inputs) (start p inputs) };

    ghost turns: { (q p : Program) → pairs q p → (s t : State) → related q p s t → (arrival : Option ℕ) → (enters p t arrival ≡ true → IsBoundary t) → (others : Arrivals) × EntersAtBoundaries q s others × related q p (run q s others) (turn p t arrival) };
}

/// In each pair, the first program follows the second.
pub fn follows_by<S: Simulation>()
    ensures { (q p : Program) → S.pairs q p → Follows q p }
{}

/// In each pair, the first program answers the second.
pub fn answers_by<S: SimulationBack>()
    ensures { (q p : Program) → S.pairs q p → Answers q p }
{}
