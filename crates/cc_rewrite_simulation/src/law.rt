ghost use Rattle.cc_program.specs.declared.program.Program.{Program};
ghost use Rattle.cc_rewrite_simulation.specs.Comparison.{Comparison};
ghost use Rattle.cc_rewrite_simulation.specs.Simulated.{IsFollowed, IsAnswered};
ghost use Rattle.cc_steps.specs.Runs.{Follows, Answers};
ghost use Rattle.cc_steps.specs.State.{State};

/// Pairs of programs, by what each pair is compared, and what is known of each state of a run of either program. Two activations that stand in
/// front of the same statements make steps that follow and answer each other.
pub trait CodedSimulation {
    ghost pairs: { Program → Program → Type 0 };

    ghost compared: { (q p : Program) → pairs q p → Comparison q p };

    ghost known: { (q p : Program) → pairs q p → State → Type 0 };

    ghost known_source: { (q p : Program) → pairs q p → State → Type 0 };

    ghost followed: { (q p : Program) (h : pairs q p) → IsFollowed (compared q p h) (known q p h) (known_source q p h) };

    ghost answered: { (q p : Program) (h : pairs q p) → IsAnswered (compared q p h) (known q p h) (known_source q p h) };
}

/// In each pair, the first program follows the second.
pub fn follows_by_coding<S: CodedSimulation>()
    ensures { (q p : Program) → S.pairs q p → Follows q p }
{}

/// In each pair, the first program answers the second.
pub fn answers_by_coding<S: CodedSimulation>()
    ensures { (q p : Program) → S.pairs q p → Answers q p }
{}
