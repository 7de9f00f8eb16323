//! Systems of constraints.

ghost use Rattle.std.specs.Prelude.{◌≡◌, ◌↔◌, ◌<◌, ◌⊎◌, ◌++◌, ℕ, Bool, List, true, false, IsTrue, IfOk, OnOk, All};
ghost use Rattle.std.specs.List.{Contains};
ghost use Rattle.cc_lattice.specs.Systems.{MeetsAll, IsRaised, BeginsWith};

use cc_lattice::Lattice;
use cc_num::NoMemory;
use std::alloc::Global;

/// Numbered constraints over facts. A constraint asks of facts that others have something.
pub trait System {
    /// What the constraints are about.
    type Facts: Lattice;

    /// What has to hold of the system itself. Calls are made on such a system alone.
    ghost IsReady: { Self → Type 0 };

    /// The facts that belong to the system. Calls are made with such facts alone, and give such facts.
    ghost IsFitting: { Self → Self.Facts → Type 0 };

    /// How many constraints there are.
    ghost count_of: { Self → ℕ };

    /// `Asks system index f g`: the facts g have what the constraint asks of the facts f. Facts meet a
    /// constraint where they have what it asks of them.
    ghost Asks: { Self → ℕ → Self.Facts → Self.Facts → Type 0 };

    /// How often facts can still rise, at the most.
    ghost room_of: { Self → Self.Facts → ℕ };

    /// The constraints that facts may no longer meet once the constraint has raised them.
    ghost again_of: { Self → ℕ → Self.Facts → List ℕ };

    /// Of which constraints it is known that facts which they raised meet them, or list them again.
    ghost settles_of: { Self → ℕ → Bool };

    /// Facts below every solution.
    fn lowest(&self, alloc: Global) -> Result<Self::Facts, NoMemory>
        requires ready { IsReady self.now }
        ensures fitting { IfOk result (λ f. IsFitting self.now f) }
        ensures below { IfOk result (λ f. (g : Self.Facts) → IsFitting self.now g → MeetsAll (count_of self.now) (Asks self.now) g → Self.Facts.IsBelow f g) };

    /// How many constraints there are.
    fn count(&self) -> u32
        requires ready { IsReady self.now }
        ensures { result ≡ count_of self.now };

    /// Whether facts meet a constraint.
    fn met(&self, alloc: Global, index: u32, facts: &Self::Facts) -> Result<bool, NoMemory>
        requires ready { IsReady self.now }
        requires fitting { IsFitting self.now facts.now }
        requires index { index < count_of self.now }
        ensures { IfOk result (λ yes. IsTrue yes ↔ Asks self.now index facts.now facts.now) };

    /// Raises facts to the least ones above them that have what a constraint asks of them, and says
    /// whether they rose. After want of memory the facts lie between the old ones and those. What is below facts that
    /// meet the constraint stays below them; so what is below a solution stays below it.
    fn raise(&self, alloc: Global, index: u32, facts: &mut Self::Facts) -> Result<bool, NoMemory>
        requires ready { IsReady self.now }
        requires fitting { IsFitting self.now facts.old }
        requires index { index < count_of self.now }
        ensures fitting { IsFitting self.now facts.new }
        ensures above { Self.Facts.IsBelow facts.old facts.new }
        ensures least { (h : Self.Facts) → IsFitting self.now h → Self.Facts.IsBelow facts.old h → Asks self.now index facts.old h
            → Self.Facts.IsBelow facts.new h }
        ensures has { OnOk result (Asks self.now index facts.old facts.new) }
        ensures stays { (g : Self.Facts) → IsFitting self.now g → Self.Facts.IsBelow facts.old g → Asks self.now index g g
            → Self.Facts.IsBelow facts.new g }
        ensures rose { IfOk result (λ rose. rose ≡ true → room_of self.now facts.new < room_of self.now facts.old) }
        ensures same { IfOk result (λ rose. rose ≡ false → facts.new ≡ facts.old) };

    /// Appends the numbers of the constraints that the facts may not meet although they met them before
    /// the constraint raised them. After want of memory the list begins with the old one.
    fn again(&self, index: u32, facts: &Self::Facts, list: &mut Vec<u32>) -> Result<(), NoMemory>
        requires ready { IsReady self.now }
        requires fitting { IsFitting self.now facts.now }
        requires index { index < count_of self.now }
        ensures list { OnOk result (list.new.items ≡ list.old.items ++ again_of self.now index facts.now) }
        ensures kept { BeginsWith list.old.items list.new.items };

    /// Whether it is known of a constraint that facts which it raised meet it, or have it listed by `again`.
    fn settles(&self, index: u32) -> bool
        ensures { result ≡ settles_of self.now index };

    /// How often the facts can still rise, at the most.
    fn room(&self, facts: &Self::Facts) -> u128
        requires ready { IsReady self.now }
        requires fitting { IsFitting self.now facts.now }
        ensures { result ≡ room_of self.now facts.now };

    /// Whether a constraint is asked only where none is listed that does not wait. Nothing but the time that it takes hangs on this.
    fn waits(&self, index: u32) -> bool;

    /// Facts that fit one system are of one kind.
    ghost fitting_alike: { (s : Self) (f g : Self.Facts) → IsFitting s f → IsFitting s g → Self.Facts.AreAlike f g };

    /// Each number that is listed again is that of a constraint.
    ghost again_counts: { (s : Self) (i : ℕ) (f : Self.Facts) → i < count_of s → IsFitting s f → All (λ j. j < count_of s) (again_of s i f) };

    /// A constraint that settles is met by the facts that it raised, or listed again.
    ghost again_itself: { (s : Self) (i : ℕ) (f g : Self.Facts) → settles_of s i ≡ true → i < count_of s → IsFitting s f → IsFitting s g
        → IsRaised (IsFitting s) Self.Facts.IsBelow (Asks s i) f g → Asks s i g g ⊎ Contains (again_of s i g) i };

    /// A constraint that facts met before another one raised them is met or listed again.
    ghost again_lists: { (s : Self) (i j : ℕ) (f g : Self.Facts) → i < count_of s → j < count_of s → IsFitting s f → IsFitting s g
        → IsRaised (IsFitting s) Self.Facts.IsBelow (Asks s i) f g → Asks s j f f → Asks s j g g ⊎ Contains (again_of s i g) j };
}
