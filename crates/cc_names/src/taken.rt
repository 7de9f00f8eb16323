//! Names that are taken, each found at once.

ghost use Rattle.std.specs.Prelude.{◌≡◌, ◌≤◌, ◌<◌, ◌+◌, ◌++◌, ℕ, true, List, [], ◌∷◌, IfOk, OnOk};
ghost use Rattle.cc_names.specs.Holds.{Holds, AreTaken, IsLeast, IsNoted};
ghost use Rattle.cc_names.specs.Names.{is_among, new_name, with_number as with_number_of};
ghost use Rattle.cc_names.specs.View.{with_name};

use cc_num::NoMemory;
use indexmap::{IndexMap, IndexSet};
use std::alloc::Global;
use std::marker::Model;

/// A set of names. Contracts see the list of them.
#[derive(Drop)]
pub struct Names {
    names: IndexSet<Vec<u8>>,
}

impl Model for Names {
    ghost use Rattle.std.specs.Prelude.{ℕ, List as ListOf};

    ghost Value = { ListOf (ListOf ℕ) };

    ghost use Rattle.cc_names.specs.View.{names_of};

    ghost view = { λ s. names_of s.names };
}

impl Names {
    /// No names.
    #[tactic(auto, using(crate::proofs::NameSets::of_names))]
    pub fn new(alloc: Global) -> Names
        ensures { result ≡ [] }
    {
        Names {
            names: IndexSet::new(alloc),
        }
    }

    /// Whether a name is there.
    #[tactic(auto, using(crate::proofs::NameSets::of_names))]
    pub fn has(&self, name: &[u8]) -> bool
        ensures { result ≡ is_among name.now self.now }
    {
        self.names.contains(name)
    }

    /// Adds a name, where it is not there.
    #[tactic(auto, using(crate::proofs::NameSets::of_names))]
    pub fn add(&mut self, alloc: Global, name: &[u8]) -> Result<(), NoMemory>
        ensures { OnOk result (self.new ≡ with_name self.old name.now) }
    {
        let name = Vec::from_slice(alloc, name)?;
        self.names.insert(name)?;
        Ok(())
    }
}

/// For a name, the number from which on a new one is sought.
type Starts = IndexMap<Vec<u8>, u64>;

/// The names that are taken.
#[derive(Drop)]
pub struct Taken {
    /// All that no new name may be.
    names: Names,
    /// How many names were added, with those that stand twice.
    count: u64,
    /// Of names of their own, which are numbered from 2,
    renamed: Starts,
    /// and of the others, which are numbered from 1.
    numbered: Starts,
}

/// A name with a number behind it.
fn with_number(alloc: Global, base: &[u8], number: u64) -> Result<Vec<u8>, NoMemory>
    ensures { IfOk result (λ name. name.items ≡ with_number_of base.now number) }
{
    let digits = format!(in alloc; "{number}")?;
    let mut name = Vec::from_slice(alloc, base)?;
    name.extend_from_slice(b"__")?;
    name.extend_from_slice(digits.as_bytes())?;
    Ok(name)
}

/// The number from which on a new name is sought, where one is told, and else this one.
#[tactic(auto, using(crate::proofs::Starts::of_starts))]
fn start(starts: &Starts, base: &[u8], from: u64) -> u64
    ensures start { from ≤ result }
    ensures taken { (names : List (List ℕ)) → AreTaken from starts.now names → (i : ℕ) → from ≤ i → i < result → is_among (with_number_of base.now i) names ≡ true }
{
    match starts.get(base) {
        None => from,
        Some(start) => if *start < from { from } else { *start },
    }
}

/// The least number from one on that makes a name that is not there, where one of so many does, and else this one.
#[tactic(auto, using(crate::proofs::Starts::of_starts))]
fn free_number(
    alloc: Global,
    names: &Names,
    count: u64,
    starts: &Starts,
    base: &[u8],
    from: u64,
) -> Result<u64, NoMemory>
    ensures low { IfOk result (λ number. from ≤ number) }
    ensures behind { IfOk result (λ number. AreTaken from starts.now names.now → (i : ℕ) → from ≤ i → i < number → is_among (with_number_of base.now i) names.now ≡ true) }
    ensures found { IfOk result (λ number. AreTaken from starts.now names.now → IsLeast names.now count base.now from number) }
{
    let end = count.checked_add(from).ok_or(NoMemory)?;
    let mut number = start(starts, base, from);
    while number <= end {
        let name = with_number(alloc, base, number)?;
        if !names.has(name.as_slice()) {
            return Ok(number);
        }
        number = number.checked_add(1).ok_or(NoMemory)?;
    }
    Ok(from)
}

/// From this number on a new name is sought next time.
#[tactic(auto, using(crate::proofs::Starts::of_starts))]
fn note(alloc: Global, starts: &mut Starts, base: &[u8], number: u64) -> Result<(), NoMemory>
    ensures { OnOk result (IsNoted starts.old starts.new base.now number) }
{
    starts.insert(Vec::from_slice(alloc, base)?, number)?;
    Ok(())
}

impl Taken {
    /// No names are taken.
    #[tactic(auto, using(crate::proofs::Takings::of_taken))]
    pub fn new(alloc: Global) -> Taken
        ensures { Holds result [] [] }
    {
        Taken {
            names: Names::new(alloc),
            count: 0,
            renamed: IndexMap::new(alloc),
            numbered: IndexMap::new(alloc),
        }
    }

    /// A name is taken from now on.
    fn take(&mut self, alloc: Global, name: &[u8]) -> Result<(), NoMemory>
        ensures names { OnOk result (self.new.names ≡ with_name self.old.names name.now) }
        ensures count { OnOk result (self.new.count ≡ self.old.count + 1) }
        ensures renamed { OnOk result (self.new.renamed ≡ self.old.renamed) }
        ensures numbered { OnOk result (self.new.numbered ≡ self.old.numbered) }
    {
        self.count = self.count.checked_add(1).ok_or(NoMemory)?;
        self.names.add(alloc, name)
    }

    /// No new name is to be this one. All such names are told before the first one is given.
    #[tactic(auto, using(crate::proofs::Takings::of_taken))]
    pub fn reserve(&mut self, alloc: Global, name: &[u8]) -> Result<(), NoMemory>
        ensures { OnOk result ((reserved : List (List ℕ)) → Holds self.old reserved [] → Holds self.new (reserved ++ name.now ∷ []) []) }
    {
        self.take(alloc, name)?;
        Ok(())
    }

    /// A name is given.
    #[tactic(auto, using(crate::proofs::Takings::of_taken))]
    pub fn give(&mut self, alloc: Global, name: &[u8]) -> Result<(), NoMemory>
        ensures { OnOk result ((reserved given : List (List ℕ)) → Holds self.old reserved given → Holds self.new reserved (given ++ name.now ∷ [])) }
    {
        self.take(alloc, name)?;
        Ok(())
    }

    /// Gives a name of its own a number, from 2 on.
    #[tactic(auto, using(crate::proofs::Takings::of_taken))]
    pub fn rename(&mut self, alloc: Global, base: &[u8]) -> Result<Vec<u8>, NoMemory>
        ensures name { IfOk result (λ name. (reserved given : List (List ℕ)) → Holds self.old reserved given → name.items ≡ new_name reserved given base.now 2) }
        ensures taken { IfOk result (λ name. (reserved given : List (List ℕ)) → Holds self.old reserved given → Holds self.new reserved (given ++ name.items ∷ [])) }
    {
        let number = free_number(alloc, &self.names, self.count, &self.renamed, base, 2)?;
        let name = with_number(alloc, base, number)?;
        note(alloc, &mut self.renamed, base, number)?;
        self.take(alloc, name.as_slice())?;
        Ok(name)
    }

    /// Gives a name with a number, from 1 on.
    #[tactic(auto, using(crate::proofs::Takings::of_taken))]
    pub fn number(&mut self, alloc: Global, base: &[u8]) -> Result<Vec<u8>, NoMemory>
        ensures name { IfOk result (λ name. (reserved given : List (List ℕ)) → Holds self.old reserved given → name.items ≡ new_name reserved given base.now 1) }
        ensures taken { IfOk result (λ name. (reserved given : List (List ℕ)) → Holds self.old reserved given → Holds self.new reserved (given ++ name.items ∷ [])) }
    {
        let number = free_number(alloc, &self.names, self.count, &self.numbered, base, 1)?;
        let name = with_number(alloc, base, number)?;
        note(alloc, &mut self.numbered, base, number)?;
        self.take(alloc, name.as_slice())?;
        Ok(name)
    }
}
