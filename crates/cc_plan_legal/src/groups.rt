//! The fields of each word.

ghost use Rattle.std.specs.Prelude.{◌≡◌, ◌++◌, ◌∷◌, [], IfOk, OnOk, map};
ghost use Rattle.cc_plan_legal.specs.Lookup.{no_fields, put_at, put_all};

use cc_bins::{Field, Word};
use cc_program::num::{List, NoMemory};
use std::alloc::Global;
use std::mem;

/// The fields of a word, in their order.
#[derive(Drop)]
pub(crate) struct Group {
    pub fields: List<Field>,
}

impl Group {
    fn new(alloc: Global) -> Group
        ensures { result ≡ no_fields }
    {
        Group {
            fields: List::of(Vec::new(alloc)),
        }
    }

    /// Puts a field behind the others.
    fn add(&mut self, alloc: Global, field: &Field) -> Result<(), NoMemory>
        ensures { OnOk result (self.new ≡ record { fields = self.old.fields ++ field.now ∷ [] }) }
    {
        let nothing = List::of(Vec::new(alloc));
        let mut fields = mem::replace(&mut self.fields, nothing).into_vec();
        fields.push(*field)?;
        self.fields = List::of(fields);
        Ok(())
    }
}

/// For each word none.
#[tactic(auto, using(crate::proofs::Joins::joins))]
fn empty(alloc: Global, words: &[Word]) -> Result<Vec<Group>, NoMemory>
    ensures { IfOk result (λ groups. groups.items ≡ map (λ _. no_fields) words.now) }
{
    let mut groups = Vec::new(alloc);
    let mut left = words;
    while let [_, rest @ ..] = left {
        groups.push(Group::new(alloc))?;
        left = rest;
    }
    Ok(groups)
}

/// Puts a field into the group of its word.
fn put(alloc: Global, groups: &mut Vec<Group>, field: &Field) -> Result<(), NoMemory>
    ensures { OnOk result (groups.new.items ≡ put_at field.now.word field.now groups.old.items) }
{
    let at = field.word as usize;
    if at < groups.len() {
        groups[at].add(alloc, field)
    } else {
        Ok(())
    }
}

/// Puts fields into the groups of their words.
fn fill(alloc: Global, groups: &mut Vec<Group>, fields: &[Field]) -> Result<(), NoMemory>
    ensures { OnOk result (groups.new.items ≡ put_all groups.old.items fields.now) }
{
    let mut left = fields;
    while let [field, rest @ ..] = left {
        put(alloc, groups, field)?;
        left = rest;
    }
    Ok(())
}

/// For each word its fields.
pub(crate) fn by_word(
    alloc: Global,
    words: &[Word],
    fields: &[Field],
) -> Result<Vec<Group>, NoMemory>
    ensures { IfOk result (λ groups. groups.items ≡ put_all (map (λ _. no_fields) words.now) fields.now) }
{
    let mut groups = empty(alloc, words)?;
    fill(alloc, &mut groups, fields)?;
    Ok(groups)
}
