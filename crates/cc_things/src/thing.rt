//! Things: all mentions of one object, device or function.

ghost use Rattle.std.specs.Prelude.{◌≡◌, [], ◌∷◌, IfOk, OnOk, map};
ghost use Rattle.std.specs.List.{position_or_len};
ghost use Rattle.cc_things.specs.Things.{same_identity, with_identity, things_in, numbers_in};
ghost use Rattle.cc_things.specs.View.{view_of, views_of, identity_view, identities_of, thing_view, added};

use crate::identity::{Identity, identity_of};
use crate::lists::push;
use crate::mention::Mention;
use cc_program::num::NoMemory;
use indexmap::IndexSet;
use std::alloc::Global;

/// A thing, and all mentions of it, in order of appearance.
#[derive(Drop)]
pub struct Thing<'t> {
    pub identity: Identity<'t>,
    pub mentions: Vec<Mention<'t>>,
}

/// What sources name.
#[derive(Drop)]
pub struct Things<'t> {
    /// In order of first appearance.
    pub things: Vec<Thing<'t>>,
    /// The number of the thing of each mention.
    pub numbers: Vec<usize>,
}

/// Adds a mention of the thing of a number, which may be a new one.
fn put<'t>(
    alloc: Global,
    things: &mut Vec<Thing<'t>>,
    number: usize,
    identity: Identity<'t>,
    m: Mention<'t>,
) -> Result<(), NoMemory>
    ensures { OnOk result (map thing_view things.new.items ≡ added (map thing_view things.old.items) number (identity_view identity.entry) (view_of m.entry)) }
{
    if number < things.len() {
        push(&mut things[number].mentions, m)
    } else {
        let mut mentions = Vec::new(alloc);
        push(&mut mentions, m)?;
        push(things, Thing { identity, mentions })
    }
}

/// The number of an identity, which is added where it is new.
fn number_of<'t>(
    identities: &mut IndexSet<Identity<'t>>,
    identity: Identity<'t>,
) -> Result<usize, NoMemory>
    ensures number { IfOk result (λ number. number ≡ position_or_len (same_identity (identity_view identity.entry)) (identities_of identities.old)) }
    ensures identities { OnOk result (identities_of identities.new ≡ with_identity (identities_of identities.old) (identity_view identity.entry)) }
{
    let (number, _) = identities.insert_full(identity)?;
    Ok(number)
}

/// Adds all mentions, where nothing is mentioned so far.
fn put_all<'t>(
    alloc: Global,
    mentions: &[Mention<'t>],
    identities: &mut IndexSet<Identity<'t>>,
    things: &mut Vec<Thing<'t>>,
    numbers: &mut Vec<usize>,
) -> Result<(), NoMemory>
    requires identities { identities_of identities.old ≡ [] }
    requires things { things.old.items ≡ [] }
    requires numbers { numbers.old.items ≡ [] }
    ensures things { OnOk result (map thing_view things.new.items ≡ things_in (views_of mentions.now)) }
    ensures numbers { OnOk result (numbers.new.items ≡ numbers_in (views_of mentions.now)) }
{
    for m in mentions {
        let identity = identity_of(m);
        let number = number_of(identities, identity)?;
        put(alloc, things, number, identity, *m)?;
        push(numbers, number)?;
    }
    Ok(())
}

/// The things that are mentioned.
#[tactic(auto, using(crate::proofs::IdentitySets::of_identities))]
pub fn things_of<'t>(alloc: Global, mentions: &[Mention<'t>]) -> Result<Things<'t>, NoMemory>
    ensures things { IfOk result (λ r. map thing_view r.things.items ≡ things_in (views_of mentions.now)) }
    ensures numbers { IfOk result (λ r. r.numbers.items ≡ numbers_in (views_of mentions.now)) }
{
    let mut identities: IndexSet<Identity<'t>> = IndexSet::new(alloc);
    let mut things = Vec::new(alloc);
    let mut numbers = Vec::new(alloc);
    put_all(alloc, mentions, &mut identities, &mut things, &mut numbers)?;
    Ok(Things { things, numbers })
}
