//! The ids in the program of what each source names.

ghost use Rattle.std.specs.Prelude.{◌≡◌, ℕ, [], IfOk, map, take, drop};
ghost use Rattle.cc_link.specs.Linked.{ids_from};
ghost use Rattle.cc_link.specs.Kept.{id_or_none};
ghost use Rattle.cc_things.specs.Mentions.{Mention as MentionOf, mentions_from};
ghost use Rattle.cc_unit.specs.declared.ids.Id.{Id as IdOf};

use cc_causes::structures_in;
use cc_program::num::{List, NoMemory, at};
use cc_things::Text;
use cc_unit::{Id, Ids};
use std::alloc::Global;

/// The first of some numbers.
fn front(numbers: &[usize], count: usize) -> &[usize]
    ensures { result.now ≡ take count numbers.now }
{
    if count < numbers.len() {
        &numbers[..count]
    } else {
        numbers
    }
}

/// Those that stand behind them.
fn behind(numbers: &[usize], count: usize) -> &[usize]
    ensures { result.now ≡ drop count numbers.now }
{
    if count < numbers.len() {
        &numbers[count..]
    } else {
        &[]
    }
}

fn id_of(table: &[Id], number: usize) -> Id
    ensures { result ≡ id_or_none table.now number }
{
    match at(table, number) {
        None => Id::Object(0),
        Some(id) => *id,
    }
}

/// The ids of things.
fn ids_of(alloc: Global, table: &[Id], numbers: &[usize]) -> Result<List<Id>, NoMemory>
    ensures { IfOk result (λ ids. ids ≡ map (λ k. id_or_none table.now k) numbers.now) }
{
    let mut ids = Vec::new(alloc);
    for number in numbers {
        ids.push(id_of(table, *number))?;
    }
    Ok(List::of(ids))
}

/// The ids of what each source names, where these are the numbers of the things that are mentioned, in order.
pub fn all_ids(
    alloc: Global,
    texts: &[Text],
    structures: &[List<u32>],
    table: &[Id],
    numbers: &[usize],
) -> Result<Vec<Ids>, NoMemory>
    ensures { IfOk result (λ ids. (id_of : MentionOf → IdOf) → map (λ k. id_or_none table.now k) numbers.now ≡ map id_of (mentions_from 0 texts.now) → ids.items ≡ ids_from id_of structures.now 0 texts.now) }
{
    let mut ids = Vec::new(alloc);
    let mut text: usize = 0;
    let mut rest: &[usize] = numbers;
    for x in texts {
        let count = x.unit.names.all().len();
        let numbers_here = Vec::from_slice(alloc, structures_in(structures, text))?;
        let names = ids_of(alloc, table, front(rest, count))?;
        ids.push(Ids {
            structures: List::of(numbers_here),
            names,
        })?;
        rest = behind(rest, count);
        text += 1;
    }
    Ok(ids)
}
