//! Mentions: the names of sources, and whether the sources speak of them.

ghost use Rattle.std.specs.Prelude.{◌≡◌, ℕ, ◌<◌, ◌++◌, true, false, IfOk, OnOk, length, nat_eq, slice_index_or, slice_set};
ghost use Rattle.std.specs.List.{list_any};
ghost use Rattle.cc_things.specs.Mentions.{mentions_of, mentions as all_mentions};
ghost use Rattle.cc_things.specs.View.{views_of};

use crate::lists::push;
use crate::text::Text;
use cc_program::num::NoMemory;
use cc_unit::{UnitName, mentioned};
use std::alloc::Global;

/// A name of a source.
#[derive(Clone, Copy)]
pub struct Mention<'t> {
    /// The source, and the position among its names.
    pub text: u32,
    pub position: u32,
    /// Whether a body or a first value of the source speaks of it.
    pub used: bool,
    /// What is known of it there.
    pub name: &'t UnitName,
}

/// Flags a number, where it is one of those that have flags.
#[tactic(auto, using(crate::proofs::Flags::of_flags))]
fn flag(flags: &mut Vec<bool>, number: usize)
    ensures { flags.new.items ≡ slice_set flags.old.items number true }
{
    if number < flags.len() {
        flags[number] = true;
    }
}

/// Which of so many numbers stand in a list.
#[tactic(auto, using(crate::proofs::Flags::of_flags))]
fn flags(alloc: Global, count: usize, numbers: &[u32]) -> Result<Vec<bool>, NoMemory>
    ensures count { IfOk result (λ flags. length flags.items ≡ count) }
    ensures flags { IfOk result (λ flags. (i : ℕ) → i < count → slice_index_or flags.items i false ≡ list_any (nat_eq i) numbers.now) }
{
    let mut flags = vec![in alloc; false; count]?;
    for spoken in numbers {
        flag(&mut flags, *spoken as usize);
    }
    Ok(flags)
}

/// Puts the names of a source behind others.
#[tactic(auto, using(crate::proofs::Counted::of_mentions))]
fn put_mentions<'t>(
    alloc: Global,
    text: u32,
    x: &'t Text,
    mentions: &mut Vec<Mention<'t>>,
) -> Result<(), NoMemory>
    ensures { OnOk result (views_of mentions.new.items ≡ views_of mentions.old.items ++ mentions_of text x.now) }
{
    let names: &'t [UnitName] = x.unit.names.all();
    let numbers = mentioned(alloc, names)?;
    let used = flags(alloc, names.len(), numbers.as_slice())?;
    let mut position: u32 = 0;
    for name in names {
        let used = used[position as usize];
        push(
            mentions,
            Mention {
                text,
                position,
                used,
                name,
            },
        )?;
        position = position.checked_add(1).ok_or(NoMemory)?;
    }
    Ok(())
}

/// All mentions, in order of appearance.
pub fn mentions<'t>(alloc: Global, texts: &'t [Text]) -> Result<Vec<Mention<'t>>, NoMemory>
    ensures { IfOk result (λ mentions. views_of mentions.items ≡ all_mentions texts.now) }
{
    let mut mentions = Vec::new(alloc);
    let mut text: u32 = 0;
    for x in texts {
        put_mentions(alloc, text, x, &mut mentions)?;
        text = text.checked_add(1).ok_or(NoMemory)?;
    }
    Ok(mentions)
}
