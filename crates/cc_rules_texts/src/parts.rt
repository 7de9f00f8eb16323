//! Parts of slots, as reports have them.

ghost use Rattle.std.specs.Prelude.{◌≡◌, ◌++◌, IfOk, OnOk};
ghost use Rattle.cc_rules_asked.specs.CcRulesNeeds.declared.needs.Part.TheVariants as part;
ghost use Rattle.cc_rules_texts.specs.Names.{AreNames};
ghost use Rattle.cc_rules_texts.specs.Texts.{flags_text as flags_text_of, mark_text as mark_text_of, part_text as part_text_of};

use crate::names::{Names, put_pair};
use cc_program::num::NoMemory;
use cc_rules_asked::lattice::IntDomain;
use cc_rules_asked::rules_needs::{Part, Slot};
use cc_state_texts::{put, put_number, put_values};
use std::alloc::Global;

fn flags_text(off: bool, on: bool) -> &'static [u8]
    ensures { result.now ≡ flags_text_of off on }
{
    match (off, on) {
        (false, false) => b"",
        (true, false) => b"off",
        (false, true) => b"on",
        (true, true) => b"both",
    }
}

fn mark_text(slot: Slot) -> &'static [u8]
    ensures { result.now ≡ mark_text_of slot }
{
    match slot {
        Slot::ByMain(_) => b"main",
        Slot::ByHandler(_) => b"handler",
        Slot::HandlerReads(_) => b"read",
        Slot::HandlerWrites(_) => b"write",
        _ => b"",
    }
}

/// Appends what a mark of a slot says.
pub(crate) fn put_mark<I: IntDomain>(
    alloc: Global,
    text: &mut Vec<u8>,
    names: &Names<'_>,
    slot: Slot,
    mark: bool,
) -> Result<(), NoMemory>
    requires { AreNames names.now }
    ensures { OnOk result (text.new.items ≡ text.old.items ++ part_text_of names.now.program.now I.members_of I.bounds_of slot (part.Mark mark)) }
{
    match slot {
        Slot::Apart(point, register, cell) => {
            if mark {
                return Ok(());
            }
            put_pair(alloc, text, names, point, register, cell)
        }
        _ => {
            if !mark {
                return Ok(());
            }
            put(text, mark_text(slot))
        }
    }
}

/// Appends how the flag may be.
pub(crate) fn put_flags(text: &mut Vec<u8>, off: bool, on: bool) -> Result<(), NoMemory>
    ensures { OnOk result (text.new.items ≡ text.old.items ++ flags_text_of off on) }
{
    put(text, flags_text(off, on))
}

fn put_part<I: IntDomain>(
    alloc: Global,
    text: &mut Vec<u8>,
    names: &Names<'_>,
    slot: Slot,
    part: &Part<I>,
) -> Result<(), NoMemory>
    requires { AreNames names.now }
    ensures { OnOk result (text.new.items ≡ text.old.items ++ part_text_of names.now.program.now I.members_of I.bounds_of slot part.now) }
{
    match part {
        Part::Mark(mark) => put_mark::<I>(alloc, text, names, slot, *mark),
        Part::LevelSet(levels) => put_number(alloc, text, u64::from(*levels)),
        Part::Flags(off, on) => put_flags(text, *off, *on),
        Part::Values(None) => Ok(()),
        Part::Values(Some(values)) => put_values(alloc, text, names.program, values),
    }
}

/// A part of a slot, as reports have it: nothing where it is empty, `off`, `on` or `both`, levels as a number, values by their
/// names; of a register and a cell that may equal one another both names.
pub fn part_text<I: IntDomain>(
    alloc: Global,
    names: &Names<'_>,
    slot: Slot,
    part: &Part<I>,
) -> Result<Vec<u8>, NoMemory>
    requires { AreNames names.now }
    ensures { IfOk result (λ text. text.items ≡ part_text_of names.now.program.now I.members_of I.bounds_of slot part.now) }
{
    let mut text = Vec::new(alloc);
    put_part(alloc, &mut text, names, slot, part)?;
    Ok(text)
}
