//! What facts have in a slot, as reports have it.

ghost use Rattle.std.specs.Prelude.{◌≡◌, ◌++◌, IfOk, OnOk};
ghost use Rattle.std.specs.Option.{option_copied};
ghost use Rattle.cc_rules_asked.specs.CcRulesNeeds.declared.needs.Part.TheVariants as part;
ghost use Rattle.cc_rules_asked.specs.CcRulesNeeds.Needs.{apart_in, flags_in};
ghost use Rattle.cc_rules_texts.specs.Names.{AreNames};
ghost use Rattle.cc_rules_texts.specs.Texts.{had_text as had_text_of, part_text};
ghost use Rattle.cc_rules_asked.specs.CcStateFacts.Facts.{fact_at};

use crate::names::Names;
use crate::parts::{put_flags, put_mark};
use cc_program::num::{NoMemory, at};
use cc_rules_asked::lattice::IntDomain;
use cc_rules_asked::places::Abs;
use cc_rules_asked::rules_needs::Slot;
use cc_rules_asked::state_facts::{Facts, PointFact, is_pair};
use cc_rules_asked::{levels, mark};
use cc_state_texts::{put_number, put_values};
use std::alloc::Global;

/// What is known at a point.
fn fact<I>(facts: &Facts<I>, point: u32) -> Option<&PointFact<I>>
    ensures { option_copied result ≡ fact_at facts.now point }
{
    at(facts.at.all(), point as usize)?.as_ref()
}

/// Appends a set, where there is one.
fn put_set<I: IntDomain>(
    alloc: Global,
    text: &mut Vec<u8>,
    names: &Names<'_>,
    slot: Slot,
    set: Option<&Abs<I>>,
) -> Result<(), NoMemory>
    ensures { OnOk result (text.new.items ≡ text.old.items ++ part_text names.now.program.now I.members_of I.bounds_of slot (part.Values (option_copied set.entry))) }
{
    match set {
        None => Ok(()),
        Some(values) => put_values(alloc, text, names.program, values),
    }
}

fn put_levels<I: IntDomain>(
    alloc: Global,
    text: &mut Vec<u8>,
    names: &Names<'_>,
    slot: Slot,
    levels: u8,
) -> Result<(), NoMemory>
    ensures { OnOk result (text.new.items ≡ text.old.items ++ part_text names.now.program.now I.members_of I.bounds_of slot (part.LevelSet levels)) }
{
    put_number(alloc, text, u64::from(levels))
}

/// Appends how the flag may be at a point.
fn put_flag<I: IntDomain>(
    text: &mut Vec<u8>,
    names: &Names<'_>,
    slot: Slot,
    fact: Option<&PointFact<I>>,
) -> Result<(), NoMemory>
    ensures { OnOk result (text.new.items ≡ text.old.items ++ part_text names.now.program.now I.members_of I.bounds_of slot (flags_in (option_copied fact.entry))) }
{
    match fact {
        None => Ok(()),
        Some(fact) => put_flags(text, fact.off, fact.on),
    }
}

/// Whether a point is reached and a register and a tracked cell are no pair there.
fn are_apart<I>(fact: Option<&PointFact<I>>, register: u32, cell: u32) -> bool
    ensures { result ≡ apart_in (option_copied fact.entry) register cell }
{
    match fact {
        None => false,
        Some(fact) => !is_pair(fact, register, cell),
    }
}

fn put_had<I: IntDomain>(
    alloc: Global,
    text: &mut Vec<u8>,
    names: &Names<'_>,
    facts: &Facts<I>,
    slot: Slot,
) -> Result<(), NoMemory>
    requires { AreNames names.now }
    ensures { OnOk result (text.new.items ≡ text.old.items ++ had_text_of names.now.program.now I.members_of I.bounds_of facts.now slot) }
{
    match slot {
        Slot::Whole(k) => put_set(alloc, text, names, slot, at(facts.whole.all(), k as usize)),
        Slot::HandlerReads(k) => {
            let marked = mark(facts.handler_reads.all(), k as usize);
            put_mark::<I>(alloc, text, names, slot, marked)
        }
        Slot::HandlerWrites(k) => {
            let marked = mark(facts.handler_writes.all(), k as usize);
            put_mark::<I>(alloc, text, names, slot, marked)
        }
        Slot::ReadLevels(k) => {
            let set = levels(facts.read_levels.all(), k as usize);
            put_levels::<I>(alloc, text, names, slot, set)
        }
        Slot::WriteLevels(k) => {
            let set = levels(facts.write_levels.all(), k as usize);
            put_levels::<I>(alloc, text, names, slot, set)
        }
        Slot::Result(g) => put_set(
            alloc,
            text,
            names,
            slot,
            at(facts.results.all(), g as usize),
        ),
        Slot::ByMain(g) => {
            let marked = mark(facts.by_main.all(), g as usize);
            put_mark::<I>(alloc, text, names, slot, marked)
        }
        Slot::ByHandler(g) => {
            let marked = mark(facts.by_handler.all(), g as usize);
            put_mark::<I>(alloc, text, names, slot, marked)
        }
        Slot::Levels(g) => {
            let set = levels(facts.levels.all(), g as usize);
            put_levels::<I>(alloc, text, names, slot, set)
        }
        Slot::From(g) => {
            let set = levels(facts.from.all(), g as usize);
            put_levels::<I>(alloc, text, names, slot, set)
        }
        Slot::Flag(n) => put_flag(text, names, slot, fact(facts, n)),
        Slot::LocalAt(n, r) => put_set(alloc, text, names, slot, facts.local(n, r)),
        Slot::CellAt(n, j) => put_set(alloc, text, names, slot, facts.cell(n, j)),
        Slot::Apart(n, r, j) => {
            let apart = are_apart(fact(facts, n), r, j);
            put_mark::<I>(alloc, text, names, slot, apart)
        }
    }
}

/// What facts have in a slot, as reports have it.
pub fn had_text<I: IntDomain>(
    alloc: Global,
    names: &Names<'_>,
    facts: &Facts<I>,
    slot: Slot,
) -> Result<Vec<u8>, NoMemory>
    requires { AreNames names.now }
    ensures { IfOk result (λ text. text.items ≡ had_text_of names.now.program.now I.members_of I.bounds_of facts.now slot) }
{
    let mut text = Vec::new(alloc);
    put_had(alloc, &mut text, names, facts, slot)?;
    Ok(text)
}
