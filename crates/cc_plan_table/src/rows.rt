//! The table of a plan.

ghost use Rattle.std.specs.Prelude.{◌≡◌, ◌≤◌, ◌^◌, ◌++◌, IfOk, OnOk, length};
ghost use Rattle.std.specs.Fmt.{decimal};
ghost use Rattle.cc_plan_legal.specs.Index.{IsIndex};
ghost use Rattle.cc_plan_table.specs.Table.{header, line_of, rows_text, slot_row, slot_rows, table_text, total_row};

use crate::columns::{
    class_text, coding_column, put_bits_column, put_values_column, put_word_column, reason_column,
};
use crate::row::{Ram, Row, put_row};
use crate::standing::{Standing, standing_in};
use crate::totals::{Totals, totals_in};
use cc_cost_ranking::Cost;
use cc_plan_legal::kinds::Plan;
use cc_plan_legal::{Index, index_of};
use cc_program::Program;
use cc_program::num::{Name, NoMemory};
use cc_slots_types::Slot;
use cc_state_texts::{put_number, put_sum};
use std::alloc::Global;

/// Appends the names of the columns.
#[tactic(auto, unfolding(crate::specs::Table::header))]
fn put_header(alloc: Global, text: &mut Vec<u8>) -> Result<(), NoMemory>
    ensures { OnOk result (text.new.items ≡ text.old.items ++ line_of header) }
{
    put_row(
        alloc,
        text,
        Row {
            slot: b"slot",
            class: b"class",
            values: b"values",
            bits: b"bits",
            coding: b"coding",
            word: b"word",
            reason: b"reason",
        },
    )
}

/// Appends the row of a slot.
#[tactic(auto, unfolding(crate::specs::Table::slot_row))]
fn put_slot(
    alloc: Global,
    text: &mut Vec<u8>,
    p: &Program,
    words: &[Name],
    slot: &Slot,
    standing: Standing,
) -> Result<(), NoMemory>
    ensures { OnOk result (text.new.items ≡ text.old.items ++ line_of (slot_row p.now words.now slot.now standing)) }
{
    let mut values = Vec::new(alloc);
    put_values_column(alloc, &mut values, p, slot)?;
    let mut bits = Vec::new(alloc);
    put_bits_column(alloc, &mut bits, slot)?;
    let mut word = Vec::new(alloc);
    put_word_column(alloc, &mut word, words, slot, standing)?;
    put_row(
        alloc,
        text,
        Row {
            slot: slot.name.all(),
            class: class_text(slot.class),
            values: values.as_slice(),
            bits: bits.as_slice(),
            coding: coding_column(slot, standing),
            word: word.as_slice(),
            reason: reason_column(slot, standing),
        },
    )
}

/// Appends the rows of slots.
fn put_slots(
    alloc: Global,
    text: &mut Vec<u8>,
    p: &Program,
    words: &[Name],
    plan: &Plan,
    index: &Index,
    slots: &[Slot],
) -> Result<(), NoMemory>
    requires few { length slots.now ≤ 2 ^ 32 }
    requires index { IsIndex plan.now index.now }
    ensures { OnOk result (text.new.items ≡ text.old.items ++ rows_text (slot_rows p.now words.now plan.now 0 slots.now)) }
{
    let mut number: u64 = 0;
    let mut left = slots;
    while let [slot, rest @ ..] = left {
        let here = standing_in(plan, index, number as u32);
        put_slot(alloc, text, p, words, slot, here)?;
        number += 1;
        left = rest;
    }
    Ok(())
}

fn number_text(alloc: Global, number: u64) -> Result<Vec<u8>, NoMemory>
    ensures { IfOk result (λ v. v.items ≡ decimal number) }
{
    let mut text = Vec::new(alloc);
    put_number(alloc, &mut text, number)?;
    Ok(text)
}

fn sum_text(alloc: Global, sum: u128) -> Result<Vec<u8>, NoMemory>
    ensures { IfOk result (λ v. v.items ≡ decimal sum) }
{
    let mut text = Vec::new(alloc);
    put_sum(alloc, &mut text, sum)?;
    Ok(text)
}

/// Appends the row of totals.
#[tactic(auto, unfolding(crate::specs::Table::total_row))]
fn put_totals(alloc: Global, text: &mut Vec<u8>, ram: Ram, totals: Totals) -> Result<(), NoMemory>
    ensures { OnOk result (text.new.items ≡ text.old.items ++ line_of (total_row ram totals)) }
{
    let before = number_text(alloc, ram.before)?;
    let after = number_text(alloc, ram.after)?;
    let rom = sum_text(alloc, totals.rom)?;
    let code = sum_text(alloc, totals.code)?;
    let time = sum_text(alloc, totals.time)?;
    let coded = sum_text(alloc, totals.coded)?;
    put_row(
        alloc,
        text,
        Row {
            slot: b"total",
            class: before.as_slice(),
            values: after.as_slice(),
            bits: rom.as_slice(),
            coding: code.as_slice(),
            word: time.as_slice(),
            reason: coded.as_slice(),
        },
    )
}

/// The table of a plan for the slots of a program: `words` are the names of the plan's words, and `costs` is what coding each slot costs,
/// without the bytes of its table.
#[tactic(auto, using(crate::proofs::Lines::table_parts))]
pub fn table(
    alloc: Global,
    p: &Program,
    words: &[Name],
    slots: &[Slot],
    plan: &Plan,
    costs: &[Cost],
    ram: Ram,
) -> Result<Vec<u8>, NoMemory>
    requires { length slots.now ≤ 2 ^ 32 }
    ensures { IfOk result (λ text. text.items ≡ table_text p.now words.now slots.now plan.now costs.now ram) }
{
    let index = index_of(alloc, plan)?;
    let mut text = Vec::new(alloc);
    put_header(alloc, &mut text)?;
    put_slots(alloc, &mut text, p, words, plan, &index, slots)?;
    put_totals(alloc, &mut text, ram, totals_in(plan, &index, slots, costs))?;
    Ok(text)
}
