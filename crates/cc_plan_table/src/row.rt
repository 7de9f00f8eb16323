//! A row of the table.

ghost use Rattle.std.specs.Prelude.{◌≡◌, ◌++◌, OnOk};
ghost use Rattle.cc_plan_table.specs.Table.{fields_of, line_of};

use cc_program::num::NoMemory;
use cc_state_texts::put;
use csv::WriterBuilder;
use std::alloc::Global;

/// The bytes of RAM of a program, and of the same with coded slots.
#[derive(Clone, Copy)]
pub struct Ram {
    pub before: u64,
    pub after: u64,
}

/// The fields of a row.
#[derive(Clone, Copy)]
pub(crate) struct Row<'r> {
    pub slot: &'r [u8],
    pub class: &'r [u8],
    pub values: &'r [u8],
    pub bits: &'r [u8],
    pub coding: &'r [u8],
    pub word: &'r [u8],
    pub reason: &'r [u8],
}

/// Appends a row. The only error of a writer into memory is want of memory.
#[tactic(auto, unfolding(crate::specs::Table::line_of))]
pub(crate) fn put_row(alloc: Global, text: &mut Vec<u8>, row: Row) -> Result<(), NoMemory>
    ensures { OnOk result (text.new.items ≡ text.old.items ++ line_of (fields_of row.entry)) }
{
    let mut writer = WriterBuilder::new().from_writer(Vec::new(alloc));
    let fields = [
        row.slot, row.class, row.values, row.bits, row.coding, row.word, row.reason,
    ];
    if writer.write_fields(&fields).is_err() {
        return Err(NoMemory);
    }
    match writer.into_inner() {
        Err(_) => Err(NoMemory),
        Ok(line) => put(text, line.as_slice()),
    }
}
