//! What a row says.

ghost use Rattle.std.specs.Prelude.{◌≡◌, IfOk};
ghost use Rattle.csv.specs.Records.{fields_of};
ghost use Rattle.cc_cost.specs.Settings.{line_of as line_of_row, says as says_fields};

use crate::key::{Key, key_of};
use crate::setting::{Line, Setting};
use cc_program::num::{List, NoMemory};
use cc_rows::FromRow;
use csv::ByteRecord;
use std::alloc::Global;

/// What a row of three fields says.
fn says(alloc: Global, key: Option<Key>, second: &[u8], third: &[u8]) -> Result<Line, NoMemory>
    ensures { IfOk result (λ line. line ≡ says_fields key second.now third.now) }
{
    let Some(key) = key else {
        return Ok(Line::Breaks(2));
    };
    let second = List::of(Vec::from_slice(alloc, second)?);
    let third = List::of(Vec::from_slice(alloc, third)?);
    Ok(Line::Says(Setting { key, second, third }))
}

/// What a row says, or why it says nothing.
#[tactic(auto, using(crate::proofs::RowLemmas::of_lines))]
fn line_of(alloc: Global, row: &ByteRecord) -> Result<Line, NoMemory>
    ensures { IfOk result (λ line. line ≡ line_of_row (fields_of row.now)) }
{
    match (row.get(0), row.get(1), row.get(2), row.get(3)) {
        (Some(key), Some(second), Some(third), None) => says(alloc, key_of(key), second, third),
        _ => Ok(Line::Breaks(1)),
    }
}

impl FromRow for Line {
    ghost said_by = { line_of_row };

    fn from_row(alloc: Global, row: &ByteRecord) -> Result<Line, NoMemory> {
        line_of(alloc, row)
    }
}
