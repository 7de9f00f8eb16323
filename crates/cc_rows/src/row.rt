//! The rows of a text.

ghost use Rattle.std.specs.Prelude.{◌≡◌, ◌≤◌, true, IfOk, length, map};
ghost use Rattle.csv.specs.Reading.{stops_reader};
ghost use Rattle.csv.specs.Records.{fields_of};
ghost use Rattle.cc_rows.specs.Rows.{Row, rows_of};

use cc_num::NoMemory;
use csv::{ByteRecord, ErrorKind, ReaderBuilder};
use std::alloc::Global;

/// What is read of a row by itself.
pub trait FromRow: Drop {
    /// What a row says.
    ghost said_by: { Row → Self };

    /// What a row says.
    fn from_row(alloc: Global, row: &ByteRecord) -> Result<Self, NoMemory>
        ensures { IfOk result (λ line. line ≡ said_by (fields_of row.now)) };
}

/// The end of a reading that stopped for want of memory or because its source failed, which a text in memory never does.
/// Rows of unequal lengths, and fields that are no text or no value, are no such end.
fn want_of_memory(kind: ErrorKind) -> NoMemory
    requires { stops_reader kind ≡ true }
{
    match kind {
        ErrorKind::OutOfMemory | ErrorKind::Io(_) => NoMemory,
        ErrorKind::UnequalLengths { .. }
        | ErrorKind::Utf8 { .. }
        | ErrorKind::Serialize(_)
        | ErrorKind::Deserialize { .. } => unreachable!(),
    }
}

/// What the rows of a text say, row by row. A text has no more rows than bytes.
pub fn lines_of<R: FromRow>(alloc: Global, text: &[u8]) -> Result<Vec<R>, NoMemory>
    ensures lines { IfOk result (λ lines. lines.items ≡ map R.said_by (rows_of text.now)) }
    ensures few { IfOk result (λ lines. length lines.items ≤ length text.now) }
{
    let mut reader = ReaderBuilder::new()
        .has_headers(false)
        .flexible(true)
        .from_reader(alloc, text);
    let mut lines = Vec::new(alloc);
    for row in reader.byte_records() {
        match row {
            Err(error) => return Err(want_of_memory(error.into_kind())),
            Ok(row) => lines.push(R::from_row(alloc, &row)?)?,
        }
    }
    Ok(lines)
}
