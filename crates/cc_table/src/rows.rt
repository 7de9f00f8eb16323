//! The rows of the table.

ghost use Rattle.std.specs.Prelude.{◌≡◌, ◌++◌, [], ◌∷◌, IfOk, map, codes};
ghost use Rattle.std.specs.Fmt.{decimal};
ghost use Rattle.csv.specs.Writing.{row_text, default_writer};
ghost use Rattle.cc_table.specs.Table.{header, total_row, table_text};

use cc_num::NoMemory;
use csv::WriterBuilder;
use std::alloc::Global;

/// The line of a row. The only error of a writer into memory is want of memory.
fn line(alloc: Global, fields: &[&[u8]]) -> Result<Vec<u8>, NoMemory>
    ensures { IfOk result (λ v. v.items ≡ row_text default_writer (map (λ f. f.now) fields.now)) }
{
    let mut writer = WriterBuilder::new().from_writer(Vec::new(alloc));
    match writer.write_fields(fields) {
        Err(_) => Err(NoMemory),
        Ok(()) => match writer.into_inner() {
            Err(_) => Err(NoMemory),
            Ok(text) => Ok(text),
        },
    }
}

/// The names of the columns.
fn header_line(alloc: Global) -> Result<Vec<u8>, NoMemory>
    ensures { IfOk result (λ v. v.items ≡ header) }
{
    line(
        alloc,
        &[
            b"slot".as_slice(),
            b"class".as_slice(),
            b"values".as_slice(),
            b"bits".as_slice(),
            b"coding".as_slice(),
            b"word".as_slice(),
            b"reason".as_slice(),
        ],
    )
}

/// The row of totals, of a program without slots.
fn total_line(alloc: Global, before: u64, after: u64) -> Result<Vec<u8>, NoMemory>
    ensures { IfOk result (λ v. v.items ≡ total_row before after) }
{
    let before = format!(in alloc; "{before}")?;
    let after = format!(in alloc; "{after}")?;
    line(
        alloc,
        &[
            b"total".as_slice(),
            before.as_bytes(),
            after.as_bytes(),
            b"0".as_slice(),
            b"0".as_slice(),
            b"0".as_slice(),
            b"0".as_slice(),
        ],
    )
}

/// The text of the table of a program without slots, whose RAM was `before` bytes and is `after` bytes.
pub fn table(alloc: Global, before: u64, after: u64) -> Result<Vec<u8>, NoMemory>
    ensures { IfOk result (λ v. v.items ≡ table_text before after) }
{
    let mut text = header_line(alloc)?;
    let total = total_line(alloc, before, after)?;
    text.extend_from_slice(&total)?;
    Ok(text)
}
