//! Reading inputs.

ghost use Rattle.std.specs.Prelude.{◌≡◌, IfOk, IfErr, Some, map};
ghost use Rattle.csv.specs.Records.{fields_of};
ghost use Rattle.cc_rows.specs.Rows.{rows_of};
ghost use Rattle.cc_run.specs.Inputs.{input_in as input_in_row, line_of, input_of};
ghost use Rattle.cc_run.specs.Outcomes.{TellsRow, first_none};

use crate::fault::{RowFault, row_behind};
use cc_program::num::NoMemory;
use cc_rows::{FromRow, lines_of, signed_in};
use csv::ByteRecord;
use std::alloc::Global;

/// The input that a row gives, if it gives one.
#[derive(Drop)]
pub struct InputLine {
    pub input: Option<i128>,
}

/// The input of a row.
#[tactic(auto, using(crate::proofs::LineLemmas::of_inputs))]
fn input_in(row: &ByteRecord) -> Option<i128>
    ensures { result ≡ input_in_row (fields_of row.now) }
{
    match (row.get(0), row.get(1)) {
        (Some(field), None) => signed_in(field),
        _ => None,
    }
}

impl FromRow for InputLine {
    ghost said_by = { line_of };

    fn from_row(_alloc: Global, row: &ByteRecord) -> Result<InputLine, NoMemory> {
        Ok(InputLine {
            input: input_in(row),
        })
    }
}

/// The inputs of lines that each give one.
#[tactic(auto, using(crate::proofs::Coming::of_coming))]
fn inputs_in(alloc: Global, lines: &[InputLine]) -> Result<Vec<i128>, RowFault>
    ensures list { IfOk result (λ inputs. map Some inputs.items ≡ map input_of lines.now) }
    ensures fault { IfErr result (λ fault. TellsRow (first_none (map input_of lines.now)) fault) }
{
    let mut inputs = Vec::new(alloc);
    for line in lines {
        match line.input {
            None => return Err(RowFault::Row(row_behind(inputs.len()))),
            Some(input) => inputs.push(input)?,
        }
    }
    Ok(inputs)
}

/// What the devices give, in order: a text with a decimal number in each row, of 64 bits with a sign or without.
pub fn read_inputs(alloc: Global, text: &[u8]) -> Result<Vec<i128>, RowFault>
    // Each row gives an input, and these are they.
    ensures list { IfOk result (λ inputs. map Some inputs.items ≡ map input_in_row (rows_of text.now)) }

    // A row is told exactly where one gives none: the first one.
    ensures fault { IfErr result (λ fault. TellsRow (first_none (map input_in_row (rows_of text.now))) fault) }
{
    let lines: Vec<InputLine> = lines_of(alloc, text)?;
    inputs_in(alloc, lines.as_slice())
}
