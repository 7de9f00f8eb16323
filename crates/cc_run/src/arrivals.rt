//! Reading arrivals.

ghost use Rattle.std.specs.Prelude.{◌≡◌, ◌∷◌, [], IfOk, IfErr, Some, map, ◌&&◌, true};
ghost use Rattle.std.specs.Str.{bytes_eq};
ghost use Rattle.csv.specs.Records.{fields_of};
ghost use Rattle.cc_states.specs.CcSyntax.Operators.{is_handler};
ghost use Rattle.cc_rows.specs.Rows.{rows_of};
ghost use Rattle.cc_run.specs.Arrivals.{written_in as written_in_row, line_of, written_of, id_of as id_of_place, handler_from, handler_named as handler_named_in, arrival_of as arrival_of_line, arrivals_from};
ghost use Rattle.cc_run.specs.Driven.{turns_ascend};
ghost use Rattle.cc_run.specs.Outcomes.{TellsRow, first_none};

use crate::fault::{RowFault, row_behind};
use cc_program::num::{List, Name, NoMemory};
use cc_program::{Func, Program};
use cc_rows::{FromRow, lines_of, number_in};
use csv::ByteRecord;
use std::alloc::Global;

/// The turn and the name that a row writes.
#[derive(Drop)]
pub struct Written {
    pub turn: u32,
    pub name: Name,
}

/// What a row writes, if it is of the form.
#[derive(Drop)]
pub struct ArrivalLine {
    pub written: Option<Written>,
}

/// What the fields of a row write.
fn fields_written(alloc: Global, turn: &[u8], name: &[u8]) -> Result<Option<Written>, NoMemory>
    ensures { IfOk result (λ w. w ≡ written_in_row (turn.now ∷ name.now ∷ [])) }
{
    match number_in(1, 0xffff_ffff, turn) {
        None => Ok(None),
        Some(turn) => Ok(Some(Written {
            turn: turn as u32,
            name: List::of(Vec::from_slice(alloc, name)?),
        })),
    }
}

/// What a row writes.
#[tactic(auto, using(crate::proofs::LineLemmas::of_arrivals))]
fn written_in(alloc: Global, row: &ByteRecord) -> Result<Option<Written>, NoMemory>
    ensures { IfOk result (λ w. w ≡ written_in_row (fields_of row.now)) }
{
    match (row.get(0), row.get(1), row.get(2)) {
        (Some(turn), Some(name), None) => fields_written(alloc, turn, name),
        _ => Ok(None),
    }
}

impl FromRow for ArrivalLine {
    ghost said_by = { line_of };

    fn from_row(alloc: Global, row: &ByteRecord) -> Result<ArrivalLine, NoMemory> {
        Ok(ArrivalLine {
            written: written_in(alloc, row)?,
        })
    }
}

/// The id of the function that stands at a place.
fn id_of(place: usize) -> Option<u32>
    ensures { result ≡ id_of_place (Some place) }
{
    if place <= 0xffff_ffff {
        Some(place as u32)
    } else {
        None
    }
}

/// Whether a function is the handler of a name.
fn is_handler_of(f: &Func, name: &[u8]) -> bool
    ensures { result ≡ (is_handler f.now && bytes_eq name.now f.now.name) }
{
    f.entry.is_some() && name == f.name.all()
}

/// The id of the handler of a name.
#[tactic(auto, using(crate::proofs::HandlerLemmas::of_handlers))]
fn handler_named(funcs: &[Func], name: &[u8]) -> Option<u32>
    ensures { result ≡ handler_named_in funcs.now name.now }
{
    for (place, f) in funcs.iter().enumerate() {
        if is_handler_of(f, name) {
            return id_of(place);
        }
    }
    None
}

/// The turn and the handler that a line gives behind a turn.
fn arrival_of(funcs: &[Func], last: u32, written: &Option<Written>) -> Option<(u32, u32)>
    ensures { result ≡ arrival_of_line funcs.now last written.now }
{
    match written {
        None => None,
        Some(written) => {
            if written.turn <= last {
                return None;
            }
            match handler_named(funcs, written.name.all()) {
                None => None,
                Some(handler) => Some((written.turn, handler)),
            }
        }
    }
}

/// The arrivals of lines that each give one.
#[tactic(auto, using(crate::proofs::Coming::of_coming))]
fn arrivals_in(
    alloc: Global,
    funcs: &[Func],
    lines: &[ArrivalLine],
) -> Result<Vec<(u32, u32)>, RowFault>
    ensures list { IfOk result (λ arrivals. map Some arrivals.items ≡ arrivals_from funcs.now 0 (map written_of lines.now)) }
    ensures fault { IfErr result (λ fault. TellsRow (first_none (arrivals_from funcs.now 0 (map written_of lines.now))) fault) }
{
    let mut arrivals = Vec::new(alloc);
    let mut last = 0;
    for line in lines {
        match arrival_of(funcs, last, &line.written) {
            None => return Err(RowFault::Row(row_behind(arrivals.len()))),
            Some(arrival) => {
                last = arrival.0;
                arrivals.push(arrival)?;
            }
        }
    }
    Ok(arrivals)
}

/// The turns at which handlers of a program arrive, with the handler's id: a text with a turn from 1 to 4,294,967,295,
/// greater than that of the row before, and the name of a handler in each row.
#[tactic(auto, using(crate::proofs::AscendLemmas::of_ascending))]
pub fn read_arrivals(alloc: Global, p: &Program, text: &[u8]) -> Result<Vec<(u32, u32)>, RowFault>
    // Each row gives an arrival behind those before it, and these are they.
    ensures list { IfOk result (λ arrivals. map Some arrivals.items ≡ arrivals_from p.now.funcs 0 (map written_in_row (rows_of text.now))) }

    // Each has a later turn than the one before it.
    ensures ascend { IfOk result (λ arrivals. turns_ascend 0 arrivals.items ≡ true) }

    // A row is told exactly where one gives none: the first one.
    ensures fault { IfErr result (λ fault. TellsRow (first_none (arrivals_from p.now.funcs 0 (map written_in_row (rows_of text.now)))) fault) }
{
    let lines: Vec<ArrivalLine> = lines_of(alloc, text)?;
    arrivals_in(alloc, p.funcs.all(), lines.as_slice())
}
