//! Reads a script of cases for cc_num, cc_lex, cc_edge, cc_bins, cc_make and cc_flow, and prints it with what each case
//! gives.
//!
//! The settings, and what the cases behind them may be:
//!
//!     $ tokens                    a text
//!     $ int 2                     `values of Int`, `200 to SChar`, `1 + 2 in Int`, `- 1 in Int`, `promoted Short`,
//!                                 `Short with Long`, `bits for 33`, at a target whose `int` has 2 bytes, or 4
//!     $ lists and boxes           `list \x05\x06`, `box 8`
//!     $ errors                    the name of an error
//!     $ a store in memory         `write NAME BYTES`, `read NAME LIMIT`, `add NAME BYTES`, `fail CALL`, `calls COUNT`
//!     $ the store of the system   `write NAME BYTES`, `read NAME LIMIT`, `append NAME BYTES`, `remove NAME`, `faults COUNT`
//!     $ a sink in memory          `say BYTES`, `fail CALL`
//!     $ the standard output       `say BYTES`, `faults COUNT`, `narrow ROOM BYTES`
//!     $ place                     slots `SLOT:BITS/BYTES` of the group 0, or of the one that `@GROUP` before them names;
//!                                 what is printed is the words, `GROUP:BITS`, and the fields, `SLOT@WORD.SHIFT`
//!     $ many                      `COUNT BITS THEN`: so many slots of 2 bytes, the first half of BITS bits and the others
//!                                 of THEN; what is printed is how many words and fields there are, and the last of each
//!     $ make                      `SEED COUNT`
//!     $ points                    the functions of a program with `|` between them, as words of `flow/words.rt`; what is
//!                                 printed is each point, `NUMBER=FUNCTION:PATH>NEXT`, and the entries
//!     $ nests                     `COUNT DEPTH`: a function of so many statements, of which each DEPTH stand in one
//!                                 another; what is printed is how many points there are, and the last two of them
//!
//! Where bytes are asked for, `text` and a text stands, or `bytes` and how many.
#![tactic(auto)]

mod contents;
mod flow;
mod holders;
mod many;
mod numbers;
mod placings;
mod sinks;
mod sources;
mod stores;
mod tokens;
mod wants;

use cases_script::{Line, Page, line_of};
use cc_edge::{MemorySink, MemoryStore, ReadEnd, WriteFault};
use cc_lex::{spellings_are_longest, texts_have_tokens_or_a_fault};
use cc_program::num::Target;
use std::alloc::Global;
use std::io;

/// Calls that are worked on what a case holds alone.
#[derive(Clone, Copy)]
enum Call {
    Placings,
    Many,
    Sources,
    Points,
    Nests,
}

/// What the cases of a section are about.
#[derive(Drop)]
enum Subject {
    Nothing,
    Call(Call),
    Tokens,
    Numbers(Target),
    Holders,
    Memory(MemoryStore),
    /// The files of the system, with the count of faults so far.
    Disk(u64),
    Sink(MemorySink),
    /// The standard output, with the count of faults so far.
    Output(u64),
    Errors,
}

fn call_of(setting: &str) -> Option<Call> {
    match setting {
        "place" => Some(Call::Placings),
        "many" => Some(Call::Many),
        "make" => Some(Call::Sources),
        "points" => Some(Call::Points),
        "nests" => Some(Call::Nests),
        _ => None,
    }
}

/// What a setting says that the cases behind it are about.
fn subject_of(alloc: Global, setting: &str) -> Subject {
    if let Some(call) = call_of(setting) {
        return Subject::Call(call);
    }
    match setting {
        "tokens" => Subject::Tokens,
        "lists and boxes" => Subject::Holders,
        "a store in memory" => Subject::Memory(MemoryStore::new(alloc)),
        "the store of the system" => Subject::Disk(0),
        "a sink in memory" => Subject::Sink(MemorySink::new(alloc)),
        "the standard output" => Subject::Output(0),
        "errors" => Subject::Errors,
        _ => match setting.strip_prefix("int ").and_then(numbers::target_of) {
            Some(target) => Subject::Numbers(target),
            None => Subject::Nothing,
        },
    }
}

/// Writes what a call gives of a case.
fn write_call(alloc: Global, page: &mut Page, call: Call, case: &str) {
    page.put(" ");
    match call {
        Call::Placings => placings::write_outcome(alloc, page, case),
        Call::Many => many::write_outcome(alloc, page, case),
        Call::Sources => sources::write_outcome(alloc, page, case),
        Call::Points => flow::write_points(alloc, page, case),
        Call::Nests => flow::write_nests(alloc, page, case),
    }
}

/// Writes the text of an error.
fn write_error(page: &mut Page, error: &str) {
    page.put(" ");
    match error {
        "ReadFault" => page.show(ReadEnd::ReadFault),
        "TooLong" => page.show(ReadEnd::TooLong),
        "NoMemory" => page.show(ReadEnd::NoMemory),
        "WriteFault" => page.show(WriteFault),
        _ => page.put("unclear"),
    }
}

/// Writes what a case gives.
fn write_outcome(rt: &HostRuntime, page: &mut Page, subject: &mut Subject, case: &str) {
    let alloc = rt.alloc();
    match subject {
        Subject::Nothing => page.put(" unclear"),
        Subject::Call(call) => write_call(alloc, page, *call, case),
        Subject::Tokens => tokens::write_outcome(alloc, page, case),
        Subject::Numbers(target) => numbers::write_outcome(alloc, page, target, case),
        Subject::Holders => holders::write_outcome(alloc, page, case),
        Subject::Memory(store) => stores::over_memory(alloc, page, store, case),
        Subject::Disk(faults) => stores::over_disk(rt, page, faults, case),
        Subject::Sink(sink) => sinks::over_memory(alloc, page, sink, case),
        Subject::Output(faults) => sinks::over_output(rt, page, faults, case),
        Subject::Errors => write_error(page, case),
    }
}

fn main(rt: HostRuntime) -> io::Result<()> {
    let alloc = rt.alloc();
    cc_program::num::laws();
    spellings_are_longest();
    texts_have_tokens_or_a_fault();
    cc_bins::laws();
    cc_make::laws();
    cc_flow::laws();
    let mut subject = Subject::Nothing;
    let mut count: u64 = 0;
    for line in rt.lines(alloc) {
        let line = line?;
        let line = line.as_str();
        let mut page = Page::new(alloc);
        match line_of(line) {
            Line::Blank => {}
            Line::Title => subject = Subject::Nothing,
            Line::Setting(setting) => subject = subject_of(alloc, setting),
            Line::Case => {
                page.put(" =>");
                write_outcome(&rt, &mut page, &mut subject, line);
                count = count.saturating_add(1);
            }
        }
        let outcome = page.finish()?;
        println!(rt; "{line}{outcome}")?;
    }
    println!(rt; "cases: {count}")
}
