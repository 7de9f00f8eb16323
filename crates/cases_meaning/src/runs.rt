//! What a case asks of a run, and the run.

ghost use Rattle.std.specs.Prelude.{◌≡◌};
ghost use Rattle.cc_states.specs.CcSyntax.Sound.{IsSound};

use crate::states::write_state;
use cases_script::Page;
use cc_meaning::{End, start};
use cc_run::{drive, read_arrivals, read_inputs};
use cc_sound::is_sound;
use cc_states::syntax::Program;
use std::alloc::Global;

/// What stands between the bars of a case: the rows of inputs and of arrivals are parted by blanks.
#[derive(Clone, Copy)]
pub struct Script<'a> {
    pub words: &'a str,
    inputs: &'a str,
    arrivals: &'a str,
    /// How many turns are made at the most.
    most: u32,
}

/// What stands in front of the first bar, and what stands behind it.
fn part(text: &str) -> (&str, &str) {
    text.split_once('|').unwrap_or((text, ""))
}

fn most(text: &str) -> Option<u32> {
    let text = text.trim();
    if text.is_empty() {
        Some(1000)
    } else {
        text.parse().ok()
    }
}

impl<'a> Script<'a> {
    /// What a case says.
    pub fn of(case: &'a str) -> Option<Script<'a>> {
        let (words, rest) = part(case);
        let (inputs, rest) = part(rest);
        let (arrivals, rest) = part(rest);
        Some(Script {
            words,
            inputs,
            arrivals,
            most: most(rest)?,
        })
    }
}

/// The text of a file with a row for each word.
fn rows(alloc: Global, words: &str) -> Option<Vec<u8>> {
    let mut text = Vec::new(alloc);
    for word in words.split_whitespace() {
        text.extend_from_slice(word.as_bytes()).ok()?;
        text.push(b'\n').ok()?;
    }
    Some(text)
}

/// The text of the trace of a program after the turns of a script.
fn trace(alloc: Global, p: &Program, script: Script) -> Option<Vec<u8>>
    requires { IsSound p.now }
{
    let inputs = read_inputs(alloc, &rows(alloc, script.inputs)?).ok()?;
    let arrivals = read_arrivals(alloc, p, &rows(alloc, script.arrivals)?).ok()?;
    drive(alloc, p, inputs, &arrivals, script.most).ok()
}

/// Who arrives at a turn.
fn arrival_at(arrivals: &[(u32, u32)], turn: u32) -> Option<u32> {
    for (at, handler) in arrivals {
        if *at == turn {
            return Some(*handler);
        }
    }
    None
}

/// How many turns a run makes up to its end, of those of a script.
fn turns_made(alloc: Global, p: &Program, script: Script) -> Option<u32>
    requires { IsSound p.now }
{
    let inputs = read_inputs(alloc, &rows(alloc, script.inputs)?).ok()?;
    let arrivals = read_arrivals(alloc, p, &rows(alloc, script.arrivals)?).ok()?;
    let mut m = start(alloc, p, inputs).ok()?;
    let mut turns = 0;
    while turns < script.most && m.end() == End::Going && m.opened() < u64::MAX {
        turns += 1;
        m.step(alloc, arrival_at(&arrivals, turns)).ok()?;
    }
    Some(turns)
}

/// Writes the states of a run before its first turn and behind each of those of a script, up to its end.
fn write_turns(alloc: Global, page: &mut Page, p: &Program, script: Script) -> Option<()>
    requires { IsSound p.now }
{
    let inputs = read_inputs(alloc, &rows(alloc, script.inputs)?).ok()?;
    let arrivals = read_arrivals(alloc, p, &rows(alloc, script.arrivals)?).ok()?;
    let mut m = start(alloc, p, inputs).ok()?;
    write_state(alloc, page, &m)?;
    let mut turns = 0;
    while turns < script.most && m.end() == End::Going && m.opened() < u64::MAX {
        turns += 1;
        m.step(alloc, arrival_at(&arrivals, turns)).ok()?;
        page.put(" ");
        write_state(alloc, page, &m)?;
    }
    Some(())
}

/// The rows of a trace, each with a blank behind it.
fn put_trace(page: &mut Page, text: &[u8]) {
    for byte in text {
        if *byte == b'\n' {
            page.put(" ");
        } else {
            page.bytes(&[*byte]);
        }
    }
}

/// Writes the trace of a program, and how many turns it took if they are counted.
pub fn write_run(
    alloc: Global,
    page: &mut Page,
    p: &Program,
    script: Script,
    is_counted: bool,
) -> Option<()> {
    if !is_sound(p) {
        page.put("not sound");
        return Some(());
    }
    put_trace(page, &trace(alloc, p, script)?);
    if is_counted {
        page.show(turns_made(alloc, p, script)?);
    }
    Some(())
}

/// Writes the states of a run.
pub fn write_states(alloc: Global, page: &mut Page, p: &Program, script: Script) -> Option<()> {
    if !is_sound(p) {
        page.put("not sound");
        return Some(());
    }
    write_turns(alloc, page, p, script)
}
