//! Runs of the program of a case: `STEPS | INPUTS | ARRIVALS | PROFILE`, where the rows of each file are parted by blanks.

use crate::case::Case;
use cc_edge::{MemorySink, MemoryStore, WriteFault, write_whole};
use ccomp::{Status, ccomp, number};
use std::alloc::{AllocError, Global};
use std::io::{self, Write};

/// What a line asks for.
#[derive(Clone, Copy)]
struct Asked<'a> {
    steps: &'a str,
    inputs: &'a str,
    arrivals: &'a str,
    profile: &'a str,
}

/// What stands in front of the first bar, and what stands behind it.
fn part(text: &str) -> (&str, &str) {
    text.split_once('|').unwrap_or((text, ""))
}

impl<'a> Asked<'a> {
    fn of(line: &'a str) -> Asked<'a> {
        let (steps, rest) = part(line);
        let (inputs, rest) = part(rest);
        let (arrivals, profile) = part(rest);
        Asked {
            steps: steps.trim(),
            inputs,
            arrivals,
            profile: profile.trim(),
        }
    }

    /// The words of the command.
    fn words(self, alloc: Global, case: &Case) -> Result<Vec<String>, AllocError> {
        let mut words = Vec::new(alloc);
        let profile = if self.profile.is_empty() {
            "-"
        } else {
            "profile"
        };
        for word in ["run", profile, "inputs", "arrivals", self.steps] {
            words.push(word.to_string(alloc)?)?;
        }
        case.put_names(alloc, &mut words)?;
        Ok(words)
    }
}

/// Writes a file with a row for each word.
fn put_rows(
    alloc: Global,
    store: &mut MemoryStore,
    name: &str,
    words: &str,
) -> Result<(), WriteFault> {
    let Ok(text) = rows(alloc, words) else {
        return Err(WriteFault);
    };
    write_whole(store, name, &text)
}

/// A text with a row for each word.
fn rows(alloc: Global, words: &str) -> Result<Vec<u8>, AllocError> {
    let mut text = Vec::new(alloc);
    for word in words.split_whitespace() {
        text.extend_from_slice(word.as_bytes())?;
        text.push(b'\n')?;
    }
    Ok(text)
}

/// The files of the case and those of the line.
fn store_of(alloc: Global, case: &Case, asked: Asked<'_>) -> Result<MemoryStore, WriteFault> {
    let mut store = case.store(alloc)?;
    put_rows(alloc, &mut store, "inputs", asked.inputs)?;
    put_rows(alloc, &mut store, "arrivals", asked.arrivals)?;
    put_rows(alloc, &mut store, "profile", asked.profile)?;
    Ok(store)
}

/// The rows that were said, a blank between them, with a line feed at the end.
fn in_a_line(alloc: Global, said: &[u8]) -> Result<Vec<u8>, AllocError> {
    let mut text = Vec::new(alloc);
    for byte in said {
        text.push(if *byte == b'\n' { b' ' } else { *byte })?;
    }
    text.pop();
    text.push(b'\n')?;
    Ok(text)
}

/// Runs the program of a case, and prints the rows of its trace, or how the command ended.
pub fn run(rt: &(impl Print + AllocGlobal), case: &Case, line: &str) -> io::Result<()> {
    let alloc = rt.alloc();
    let asked = Asked::of(line);
    let Ok(mut store) = store_of(alloc, case, asked) else {
        return println!(rt; "no store");
    };
    let words = asked.words(alloc, case)?;
    let mut sink = MemorySink::new(alloc);
    let status = ccomp(alloc, &words, &mut store, &mut sink);
    let front = format!(in alloc; "trace {line} => ")?;
    io::writer(rt).write_all(front.as_bytes())?;
    match status {
        Status::Done => io::writer(rt).write_all(&in_a_line(alloc, &sink.said)?),
        status => println!(rt; "status {}", number(&status)),
    }
}
