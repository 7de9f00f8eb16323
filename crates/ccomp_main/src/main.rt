//! CComp: rewrites a microcontroller's C program so that its globals take less RAM.
#![tactic(auto)]

use cc_edge::{DiskStore, OutSink};
use ccomp::{ccomp, explain, number};
use std::env;
use std::io::{self, Write};
use std::process::ExitCode;

/// The number with which the program ends where the system gives it no words.
const NO_WORDS: u8 = 16;

/// The words without the program's name.
fn words(rt: &HostRuntime) -> io::Result<Vec<String>> {
    let mut words = Vec::new(rt.alloc());
    for word in env::args(rt)?.skip(1) {
        words.push(word)?;
    }
    Ok(words)
}

fn main(rt: HostRuntime) -> ExitCode {
    let alloc = rt.alloc();
    let Ok(words) = words(&rt) else {
        let _ = rt.stderr().write_all(b"ccomp: no words\n");
        return ExitCode::from(NO_WORDS);
    };
    let mut store = DiskStore::new(&rt);
    let mut sink = OutSink::new(&rt);
    let status = ccomp(alloc, &words, &mut store, &mut sink);
    if let Ok(line) = explain(alloc, &status) {
        let _ = rt.stderr().write_all(&line);
    }
    ExitCode::from(number(&status))
}
