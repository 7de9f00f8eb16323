//! Bytes that are said, in memory and on the standard output.

use crate::contents::{contents, number, write_contents};
use crate::stores::write_end;
use cases_script::{Page, split};
use cc_edge::{MemorySink, OutSink, Sink, say_whole};
use std::alloc::Global;
use std::cell::Cell;
use std::fmt::Display;
use std::io;

/// An output that takes at most three bytes a call, and fails once its room is full.
#[derive(Drop)]
struct Narrow {
    room: Cell<usize>,
}

impl Print for Narrow {
    fn print<D: Display + Drop>(&self, _value: D) -> io::Result<()> {
        Ok(())
    }

    fn println<D: Display + Drop>(&self, _value: D) -> io::Result<()> {
        Ok(())
    }

    fn write_all(&self, _bytes: &[u8]) -> io::Result<()> {
        Ok(())
    }

    fn write_some(&self, bytes: &[u8]) -> io::Result<usize> {
        let room = self.room.get();
        if room == 0 {
            return Err(io::Error::from(io::ErrorKind::StorageFull));
        }
        let n = bytes.len().min(room).min(3);
        self.room.set(room - n);
        Ok(n)
    }
}

fn say<O: Sink>(alloc: Global, page: &mut Page, sink: &mut O, case: &str) {
    match contents(alloc, case) {
        Ok(bytes) => write_end(page, say_whole(sink, &bytes)),
        Err(_) => page.put(" no memory"),
    }
}

/// Writes what a case gives over a sink in memory.
pub fn over_memory(alloc: Global, page: &mut Page, sink: &mut MemorySink, case: &str) {
    match split(case) {
        ("fail", call) => {
            let end = sink.failing.push(number(call));
            page.put(if end.is_ok() { " done" } else { " no memory" });
        }
        ("say", case) => say(alloc, page, sink, case),
        _ => page.put(" unclear"),
    }
    page.put(", calls ");
    page.show(sink.calls);
    page.put(", faults ");
    page.show(sink.faults);
    page.put(", said ");
    write_contents(page, &sink.said);
}

/// Says bytes to an output of so much room.
fn say_narrowly(alloc: Global, page: &mut Page, case: &str) {
    let (room, case) = split(case);
    let output = Narrow {
        room: Cell::new(number(room) as usize),
    };
    let mut sink = OutSink::new(&output);
    say(alloc, page, &mut sink, case);
    page.put(", faults ");
    page.show(sink.faults);
    page.put(", room ");
    page.show(output.room.get());
}

/// Writes what a case gives over the standard output, or over one that is narrow.
pub fn over_output<R: Print + AllocGlobal>(rt: &R, page: &mut Page, faults: &mut u64, case: &str) {
    let mut sink = OutSink::new(rt);
    sink.faults = *faults;
    match split(case) {
        ("narrow", case) => return say_narrowly(rt.alloc(), page, case),
        ("say", case) => say(rt.alloc(), page, &mut sink, case),
        ("faults", count) => {
            sink.faults = number(count);
            page.put(" done");
        }
        _ => page.put(" unclear"),
    }
    *faults = sink.faults;
    page.put(", faults ");
    page.show(sink.faults);
}
