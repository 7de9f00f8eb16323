//! Files that are written and read, in memory and on the disk.

use crate::contents::{contents, number, write_contents};
use cases_script::{Page, split};
use cc_edge::{DiskStore, MemoryStore, Put, Store, WriteFault, read_whole, write_whole};
use cc_program::num::List;
use std::alloc::{AllocError, Global};
use std::fs;
use std::rt::Files;

/// Writes whether bytes were written.
pub fn write_end(page: &mut Page, end: Result<(), WriteFault>) {
    match end {
        Ok(()) => page.put(" done"),
        Err(fault) => {
            page.put(" ");
            page.show(fault);
        }
    }
}

fn put<F: Store>(alloc: Global, page: &mut Page, store: &mut F, case: &str) {
    let (name, case) = split(case);
    match contents(alloc, case) {
        Ok(bytes) => write_end(page, write_whole(store, name, &bytes)),
        Err(_) => page.put(" no memory"),
    }
}

fn get<F: Store>(alloc: Global, page: &mut Page, store: &mut F, case: &str) {
    let (name, limit) = split(case);
    page.put(" ");
    match read_whole(alloc, store, name, number(limit).min(u64::MAX - 1)) {
        Ok(bytes) => write_contents(page, &bytes),
        Err(end) => page.show(end),
    }
}

/// Writes a file, or reads one.
fn over_files<F: Store>(alloc: Global, page: &mut Page, store: &mut F, case: &str) {
    match split(case) {
        ("write", case) => put(alloc, page, store, case),
        ("read", case) => get(alloc, page, store, case),
        _ => page.put(" unclear"),
    }
}

/// Adds a file, also where there is one of that name.
fn add(alloc: Global, store: &mut MemoryStore, case: &str) -> Result<(), AllocError> {
    let (name, case) = split(case);
    let name = List::of(Vec::from_slice(alloc, name.as_bytes())?);
    store.files.push((name, contents(alloc, case)?))?;
    Ok(())
}

/// Writes what a case gives over files in memory.
pub fn over_memory(alloc: Global, page: &mut Page, store: &mut MemoryStore, case: &str) {
    match split(case) {
        ("add", file) => {
            let end = add(alloc, store, file);
            page.put(if end.is_ok() { " done" } else { " no memory" });
        }
        ("fail", call) => {
            let end = store.failing.push(number(call));
            page.put(if end.is_ok() { " done" } else { " no memory" });
        }
        ("calls", count) => {
            store.calls = number(count);
            page.put(" done");
        }
        _ => over_files(alloc, page, store, case),
    }
    page.put(", calls ");
    page.show(store.calls);
    page.put(", faults ");
    page.show(store.faults);
}

fn append<R: Files>(alloc: Global, page: &mut Page, store: &mut DiskStore<'_, R>, case: &str) {
    let (name, case) = split(case);
    let Ok(bytes) = contents(alloc, case) else {
        return page.put(" no memory");
    };
    let failed = bytes.is_empty() || store.append(name, &bytes) == Put::Failed;
    page.put(if failed { " failed" } else { " done" });
}

/// Writes what a case gives over the files of the system.
pub fn over_disk<R: Files + AllocGlobal>(rt: &R, page: &mut Page, faults: &mut u64, case: &str) {
    let mut store = DiskStore::new(rt);
    store.faults = *faults;
    match split(case) {
        ("append", case) => append(rt.alloc(), page, &mut store, case),
        ("faults", count) => {
            store.faults = number(count);
            page.put(" done");
        }
        ("remove", name) => {
            let end = fs::remove_file(rt, name);
            page.put(if end.is_ok() { " done" } else { " failed" });
        }
        _ => over_files(rt.alloc(), page, &mut store, case),
    }
    *faults = store.faults;
    page.put(", faults ");
    page.show(store.faults);
}
