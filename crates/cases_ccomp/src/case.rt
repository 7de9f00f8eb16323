//! A case: what the command is run over, and how it ended.

use cc_edge::{MemorySink, MemoryStore, WriteFault, read_whole, write_whole};
use ccomp::{ccomp, explain, number};
use std::alloc::{AllocError, Global};
use std::io::{self, Write};

/// The name of the source, where none is given.
const SOURCE: &str = "s.c";

/// The name of the output.
const OUTPUT: &str = "o.c";

/// The most bytes of a file that is printed.
const FILE_LIMIT: u64 = 1 << 20;

/// A file that is there when the command begins.
#[derive(Drop)]
struct File {
    name: String,
    text: Vec<u8>,
}

impl File {
    fn new(alloc: Global, name: &str) -> Result<File, AllocError> {
        Ok(File {
            name: name.to_string(alloc)?,
            text: Vec::new(alloc),
        })
    }
}

/// What the command is run over.
#[derive(Drop)]
pub struct Case {
    /// The files, each of which has a name of its own.
    files: Vec<File>,
    /// The numbers of the store's calls that are to fail.
    failing: Vec<u64>,
    /// The numbers of the sink's calls that are to fail.
    deaf: Vec<u64>,
}

impl Case {
    pub fn new(alloc: Global) -> Case {
        Case {
            files: Vec::new(alloc),
            failing: Vec::new(alloc),
            deaf: Vec::new(alloc),
        }
    }

    /// Begins a file.
    fn begin(&mut self, alloc: Global, name: &str) -> Result<(), AllocError> {
        let file = File::new(alloc, name)?;
        self.files.push(file)?;
        Ok(())
    }

    /// Puts a text behind the last file, so many times.
    fn put(&mut self, alloc: Global, text: &str, times: u32) -> Result<(), AllocError> {
        let mut file = match self.files.pop() {
            None => File::new(alloc, SOURCE)?,
            Some(file) => file,
        };
        for _ in 0..times {
            file.text.extend_from_slice(text.as_bytes())?;
        }
        self.files.push(file)?;
        Ok(())
    }

    /// Does what a line says that neither begins a case nor runs one; false where it says nothing.
    pub fn set(&mut self, alloc: Global, word: &str, rest: &str) -> Result<bool, AllocError> {
        match (word, quoted(rest), first_number(rest)) {
            ("file", None, None) => self.begin(alloc, rest)?,
            ("text", Some(text), _) => self.put(alloc, text, 1)?,
            ("line", Some(text), _) => {
                self.put(alloc, text, 1)?;
                self.put(alloc, "\n", 1)?;
            }
            ("times", Some(text), Some(times)) => self.put(alloc, text, times)?,
            ("failing", None, Some(call)) => self.failing.push(u64::from(call))?,
            ("deaf", None, Some(call)) => self.deaf.push(u64::from(call))?,
            _ => return Ok(false),
        }
        Ok(true)
    }

    /// Puts the names of the files behind words.
    pub fn put_names(&self, alloc: Global, words: &mut Vec<String>) -> Result<(), AllocError> {
        for file in &self.files {
            words.push(file.name.to_string(alloc)?)?;
        }
        Ok(())
    }

    /// The store, of which no call was made yet.
    pub fn store(&self, alloc: Global) -> Result<MemoryStore, WriteFault> {
        let mut store = MemoryStore::new(alloc);
        for file in &self.files {
            write_whole(&mut store, file.name.as_str(), &file.text)?;
        }
        store.calls = 0;
        if store.failing.extend_from_slice(&self.failing).is_err() {
            return Err(WriteFault);
        }
        Ok(store)
    }

    /// Does what the words say, and prints how it ended.
    pub fn run(&self, rt: &(impl Print + AllocGlobal), words: &str) -> io::Result<()> {
        let alloc = rt.alloc();
        let Ok(mut store) = self.store(alloc) else {
            return println!(rt; "no store");
        };
        let words = split(alloc, words)?;
        let mut sink = MemorySink::new(alloc);
        sink.failing.extend_from_slice(&self.deaf)?;
        let status = ccomp(alloc, &words, &mut store, &mut sink);
        println!(rt; "status {}", number(&status))?;
        if let Ok(line) = explain(alloc, &status) {
            io::writer(rt).write_all(&line)?;
        }
        println!(rt; "calls {} faults {}", store.calls, store.faults)?;
        print_said(rt, &sink)?;
        store.failing.clear();
        match read_whole(alloc, &mut store, OUTPUT, FILE_LIMIT) {
            Ok(text) => {
                println!(rt; "output")?;
                io::writer(rt).write_all(&text)?;
            }
            Err(_) => println!(rt; "no output")?,
        }
        let Some(table) = table(&words) else {
            return Ok(());
        };
        match read_whole(alloc, &mut store, table, FILE_LIMIT) {
            Ok(text) => {
                println!(rt; "table")?;
                io::writer(rt).write_all(&text)
            }
            Err(_) => println!(rt; "no table"),
        }
    }
}

/// The table, where the words of `pack` name one.
fn table(words: &[String]) -> Option<&str> {
    match words {
        [command, _, _, table, _, _, ..] => match (command.as_str(), table.as_str()) {
            ("pack", "-") => None,
            ("pack", name) => Some(name),
            _ => None,
        },
        _ => None,
    }
}

/// Prints what was said, where there was something to say, and ends its last line.
fn print_said(rt: &(impl Print + AllocGlobal), sink: &MemorySink) -> io::Result<()> {
    if sink.calls == 0 {
        return Ok(());
    }
    println!(rt; "said, with {} faults", sink.faults)?;
    io::writer(rt).write_all(&sink.said)?;
    match sink.said.last() {
        None | Some(b'\n') => Ok(()),
        Some(_) => println!(rt; ""),
    }
}

/// What stands between the first quote and the last.
fn quoted(line: &str) -> Option<&str> {
    let (_, rest) = line.split_once('"')?;
    let (text, _) = rest.rsplit_once('"')?;
    Some(text)
}

/// The number with which the line begins.
fn first_number(line: &str) -> Option<u32> {
    line.split_whitespace().next()?.parse::<u32>().ok()
}

/// The words of a line.
fn split(alloc: Global, line: &str) -> Result<Vec<String>, AllocError> {
    let mut words = Vec::new(alloc);
    for word in line.split_whitespace() {
        words.push(word.to_string(alloc)?)?;
    }
    Ok(words)
}
