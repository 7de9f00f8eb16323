//! Reads a script of texts of C, and prints each case with the program that the texts are, or why they are none.
//!
//! A case is the texts, as a case writes bytes, with ` <> ` between them. In front of them may stand the names of handlers
//! that the roles have, in brackets. `written.rt` says how a program and a refusal are written.
//!
//! Behind `$ unit` a case is one text, and what is printed is its typed unit, or the rule that it breaks; `units.rt` says
//! more. Further settings are rows of a profile, for its target: `$ int,4,` makes `int` four bytes wide.
#![tactic(auto)]

mod spoken;
mod texts;
mod units;
mod written;

use cases_script::{Line, Page, line_of};
use cc_discard::discard_program;
use cc_read::read;
use std::alloc::Global;
use std::io;
use texts::{profile_of, texts_of};
use written::{write_program, write_refusal};

/// What the cases of a section are.
#[derive(Drop)]
enum Section {
    Programs,
    /// Translation units, with the rows of a profile.
    Units(String),
}

impl Section {
    /// The section behind a further setting.
    fn behind(self, alloc: Global, setting: &str) -> io::Result<Section> {
        match self {
            Section::Programs => Ok(Section::Units(String::new(alloc))),
            Section::Units(mut rows) => {
                rows.push_str(setting)?;
                rows.push_str("\n")?;
                Ok(Section::Units(rows))
            }
        }
    }
}

/// The handlers that stand in brackets, and the texts behind them.
fn parts(case: &str) -> (&str, &str) {
    match case.strip_prefix("[") {
        None => ("", case),
        Some(rest) => rest.split_once("] ").unwrap_or(("", case)),
    }
}

/// Writes the program that texts are, or why they are none.
fn write_read(alloc: Global, page: &mut Page, case: &str) -> Option<()> {
    let (handlers, case) = parts(case);
    let profile = profile_of(alloc, handlers)?;
    let texts = texts_of(alloc, case)?;
    match read(alloc, texts.as_slice(), &profile.target, &profile.roles) {
        Ok(p) => {
            let written = write_program(alloc, page, &p);
            discard_program(p);
            written
        }
        Err(refusal) => {
            write_refusal(page, &refusal);
            Some(())
        }
    }
}

/// Writes what a case gives.
fn write_outcome(alloc: Global, page: &mut Page, section: &Section, case: &str) {
    match section {
        Section::Units(rows) => units::write_outcome(alloc, page, rows.as_str(), case),
        Section::Programs => {
            if write_read(alloc, page, case).is_none() {
                page.put("unclear");
            }
        }
    }
}

fn main(rt: HostRuntime) -> io::Result<()> {
    cc_read::laws();
    let alloc = rt.alloc();
    let mut section = Section::Programs;
    let mut count: u64 = 0;
    for line in rt.lines(alloc) {
        let line = line?;
        let line = line.as_str();
        let mut page = Page::new(alloc);
        match line_of(line) {
            Line::Blank => {}
            Line::Title => section = Section::Programs,
            Line::Setting(setting) => section = section.behind(alloc, setting)?,
            Line::Case => {
                page.put(" => ");
                write_outcome(alloc, &mut page, &section, line);
                count = count.saturating_add(1);
            }
        }
        let outcome = page.finish()?;
        println!(rt; "{line}{outcome}")?;
    }
    println!(rt; "cases: {count}")
}
