//! Reads a script of programs and of files that a run reads, and prints each with what it gives.
//!
//! A case is a program in the words of `cases_program`. It is run, and what is printed is the rows of its trace, its end, and
//! how many turns it took. Behind bars may stand the rows of its inputs, those of its arrivals, and how many turns there are
//! at the most, else 1,000:
//!
//!     WORDS | 1 2 | 5,tick 7,tick | 100
//!
//! The title above it says the program in C. `tests/oracle/meaning.py` gives the same from C99 alone. A section may have
//! settings:
//!
//!     $ trace     programs are run, and the number of turns is left out
//!     $ states    programs are run, and what is printed is the states that they go through; `states.rt` says how
//!     $ normal    what is printed is whether a program is in normal form
//!     $ printed   what is printed is the text of a program
//!     $ profile   the text of a profile, and what is printed is what it has other than the default, or the row that
//!                 breaks a rule, and the rule
//!     $ default   any text, and what is printed is what the default profile has other than the profile of no rows
//!     $ inputs    the text of inputs, and what is printed is the inputs, or the first row that gives none
//!     $ arrivals  the text of arrivals, likewise; `rows.rt` says at which program
//!
//! Any other is words that stand in front of each program behind it.
#![tactic(auto)]

mod normal;
mod profiles;
mod rows;
mod runs;
mod section;
mod states;

use cases_script::{Line, Page, line_of};
use section::Section;
use std::io;

fn main(rt: HostRuntime) -> io::Result<()> {
    cc_cost::laws();
    let alloc = rt.alloc();
    let mut section = Section::new(alloc);
    let mut count: u64 = 0;
    for line in rt.lines(alloc) {
        let line = line?;
        let line = line.as_str();
        let mut page = Page::new(alloc);
        match line_of(line) {
            Line::Blank => {}
            Line::Title => section = Section::new(alloc),
            Line::Setting(setting) => section.set(setting)?,
            Line::Case => {
                page.put(" => ");
                section.write_outcome(alloc, &mut page, line);
                count = count.saturating_add(1);
            }
        }
        let outcome = page.finish()?;
        println!(rt; "{line}{outcome}")?;
    }
    println!(rt; "cases: {count}")
}
