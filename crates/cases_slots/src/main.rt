//! Reads a script of sources in C, and prints each with what is planned for it.
//!
//! The settings of a section, and what is printed of each source behind them:
//!
//!     $ rows ROW ROW ..     the rows of the profile, for all cases behind it
//!     $ table BYTES         the table of the plan, where the packed program takes so many bytes of RAM
//!     $ slots               a line for each slot: its name, class, number and bytes of scalars, bits, the points that read it
//!                           and those that write it, and why it is not coded
//!     $ legal ITEM ITEM ..  whether a plan with these items is legal, or the first slot that breaks a rule; `changed.rt` says how
//!                           plans are written
//!
//! Between two sources of a program stands ` <> `. A source that is refused, or is past a limit, has the line `refused`.
#![tactic(auto)]

mod asked;
mod changed;
mod listed;
mod planned;
mod source;

use asked::Asked;
use cases_script::{Line, line_of};
use source::write_outcome;
use std::io;

fn main(rt: HostRuntime) -> io::Result<()> {
    let alloc = rt.alloc();
    let mut asked = Asked::new(alloc);
    let mut count: u64 = 0;
    for line in rt.lines(alloc) {
        let line = line?;
        let line = line.as_str();
        println!(rt; "{line}")?;
        match line_of(line) {
            Line::Blank => {}
            Line::Title => asked.clear(),
            Line::Setting(setting) => asked.set(setting)?,
            Line::Case => {
                let text = write_outcome(alloc, &asked, line)?;
                print!(rt; "{text}")?;
                count = count.saturating_add(1);
            }
        }
    }
    println!(rt; "cases: {count}")
}
