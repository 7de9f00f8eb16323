//! Reads a script of sources in C, and prints each with what it is lowered to.
//!
//! Behind a setting a case is the body of `main`, the setting is the text in front of it, and what is printed is the lowered
//! body. Where there is no setting, a case is a whole source, and what is printed is the lowered program. A source that is
//! refused has the line `refused`.
#![tactic(auto)]

mod lowered;

use cases_script::{Line, line_of};
use lowered::write_lowered;
use std::io;

fn main(rt: HostRuntime) -> io::Result<()> {
    let alloc = rt.alloc();
    let mut front = String::new(alloc);
    let mut count: u64 = 0;
    for line in rt.lines(alloc) {
        let line = line?;
        let line = line.as_str();
        println!(rt; "{line}")?;
        match line_of(line) {
            Line::Blank | Line::Title => {}
            Line::Setting(setting) => {
                front.clear();
                front.push_str(setting)?;
            }
            Line::Case => {
                let text = write_lowered(alloc, front.as_str(), line)?;
                print!(rt; "{text}")?;
                count = count.saturating_add(1);
            }
        }
    }
    println!(rt; "cases: {count}")
}
