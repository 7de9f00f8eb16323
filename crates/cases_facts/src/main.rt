//! Reads a script of programs and of questions about facts of all their runs, and prints each question with its answer.
//!
//! A setting is a source, which may have rows of a profile in front: `[level,low,1 int,4,] int main(void) { }`. The program is the
//! one that it is lowered to. Each case behind it asks something of facts about that program, over explicit sets and ranges, or over
//! intervals where it begins with `span `. The facts are the least ones, changed as stands behind the colon (`changes.rt`):
//!
//!     facts                      the facts (`written.rt`)
//!     judge : whole 0 - 2        the first constraint that they break, and whether they are taken
//!     hold 100 1 7,0 : ..        after how many of 100 turns the state does not lie in them, where each input is 1 and the function 0
//!                                arrives at turn 7
//!
//! Facts that have not the shape of the program's are `of another shape`.
#![tactic(auto)]

mod answers;
mod changes;
mod points;
mod runs;
mod sets;
mod sources;
mod written;

use answers::write_answer;
use cases_script::{Line, Page, line_of};
use std::io;

fn main(rt: HostRuntime) -> io::Result<()> {
    let alloc = rt.alloc();
    let mut source = String::new(alloc);
    let mut count: u64 = 0;
    for line in rt.lines(alloc) {
        let line = line?;
        let line = line.as_str();
        let mut page = Page::new(alloc);
        match line_of(line) {
            Line::Blank | Line::Title => {}
            Line::Setting(setting) => {
                source.clear();
                source.push_str(setting)?;
            }
            Line::Case => {
                page.put(" => ");
                write_answer(alloc, &mut page, source.as_str(), line);
                count = count.saturating_add(1);
            }
        }
        let answer = page.finish()?;
        println!(rt; "{line}{answer}")?;
    }
    println!(rt; "cases: {count}")
}
