//! Reads a script of cases of the command from the input, and prints how each ends. A line of it is
//!
//!     == NAME           begins a case: a store without files, of whose calls none is to fail
//!     file NAME         begins a file, the source `s.c` where no line says which
//!     text "TEXT"       puts a text behind the last file
//!     line "TEXT"       puts a text and a line feed there
//!     times N "TEXT"    puts a text there so many times
//!     failing N         has the store's call of this number fail
//!     deaf N            has the sink's call of this number fail
//!     run WORD..        does what the words say
//!     trace STEPS | INPUTS | ARRIVALS | PROFILE
//!                       runs the program of the files, over rows that are parted by blanks
//!
//! and of a run it prints the status, the line that explains it, the calls of the store and its faults, what was
//! said and the faults of the sink where there was anything to say, and what the output `o.c` holds then, and the
//! table where the words name one. Behind a line `trace` it prints the rows that were said. A quoted text ends at the last
//! quote of its line.
#![tactic(auto)]

mod case;
mod trace;

use case::Case;
use std::io;

fn main(rt: HostRuntime) -> io::Result<()> {
    let alloc = rt.alloc();
    let mut case = Case::new(alloc);
    let mut runs = 0u64;
    for line in rt.lines(alloc) {
        let line = line?;
        let (word, rest) = line.split_once(' ').unwrap_or((line.as_str(), ""));
        match word {
            "" => {}
            "==" => {
                case = Case::new(alloc);
                println!(rt; "== {rest}")?;
            }
            "run" => {
                case.run(&rt, rest)?;
                runs = runs.saturating_add(1);
            }
            "trace" => {
                trace::run(&rt, &case, rest)?;
                runs = runs.saturating_add(1);
            }
            _ => {
                if !case.set(alloc, word, rest)? {
                    println!(rt; "no such line: {word} {rest}")?;
                }
            }
        }
    }
    println!(rt; "{runs} runs")
}
