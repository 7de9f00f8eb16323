//! Reads a script of texts, and prints it with the tree of each, or why it has none.
//!
//! The settings of a section:
//!
//!     $ text FRONT...BACK    each case stands between the two
//!     $ tree FRONT...BACK    what its tree stands between, which is not printed
//!     $ places               trees are written with the places of their parts
//!     $ times 128 129        the parts of a case between backquotes are repeated as often as each number says; what is
//!                            printed is the height of the tree, or the tree behind the ` => ` of the case where it is that
#![tactic(auto)]

mod form;
mod lines;
mod outcome;
mod repeated;
mod script;
mod section;
mod terms;
mod words;

use cc_gram::tokens_have_one_tree;
use script::Script;
use std::io;

fn main(rt: HostRuntime) -> io::Result<()> {
    tokens_have_one_tree();
    let alloc = rt.alloc();
    let mut script = Script::new(alloc);
    for line in rt.lines(alloc) {
        let line = line?;
        let shown = script.read(line.as_str())?;
        println!(rt; "{shown}")?;
    }
    let count = script.count();
    println!(rt; "cases: {count}")
}
