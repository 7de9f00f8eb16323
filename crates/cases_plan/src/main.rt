//! Reads a script of cases of plans, and prints it with what each case gives.
//!
//! The settings, and what the cases behind them may be:
//!
//!     $ legal    slots and a plan of them; what is printed is that it is legal, or the first slot that breaks a rule, the
//!                least rule that it breaks, what it has and what it would need; or that no plan has these lists.
//!                `written.rt` says how slots and plans are written
//!     $ many     `COUNT UPPER`: so many slots of one byte and 4 bits, and a plan of them with two in each word, of which the second
//!                stands at the shift UPPER; what is printed is the same
#![tactic(auto)]

mod legal;
mod many;
mod written;

use cases_script::{Cases, Page, run};
use std::alloc::Global;
use std::io;

/// What the cases of a section are about.
#[derive(Clone, Copy)]
enum Subject {
    Nothing,
    Legality,
    Many,
}

impl Cases for Subject {
    fn behind(setting: &str) -> Subject {
        match setting {
            "legal" => Subject::Legality,
            "many" => Subject::Many,
            _ => Subject::Nothing,
        }
    }

    fn write_outcome(self, alloc: Global, page: &mut Page, case: &str) {
        match self {
            Subject::Nothing => page.put("unclear"),
            Subject::Legality => legal::write_outcome(alloc, page, case),
            Subject::Many => many::write_outcome(alloc, page, case),
        }
    }
}

fn main(rt: HostRuntime) -> io::Result<()> {
    cc_plan_legal::laws();
    run(&rt, Subject::Nothing)
}
