use crate::{Line, Page, line_of};
use std::alloc::Global;
use std::io;

/// What the cases of a section are about.
pub trait Cases: Copy {
    /// What a setting says that the cases behind it are about.
    fn behind(setting: &str) -> Self;

    /// Writes what a case gives.
    fn write_outcome(self, alloc: Global, page: &mut Page, case: &str);
}

/// Reads a script, and prints it with what each case gives, and how many cases there are. The cases of a
/// section are about nothing until its first setting.
pub fn run<C: Cases, R: Input + Print + AllocGlobal>(rt: &R, nothing: C) -> io::Result<()> {
    let alloc = rt.alloc();
    let mut cases = nothing;
    let mut count: u64 = 0;
    for line in rt.lines(alloc) {
        let line = line?;
        let line = line.as_str();
        let mut page = Page::new(alloc);
        match line_of(line) {
            Line::Blank => {}
            Line::Title => cases = nothing,
            Line::Setting(setting) => cases = C::behind(setting),
            Line::Case => {
                page.put(" => ");
                cases.write_outcome(alloc, &mut page, line);
                count = count.saturating_add(1);
            }
        }
        let outcome = page.finish()?;
        println!(rt; "{line}{outcome}")?;
    }
    println!(rt; "cases: {count}")
}
