//! A script of texts, as it is read.

use crate::section::Section;
use cases_script::{Line, Page, line_of};
use std::alloc::{AllocError, Global};

/// The section in which the script stands, and the cases so far.
#[derive(Drop)]
pub struct Script {
    alloc: Global,
    section: Section,
    count: u64,
}

impl Script {
    /// A script of which nothing was read.
    pub fn new(alloc: Global) -> Script {
        Script {
            alloc,
            section: Section::new(alloc),
            count: 0,
        }
    }

    /// How many cases were read.
    pub fn count(&self) -> u64 {
        self.count
    }

    fn write(&mut self, page: &mut Page, line: &str) -> Result<(), AllocError> {
        match line_of(line) {
            Line::Case => {
                self.count = self.count.saturating_add(1);
                return self.section.write_case(page, line);
            }
            Line::Blank => {}
            Line::Title => self.section = Section::new(self.alloc),
            Line::Setting(setting) => self.section.set(setting)?,
        }
        page.put(line);
        Ok(())
    }

    /// Reads a line. What is answered is the line, and what its case gives.
    pub fn read(&mut self, line: &str) -> Result<String, AllocError> {
        let mut page = Page::new(self.alloc);
        self.write(&mut page, line)?;
        page.finish()
    }
}
