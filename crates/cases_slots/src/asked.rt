//! What the settings of a section say.

use cases_script::split;
use std::alloc::{AllocError, Global};

/// What is asked of the sources of a section, and the profile that they are read under.
#[derive(Drop)]
pub struct Asked {
    /// The rows of the profile, each with a line feed.
    pub rows: String,
    /// The last setting that was none of rows.
    pub question: String,
}

impl Asked {
    /// Nothing, under the default profile.
    pub fn new(alloc: Global) -> Asked {
        Asked {
            rows: String::new(alloc),
            question: String::new(alloc),
        }
    }

    /// A new section begins.
    pub fn clear(&mut self) {
        self.rows.clear();
        self.question.clear();
    }

    /// Adds rows to the profile.
    fn add_rows(&mut self, rows: &str) -> Result<(), AllocError> {
        for row in rows.split_whitespace() {
            self.rows.push_str(row)?;
            self.rows.push_str("\n")?;
        }
        Ok(())
    }

    /// Takes a setting.
    pub fn set(&mut self, setting: &str) -> Result<(), AllocError> {
        let (word, rest) = split(setting);
        if word == "rows" {
            return self.add_rows(rest);
        }
        self.question.clear();
        self.question.push_str(setting)
    }
}
