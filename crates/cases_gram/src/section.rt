//! A section of the script: how its cases become texts, and how their trees are shown.

use crate::outcome::outcome;
use crate::repeated::{height, repeated};
use cases_script::{Page, bytes_of, split};
use std::alloc::{AllocError, Global};

/// What stands for the case in a frame.
const HOLE: &str = "...";

/// What stands between a case and its tree.
const GIVES: &str = " => ";

/// The settings of a section.
#[derive(Drop)]
pub struct Section {
    alloc: Global,
    /// The text in which a case stands, and the tree in which its tree stands, each with a hole.
    text: String,
    tree: String,
    /// How often the parts of a case between backquotes are repeated, and how often then. With 0 a case is a text as it
    /// is, and then a case is not tried again.
    times: (usize, usize),
    /// Whether trees are written with the places of their parts.
    places: bool,
}

/// One number or two, with 0 for one that is not there.
fn numbers(text: &str) -> (usize, usize) {
    let (first, second) = split(text);
    (first.parse().unwrap_or(0), second.parse().unwrap_or(0))
}

/// What stands in a frame before its hole, and behind it.
fn sides(frame: &str) -> (&str, &str) {
    frame.split_once(HOLE).unwrap_or(("", ""))
}

/// What stands in the hole of a frame, or the whole where the frame is another.
fn unframed<'t>(whole: &'t str, frame: &str) -> &'t str {
    let (front, back) = sides(frame);
    match whole.strip_prefix(front) {
        Some(rest) => rest.strip_suffix(back).unwrap_or(whole),
        None => whole,
    }
}

/// Writes the short form of a tree where it is that which was wanted, else its height; or a fault.
fn write_short(page: &mut Page, outcome: &str, (tree, short): (&str, &str)) {
    if outcome == tree {
        page.put(short);
    } else if outcome.starts_with('{') {
        page.put("height ");
        page.show(height(outcome));
    } else {
        page.put(outcome);
    }
}

impl Section {
    /// A section without settings.
    pub fn new(alloc: Global) -> Section {
        Section {
            alloc,
            text: String::new(alloc),
            tree: String::new(alloc),
            times: (0, 0),
            places: false,
        }
    }

    /// Takes a setting.
    pub fn set(&mut self, setting: &str) -> Result<(), AllocError> {
        let (word, value) = split(setting);
        match word {
            "text" => self.text = String::from_str(self.alloc, value)?,
            "tree" => self.tree = String::from_str(self.alloc, value)?,
            "times" => self.times = numbers(value),
            _ => self.places = word == "places",
        }
        Ok(())
    }

    /// What a text in its frame gives.
    fn outcome_of(&self, case: &str) -> Result<String, AllocError> {
        let (front, back) = sides(self.text.as_str());
        let text = format!(in self.alloc; "{front}{case}{back}")?;
        let bytes = bytes_of(self.alloc, text.as_str())?;
        outcome(self.alloc, &bytes, self.places)
    }

    /// Writes what a text gives: its tree without the frame, or its fault.
    fn write_whole(&self, page: &mut Page, text: &str) -> Result<(), AllocError> {
        let outcome = self.outcome_of(text)?;
        let tree = unframed(outcome.as_str(), self.tree.as_str());
        page.put(if tree.is_empty() { "" } else { " " });
        page.put(tree);
        Ok(())
    }

    /// Writes what a text gives with its parts repeated.
    fn write_repeated(
        &self,
        page: &mut Page,
        text: &str,
        short: &str,
        times: usize,
    ) -> Result<(), AllocError> {
        let text = repeated(self.alloc, text, times)?;
        let tree = repeated(self.alloc, short, times)?;
        let outcome = self.outcome_of(text.as_str())?;
        write_short(page, outcome.as_str(), (tree.as_str(), short));
        Ok(())
    }

    /// Writes what a text gives with its parts repeated as often as the setting says.
    fn write_each(&self, page: &mut Page, text: &str, short: &str) -> Result<(), AllocError> {
        let (first, second) = self.times;
        page.put(" ");
        self.write_repeated(page, text, short, first)?;
        if second == 0 {
            return Ok(());
        }
        page.put(", ");
        self.write_repeated(page, text, short, second)
    }

    /// Writes a case, and what it gives.
    pub fn write_case(&self, page: &mut Page, case: &str) -> Result<(), AllocError> {
        let (text, short) = case.split_once(GIVES).unwrap_or((case, ""));
        page.put(text);
        page.put(" =>");
        if self.times.0 == 0 {
            self.write_whole(page, text)
        } else {
            self.write_each(page, text, short)
        }
    }
}
