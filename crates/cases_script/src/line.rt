/// A line of a script.
pub enum Line<'a> {
    Blank,
    Title,
    /// A setting, without its `$ `.
    Setting(&'a str),
    Case,
}

/// What a line of a script is.
pub fn line_of(line: &str) -> Line<'_> {
    if line.is_empty() {
        return Line::Blank;
    }
    if line.starts_with("== ") {
        return Line::Title;
    }
    match line.strip_prefix("$ ") {
        Some(setting) => Line::Setting(setting),
        None => Line::Case,
    }
}

/// The first word of a text, and what stands behind the blank after it.
pub fn split(text: &str) -> (&str, &str) {
    text.split_once(' ').unwrap_or((text, ""))
}
