use std::alloc::{AllocError, Global};
use std::fmt::{Debug, Display, Write};

/// A text that is written piece by piece. It is whole unless memory ran out.
#[derive(Drop)]
pub struct Page {
    text: String,
    is_whole: bool,
}

impl Page {
    /// An empty page.
    pub fn new(alloc: Global) -> Page {
        Page {
            text: String::new(alloc),
            is_whole: true,
        }
    }

    /// Writes a text.
    pub fn put(&mut self, text: &str) {
        if self.text.push_str(text).is_err() {
            self.is_whole = false;
        }
    }

    /// Writes a value as `{}` does.
    pub fn show<D: Display + Drop>(&mut self, value: D) {
        if write!(self.text, "{value}").is_err() {
            self.is_whole = false;
        }
    }

    /// Writes a text, and a value behind it as `{}` does.
    pub fn put_with<D: Display + Drop>(&mut self, text: &str, value: D) {
        self.put(text);
        self.show(value);
    }

    /// Writes a value as `{:?}` does.
    pub fn debug<D: Debug + Drop>(&mut self, value: D) {
        if write!(self.text, "{value:?}").is_err() {
            self.is_whole = false;
        }
    }

    /// Writes a byte as a case does.
    fn byte(&mut self, byte: u8) {
        match byte {
            b'\n' => self.put("\\n"),
            b'\t' => self.put("\\t"),
            b'\\' => self.put("\\\\"),
            b' '..=b'~' => self.show(char::from(byte)),
            _ => self.show(format_args!("\\x{byte:02x}")),
        }
    }

    /// Writes bytes as a case does.
    pub fn bytes(&mut self, bytes: &[u8]) {
        for byte in bytes {
            self.byte(*byte);
        }
    }

    /// What was written.
    pub fn finish(self) -> Result<String, AllocError> {
        let Page { text, is_whole } = self;
        if is_whole { Ok(text) } else { Err(AllocError) }
    }
}
