//! The bytes that files and sinks are given, and hold: `text` and what they are, or `bytes` and how many.

use cases_script::{Page, bytes_of, split};
use std::alloc::{AllocError, Global};

/// How many bytes stand before the first one again. No two pieces of 4,096 are alike.
const PERIOD: usize = 251;

/// The number that a word is, and 0 for another word.
pub fn number(word: &str) -> u64 {
    word.parse().unwrap_or(0)
}

/// The bytes that a case asks for.
pub fn contents(alloc: Global, text: &str) -> Result<Vec<u8>, AllocError> {
    let (word, rest) = split(text);
    if word == "bytes" {
        return (0..number(rest) as usize)
            .map(|i| (i % PERIOD) as u8)
            .collect(alloc);
    }
    bytes_of(alloc, rest)
}

/// Writes bytes as a case asks for them.
pub fn write_contents(page: &mut Page, bytes: &[u8]) {
    let mut places = bytes.iter().enumerate();
    if places.all(|(i, byte)| usize::from(*byte) == i % PERIOD) {
        page.put("bytes ");
        page.show(bytes.len());
    } else {
        page.put("text ");
        page.bytes(bytes);
    }
}
