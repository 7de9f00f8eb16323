use std::alloc::{AllocError, Global};

/// How much of an escape was read.
#[derive(Clone, Copy)]
enum Escape {
    Nothing,
    Backslash,
    /// `\x`.
    Hex,
    /// `\x` and its first digit.
    Digit(u8),
}

/// The value of a hexadecimal digit, and 0 for another byte.
fn digit(byte: u8) -> u8 {
    match byte {
        b'0'..=b'9' => byte - b'0',
        b'a'..=b'f' => byte - b'a' + 10,
        _ => 0,
    }
}

/// What is read of an escape behind a further byte, and the byte that ends there.
fn read(escape: Escape, byte: u8) -> (Escape, Option<u8>) {
    match (escape, byte) {
        (Escape::Nothing, b'\\') => (Escape::Backslash, None),
        (Escape::Nothing, _) => (Escape::Nothing, Some(byte)),
        (Escape::Backslash, b'n') => (Escape::Nothing, Some(b'\n')),
        (Escape::Backslash, b't') => (Escape::Nothing, Some(b'\t')),
        (Escape::Backslash, b'e') => (Escape::Nothing, None),
        (Escape::Backslash, b'x') => (Escape::Hex, None),
        (Escape::Backslash, _) => (Escape::Nothing, Some(byte)),
        (Escape::Hex, _) => (Escape::Digit(digit(byte)), None),
        (Escape::Digit(first), _) => (Escape::Nothing, Some((first << 4) | digit(byte))),
    }
}

/// The bytes that a case writes.
pub fn bytes_of(alloc: Global, text: &str) -> Result<Vec<u8>, AllocError> {
    let mut bytes = Vec::new(alloc);
    let mut escape = Escape::Nothing;
    for byte in text.as_bytes() {
        let (next, ended) = read(escape, *byte);
        if let Some(ended) = ended {
            bytes.push(ended)?;
        }
        escape = next;
    }
    Ok(bytes)
}
