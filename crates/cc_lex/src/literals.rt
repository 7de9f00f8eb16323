//! Character constants and string literals (C99 6.4.4.4, 6.4.5).

ghost use Rattle.std.specs.Prelude.{◌≡◌, ◌+◌, ◌≤◌, ◌<◌, ◌^◌, length, false, IfSome};
ghost use Rattle.cc_lex.specs.Scan.{Gives, bytes_of as bytes_of_content, content_len as len_of_content};
ghost use Rattle.cc_lex.specs.ScanParts.{value_of, simple_escape as value_of_escape, byte_of as in_a_byte, escape_of as escape_behind, element_of as first_element};

use crate::fault::LexFault;
use crate::numbers::{capped_value, digit_value, digits_len};
use std::alloc::Global;

/// How many bytes stand before the quote that closes a literal on its line.
#[tactic(auto, using(crate::proofs::Loops::of_contents))]
pub fn content_len(quote: u8, text: &[u8]) -> Option<usize>
    ensures value { result ≡ len_of_content quote false text.now }
    ensures within { IfSome result (λ n. n < length text.now) }
{
    let mut escaped = false;
    for (n, b) in text.iter().enumerate() {
        if *b == b'\n' {
            return None;
        }
        if !escaped && *b == quote {
            return Some(n);
        }
        escaped = !escaped && *b == b'\\';
    }
    None
}

/// The value of an escape of one letter or mark.
fn simple_escape(b: u8) -> Option<u8>
    ensures { result ≡ value_of_escape b }
{
    match b {
        b'\'' | b'"' | b'?' | b'\\' => Some(b),
        b'a' => Some(0x07),
        b'b' => Some(0x08),
        b'f' => Some(0x0c),
        b'n' => Some(b'\n'),
        b'r' => Some(b'\r'),
        b't' => Some(b'\t'),
        b'v' => Some(0x0b),
        _ => None,
    }
}

/// The value of digits, where it is a byte.
fn byte_value(base: u8, digits: &[u8]) -> Option<u8>
    requires positive { 0 < base }
    requires small { base ≤ 16 }
    ensures { result ≡ in_a_byte (value_of base digits.now) }
{
    let value = capped_value(base, digits);
    if value < 256 { Some(value as u8) } else { None }
}

/// Behind a backslash: how many bytes belong to the escape, and its value.
#[tactic(auto, unfolding(crate::specs::ScanParts::escape_of))]
fn escape_of(text: &[u8]) -> (usize, Option<u8>)
    ensures value { result ≡ escape_behind text.now }
    ensures within { result.0 ≤ length text.now }
{
    match text {
        [] => (0, None),
        [b'x', digits @ ..] => {
            let len = digits_len(16, digits);
            if len == 0 {
                (1, None)
            } else {
                (len + 1, byte_value(16, &digits[..len]))
            }
        }
        [b, ..] => {
            if digit_value(*b) >= 8 {
                return (1, simple_escape(*b));
            }
            let len = digits_len(8, text).min(3);
            (len, byte_value(8, &text[..len]))
        }
    }
}

/// The first element of a content: how many bytes it takes, and its value.
#[tactic(auto, unfolding(crate::specs::ScanParts::element_of))]
pub fn element_of(content: &[u8]) -> (usize, Option<u8>)
    ensures value { result ≡ first_element content.now }
    ensures within { result.0 ≤ length content.now }
    ensures some { 0 < length content.now → 0 < result.0 }
{
    match content {
        [] => (0, None),
        [b'\\', behind @ ..] => {
            let (len, value) = escape_of(behind);
            (len + 1, value)
        }
        [b, ..] => (1, Some(*b)),
    }
}

/// The bytes of a string literal's content that stands at byte `at` of the text.
#[tactic(auto, using(crate::proofs::Contents::of_bytes))]
pub fn text_bytes(alloc: Global, at: u32, content: &[u8]) -> Result<Vec<u8>, LexFault>
    requires { at + length content.now < 2 ^ 32 }
    ensures { Gives (λ v. v.items) result (bytes_of_content 0 at content.now) }
{
    let mut bytes = Vec::new(alloc);
    let mut rest = content;
    let mut here = at;
    while let [_, ..] = rest {
        let (len, value) = element_of(rest);
        let Some(byte) = value else {
            return Err(LexFault::BadNumber(here));
        };
        bytes.push(byte)?;
        rest = rest.split_at(len).1;
        here += len as u32;
    }
    Ok(bytes)
}
