//! What stands at a place of the text.

ghost use Rattle.std.specs.Prelude.{◌≡◌, ◌+◌, ◌≤◌, ◌<◌, ◌^◌, length, IfOk};
ghost use Rattle.cc_lex.specs.ScanParts.{begins_fraction as is_fraction, element_of as element_of_content};
ghost use Rattle.cc_lex.specs.Scan.{Gives, size_of, run_of as len_of_run, name_at as name_in, number_at as number_in, mark_at as mark_in, one_element, character_at as character_in, text_at as text_in, slash_at as slash_in, line_at as line_in_text, piece_at as piece_in};

use crate::byte::{Class, classify, is_digit};
use crate::fault::LexFault;
use crate::identifiers::word_len;
use crate::literals::{content_len, element_of, text_bytes};
use crate::marks::{mark_of, spelling};
use crate::numbers::{number_of, run_len};
use crate::separators::{close_len, is_skipped, line_len};
use crate::token::Kind;
use cc_num::List;
use cc_words::word_of;
use std::alloc::Global;

/// What stands at a place of the text.
#[derive(Drop)]
pub enum Piece {
    /// A separator: its length, and whether its line has only blanks up to its end.
    Gap(usize, bool),
    /// A token: the length of its spelling, and what it is.
    Spelled(usize, Kind),
}

/// An identifier or a keyword.
fn name_at(alloc: Global, text: &[u8]) -> Result<Piece, LexFault>
    ensures { Gives (λ p. p) result (name_in text.now) }
{
    let len = word_len(text);
    let name = &text[..len];
    let kind = match word_of(name) {
        Some(word) => Kind::Keyword(word),
        None => Kind::Ident(List::of(Vec::from_slice(alloc, name)?)),
    };
    Ok(Piece::Spelled(len, kind))
}

/// How many bytes of the text belong to the run that it begins with.
fn run_of(text: &[u8]) -> usize
    ensures value { result ≡ len_of_run text.now }
    ensures within { result ≤ length text.now }
{
    match text {
        [] => 0,
        [first, behind @ ..] => run_len(*first, behind) + 1,
    }
}

/// A number.
fn number_at(at: u32, text: &[u8]) -> Result<Piece, LexFault>
    ensures { Gives (λ p. p) result (number_in at text.now) }
{
    let len = run_of(text);
    match number_of(&text[..len]) {
        Some((value, suffix)) => Ok(Piece::Spelled(len, Kind::Number(value, suffix))),
        None => Err(LexFault::BadNumber(at)),
    }
}

/// A mark.
fn mark_at(at: u32, text: &[u8]) -> Result<Piece, LexFault>
    ensures { Gives (λ p. p) result (mark_in at text.now) }
{
    match mark_of(text) {
        Some(mark) => Ok(Piece::Spelled(spelling(mark).len(), Kind::Punct(mark))),
        None => Err(LexFault::BadByte(at)),
    }
}

/// A character constant with this content.
fn character(at: u32, content: &[u8]) -> Result<Piece, LexFault>
    requires { at + length content.now + 1 < 2 ^ 32 }
    ensures { Gives (λ p. p) result (one_element at (length content.now) (element_of_content content.now)) }
{
    let (len, value) = element_of(content);
    if len != content.len() {
        return Err(LexFault::OpenText(at));
    }
    match value {
        Some(byte) => Ok(Piece::Spelled(len + 2, Kind::Character(byte))),
        None => Err(LexFault::BadNumber(at + 1)),
    }
}

/// A character constant, at its quote.
fn character_at(at: u32, text: &[u8]) -> Result<Piece, LexFault>
    requires some { 0 < length text.now }
    requires fits { at + length text.now < 2 ^ 32 }
    ensures { Gives (λ p. p) result (character_in at text.now) }
{
    let behind = &text[1..];
    match content_len(b'\'', behind) {
        None | Some(0) => Err(LexFault::OpenText(at)),
        Some(len) => character(at, &behind[..len]),
    }
}

/// A string literal, at its quote.
fn text_at(alloc: Global, at: u32, text: &[u8]) -> Result<Piece, LexFault>
    requires some { 0 < length text.now }
    requires fits { at + length text.now < 2 ^ 32 }
    ensures { Gives (λ p. p) result (text_in at text.now) }
{
    let behind = &text[1..];
    let Some(len) = content_len(b'"', behind) else {
        return Err(LexFault::OpenText(at));
    };
    let bytes = text_bytes(alloc, at + 1, &behind[..len])?;
    Ok(Piece::Spelled(len + 2, Kind::Text(List::of(bytes))))
}

/// A comment or a mark, at its slash.
fn slash_at(at: u32, text: &[u8]) -> Result<Piece, LexFault>
    ensures { Gives (λ p. p) result (slash_in at text.now) }
{
    match text {
        [_, b'/', ..] => Ok(Piece::Gap(line_len(text), false)),
        [_, b'*', behind @ ..] => match close_len(behind) {
            Some(len) => Ok(Piece::Gap(len + 2, false)),
            None => Err(LexFault::OpenComment(at)),
        },
        _ => mark_at(at, text),
    }
}

/// A line that is skipped, at its `#`; `fresh` says that only blanks stand before it.
fn line_at(fresh: bool, at: u32, text: &[u8]) -> Result<Piece, LexFault>
    requires { 0 < length text.now }
    ensures { Gives (λ p. p) result (line_in_text fresh at text.now) }
{
    if !fresh {
        return Err(LexFault::BadByte(at));
    }
    let behind = &text[1..];
    let len = line_len(behind);
    if is_skipped(&behind[..len]) {
        Ok(Piece::Gap(len + 1, false))
    } else {
        Err(LexFault::Directive(at))
    }
}

/// Whether the text begins with a point and a digit.
fn begins_fraction(text: &[u8]) -> bool
    ensures { result ≡ is_fraction text.now }
{
    match text {
        [b'.', b, ..] => is_digit(*b),
        _ => false,
    }
}

/// What stands at the front of a text that stands at byte `at`; `fresh` says that its line has only
/// blanks before it.
#[tactic(auto, unfolding(crate::specs::Scan::piece_at))]
fn piece_of(alloc: Global, fresh: bool, at: u32, text: &[u8]) -> Result<Piece, LexFault>
    requires some { 0 < length text.now }
    requires fits { at + length text.now < 2 ^ 32 }
    ensures { Gives (λ p. p) result (piece_in fresh at text.now) }
{
    match classify(text[0]) {
        Class::Letter => name_at(alloc, text),
        Class::Digit => number_at(at, text),
        Class::Point => {
            if begins_fraction(text) {
                number_at(at, text)
            } else {
                mark_at(at, text)
            }
        }
        Class::Apostrophe => character_at(at, text),
        Class::Quote => text_at(alloc, at, text),
        Class::Blank => Ok(Piece::Gap(1, fresh)),
        Class::LineFeed => Ok(Piece::Gap(1, true)),
        Class::OtherSpace => Ok(Piece::Gap(1, false)),
        Class::Slash => slash_at(at, text),
        Class::Hash => line_at(fresh, at, text),
        Class::Other => mark_at(at, text),
    }
}

/// What stands at the front of a text that isn't empty and stands at byte `at`; `fresh` says that its
/// line has only blanks before it.
pub fn piece_at(alloc: Global, fresh: bool, at: u32, text: &[u8]) -> Result<Piece, LexFault>
    requires some { 0 < length text.now }
    requires fits { at + length text.now < 2 ^ 32 }
    ensures value { Gives (λ p. p) result (piece_in fresh at text.now) }
    ensures some { IfOk result (λ p. 0 < size_of p) }
    ensures within { IfOk result (λ p. size_of p ≤ length text.now) }
{
    piece_of(alloc, fresh, at, text)
}
