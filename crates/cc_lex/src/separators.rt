//! What separates tokens: comments, and the lines that a preprocessor leaves (C99 6.4.9, 6.10.4,
//! 6.10.6).

ghost use Rattle.std.specs.Prelude.{◌≡◌, ◌≤◌, length, false, IfSome};
ghost use Rattle.std.specs.List.{prefix_len, list_all};
ghost use Rattle.cc_words.specs.Names.{is_digit as is_digit_byte};
ghost use Rattle.cc_lex.specs.Bytes.{is_in_line, is_blank as is_blank_byte};
ghost use Rattle.cc_lex.specs.ScanParts.{past_blanks as behind_blanks, is_decimal as is_decimal_word, begins_with_decimal as begins_decimal, is_other_pragma as is_other_word, is_skipped_word as skips_word, is_skipped as skips};
ghost use Rattle.cc_lex.specs.Scan.{close_len as len_to_close};

use crate::byte::{is_blank, is_digit};
use crate::identifiers::word_len;

/// How many bytes stand before the end of the line.
pub fn line_len(text: &[u8]) -> usize
    ensures value { result ≡ prefix_len is_in_line text.now }
    ensures within { result ≤ length text.now }
{
    text.iter().take_while(|b| **b != b'\n').count()
}

/// How many bytes stand up to and with the first `*/`.
#[tactic(auto, using(crate::proofs::Loops::of_closes))]
pub fn close_len(text: &[u8]) -> Option<usize>
    ensures value { result ≡ len_to_close false text.now }
    ensures within { IfSome result (λ n. n ≤ length text.now) }
{
    let mut star = false;
    for (n, b) in text.iter().enumerate() {
        if star && *b == b'/' {
            return Some(n + 1);
        }
        star = *b == b'*';
    }
    None
}

/// How many spaces and tabs the text begins with.
fn blank_len(text: &[u8]) -> usize
    ensures value { result ≡ prefix_len is_blank_byte text.now }
    ensures within { result ≤ length text.now }
{
    text.iter().take_while(|b| is_blank(**b)).count()
}

fn past_blanks(text: &[u8]) -> &[u8]
    ensures { result.now ≡ behind_blanks text.now }
{
    &text[blank_len(text)..]
}

fn all_digits(word: &[u8]) -> bool
    ensures { result ≡ list_all is_digit_byte word.now }
{
    word.iter().all(|b| is_digit(*b))
}

/// Whether the word is decimal digits.
fn is_decimal(word: &[u8]) -> bool
    ensures { result ≡ is_decimal_word word.now }
{
    !word.is_empty() && all_digits(word)
}

fn begins_with_decimal(text: &[u8]) -> bool
    ensures { result ≡ begins_decimal text.now }
{
    let (word, behind) = text.split_at(word_len(text));
    is_decimal(word) && !matches!(behind, [b'.', ..])
}

/// Whether a pragma's first word is one, and not `pack`.
fn is_other_pragma(word: &[u8]) -> bool
    ensures { result ≡ is_other_word word.now }
{
    match word {
        [] => false,
        [first, ..] => !is_digit(*first) && word != b"pack".as_slice(),
    }
}

fn is_skipped_word(word: &[u8], behind: &[u8]) -> bool
    ensures { result ≡ skips_word word.now behind.now }
{
    let text = past_blanks(behind);
    if word == b"line".as_slice() {
        return begins_with_decimal(text);
    }
    word == b"pragma".as_slice() && is_other_pragma(&text[..word_len(text)])
}

/// Whether a line with this behind its `#` is skipped: a linemarker, or a pragma other than `pack`.
#[tactic(auto, unfolding(crate::specs::ScanParts::is_skipped))]
pub fn is_skipped(behind: &[u8]) -> bool
    ensures { result ≡ skips behind.now }
{
    let text = past_blanks(behind);
    let (word, behind_word) = text.split_at(word_len(text));
    begins_with_decimal(text) || is_skipped_word(word, behind_word)
}
