//! Identifiers, and which of them are names (C99 6.4.2.1).

ghost use Rattle.std.specs.Prelude.{◌≡◌};
ghost use Rattle.std.specs.List.{list_all};
ghost use Rattle.cc_words.specs.Names.{is_letter as is_letter_byte, is_letter_or_digit as goes_on, is_identifier as is_identifier_word, is_name as is_name_word};

use crate::keywords::word_of;
use crate::outside::is_outside;

/// Whether an identifier begins with the byte: a letter or `_`.
fn is_letter(b: u8) -> bool
    ensures { result ≡ is_letter_byte b }
{
    matches!(b, b'a'..=b'z' | b'A'..=b'Z' | b'_')
}

/// Whether an identifier goes on with the byte: a letter, a digit or `_`.
pub fn is_letter_or_digit(b: u8) -> bool
    ensures { result ≡ goes_on b }
{
    matches!(b, b'a'..=b'z' | b'A'..=b'Z' | b'_' | b'0'..=b'9')
}

fn all_go_on(bytes: &[u8]) -> bool
    ensures { result ≡ list_all goes_on bytes.now }
{
    bytes.iter().all(|b| is_letter_or_digit(*b))
}

/// Whether the word is letters, digits and `_`, not starting with a digit.
pub fn is_identifier(name: &[u8]) -> bool
    ensures { result ≡ is_identifier_word name.now }
{
    match name {
        [] => false,
        [first, rest @ ..] => is_letter(*first) && all_go_on(rest),
    }
}

/// Whether the word may name something in a program: it is an identifier, no keyword, and no word that
/// is outside the subset.
#[tactic(auto, unfolding(crate::specs::Names::is_name))]
pub fn is_name(name: &[u8]) -> bool
    ensures { result ≡ is_name_word name.now }
{
    is_identifier(name) && word_of(name).is_none() && !is_outside(name)
}
