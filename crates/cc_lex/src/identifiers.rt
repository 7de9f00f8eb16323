//! The bytes of identifiers and keywords (C99 6.4.1, 6.4.2).

ghost use Rattle.std.specs.Prelude.{◌≡◌, ◌≤◌, length};
ghost use Rattle.std.specs.List.{prefix_len};
ghost use Rattle.cc_words.specs.Names.{is_letter_or_digit as goes_on};

use cc_words::is_letter_or_digit;

/// How many letters, digits and `_` the text begins with.
pub fn word_len(text: &[u8]) -> usize
    ensures value { result ≡ prefix_len goes_on text.now }
    ensures within { result ≤ length text.now }
{
    text.iter().take_while(|b| is_letter_or_digit(**b)).count()
}
