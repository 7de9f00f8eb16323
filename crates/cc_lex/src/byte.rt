ghost use Rattle.std.specs.Prelude.{◌≡◌};
ghost use Rattle.cc_lex.specs.Scan.{class_of};
ghost use Rattle.cc_words.specs.Names.{is_digit as is_digit_byte};
ghost use Rattle.cc_lex.specs.Bytes.{is_blank as is_blank_byte};

/// What a byte begins, where it stands at the front of a separator or a token.
#[derive(Clone, Copy)]
pub enum Class {
    Letter,
    Digit,
    Point,
    Apostrophe,
    Quote,
    Blank,
    LineFeed,
    OtherSpace,
    Slash,
    Hash,
    Other,
}

#[tactic(auto, unfolding(crate::specs::Scan::class_of))]
pub fn classify(b: u8) -> Class
    ensures { result ≡ class_of b }
{
    match b {
        b'a'..=b'z' | b'A'..=b'Z' | b'_' => Class::Letter,
        b'0'..=b'9' => Class::Digit,
        b'.' => Class::Point,
        b'\'' => Class::Apostrophe,
        b'"' => Class::Quote,
        b' ' | b'\t' => Class::Blank,
        b'\n' => Class::LineFeed,
        0x0b | 0x0c | b'\r' => Class::OtherSpace,
        b'/' => Class::Slash,
        b'#' => Class::Hash,
        _ => Class::Other,
    }
}

pub fn is_digit(b: u8) -> bool
    ensures { result ≡ is_digit_byte b }
{
    matches!(b, b'0'..=b'9')
}

pub fn is_blank(b: u8) -> bool
    ensures { result ≡ is_blank_byte b }
{
    matches!(b, b' ' | b'\t')
}
