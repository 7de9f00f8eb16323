//! Keywords (C99 6.4.1).

ghost use Rattle.std.specs.Prelude.{◌≡◌, option_copied, find};
ghost use Rattle.std.specs.Str.{bytes_eq};
ghost use Rattle.cc_words.specs.Words.{words, is_spelling, word_of as word_of_name};

use crate::word::Word;

const WORDS: [Word; 33] = [
    Word::Auto,
    Word::Break,
    Word::Case,
    Word::Char,
    Word::Const,
    Word::Continue,
    Word::Default,
    Word::Do,
    Word::Else,
    Word::Enum,
    Word::Extern,
    Word::For,
    Word::If,
    Word::Inline,
    Word::Int,
    Word::Long,
    Word::Register,
    Word::Restrict,
    Word::Return,
    Word::Short,
    Word::Signed,
    Word::Sizeof,
    Word::Static,
    Word::Struct,
    Word::Switch,
    Word::Typedef,
    Word::Unsigned,
    Word::Void,
    Word::Volatile,
    Word::While,
    Word::Bool,
    Word::Extension,
    Word::Attribute,
];

fn is(name: &[u8], word: &str) -> bool
    ensures { result ≡ bytes_eq name.now word.now }
{
    name == word.as_bytes()
}

/// Whether the keyword is spelled so.
fn is_spelled(word: Word, name: &[u8]) -> bool
    ensures { result ≡ is_spelling word name.now }
{
    match word {
        Word::Auto => is(name, "auto"),
        Word::Break => is(name, "break"),
        Word::Case => is(name, "case"),
        Word::Char => is(name, "char"),
        Word::Const => is(name, "const") || is(name, "__const") || is(name, "__const__"),
        Word::Continue => is(name, "continue"),
        Word::Default => is(name, "default"),
        Word::Do => is(name, "do"),
        Word::Else => is(name, "else"),
        Word::Enum => is(name, "enum"),
        Word::Extern => is(name, "extern"),
        Word::For => is(name, "for"),
        Word::If => is(name, "if"),
        Word::Inline => is(name, "inline") || is(name, "__inline") || is(name, "__inline__"),
        Word::Int => is(name, "int"),
        Word::Long => is(name, "long"),
        Word::Register => is(name, "register"),
        Word::Restrict => is(name, "restrict")
            || is(name, "__restrict")
            || is(name, "__restrict__"),
        Word::Return => is(name, "return"),
        Word::Short => is(name, "short"),
        Word::Signed => is(name, "signed") || is(name, "__signed") || is(name, "__signed__"),
        Word::Sizeof => is(name, "sizeof"),
        Word::Static => is(name, "static"),
        Word::Struct => is(name, "struct"),
        Word::Switch => is(name, "switch"),
        Word::Typedef => is(name, "typedef"),
        Word::Unsigned => is(name, "unsigned"),
        Word::Void => is(name, "void"),
        Word::Volatile => is(name, "volatile")
            || is(name, "__volatile")
            || is(name, "__volatile__"),
        Word::While => is(name, "while"),
        Word::Bool => is(name, "_Bool"),
        Word::Extension => is(name, "__extension__"),
        Word::Attribute => is(name, "__attribute__") || is(name, "__attribute"),
    }
}

/// The keyword that is spelled so.
#[tactic(auto, unfolding(crate::specs::Words::word_of))]
pub fn word_of(name: &[u8]) -> Option<Word>
    ensures { result ≡ word_of_name name.now }
{
    WORDS.iter().copied().find(|word| is_spelled(*word, name))
}
