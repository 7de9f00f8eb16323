//! How keywords and suffixes are spelled (C99 6.4).

ghost use Rattle.std.specs.Prelude.{◌≡◌};
ghost use Rattle.cc_program.specs.CcWords.Words.{spellings};
ghost use Rattle.cc_pieces.specs.Pieces.{first_of, suffix_text as suffix_text_of};

use cc_lex::Suffix;
use cc_program::words::Word;

/// How a keyword is spelled plainly (C99 6.4.1).
pub fn word_text(word: Word) -> &'static [u8]
    ensures { result.now ≡ first_of (spellings word) }
{
    match word {
        Word::Auto => b"auto",
        Word::Break => b"break",
        Word::Case => b"case",
        Word::Char => b"char",
        Word::Const => b"const",
        Word::Continue => b"continue",
        Word::Default => b"default",
        Word::Do => b"do",
        Word::Else => b"else",
        Word::Enum => b"enum",
        Word::Extern => b"extern",
        Word::For => b"for",
        Word::If => b"if",
        Word::Inline => b"inline",
        Word::Int => b"int",
        Word::Long => b"long",
        Word::Register => b"register",
        Word::Restrict => b"restrict",
        Word::Return => b"return",
        Word::Short => b"short",
        Word::Signed => b"signed",
        Word::Sizeof => b"sizeof",
        Word::Static => b"static",
        Word::Struct => b"struct",
        Word::Switch => b"switch",
        Word::Typedef => b"typedef",
        Word::Unsigned => b"unsigned",
        Word::Void => b"void",
        Word::Volatile => b"volatile",
        Word::While => b"while",
        Word::Bool => b"_Bool",
        Word::Extension => b"__extension__",
        Word::Attribute => b"__attribute__",
    }
}

/// How the letters of a suffix are spelled (C99 6.4.4.1).
pub fn suffix_text(suffix: Suffix) -> &'static [u8]
    ensures { result.now ≡ suffix_text_of suffix }
{
    match (suffix.unsigned, suffix.longs) {
        (false, 0) => b"",
        (false, 1) => b"l",
        (false, _) => b"ll",
        (true, 0) => b"u",
        (true, 1) => b"ul",
        (true, _) => b"ull",
    }
}
