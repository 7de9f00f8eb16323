//! Basic types: the words that name one may stand in any order (C99 6.7.2, 2).

ghost use Rattle.std.specs.Prelude.{◌≡◌, Some};
ghost use Rattle.cc_program.specs.declared.types.Shape.{Int as IntOf};
ghost use Rattle.cc_specifiers.specs.BasicTypes.{no_word, with_sign as with_sign_of, with_length as with_length_of, is_plain as is_plain_of, longer as longer_of, with_longer, with_int as with_int_of, with_word as with_word_of, int_by as int_by_of, char_by as char_by_of, alone as alone_of, basic_type as basic_type_of, is_no_word as is_no_word_of};

use cc_operands::lex::Word;
use cc_program::num::IntType;
use cc_syntax::Shape;

#[derive(Clone, Copy)]
pub enum Sign {
    Signed,
    Unsigned,
}

/// Which of the words that are neither a sign nor `int` stand there.
#[derive(Clone, Copy)]
pub enum Length {
    Plain,
    Void,
    Bool,
    Char,
    Short,
    Long,
    LongLong,
}

/// Words that name a type together.
#[derive(Clone, Copy)]
pub struct Basic {
    pub sign: Option<Sign>,
    pub length: Length,
    /// Whether `int` stands there.
    pub int: bool,
}

fn longer(length: Length) -> Option<Length>
    ensures { result ≡ longer_of length }
{
    match length {
        Length::Plain => Some(Length::Long),
        Length::Long => Some(Length::LongLong),
        _ => None,
    }
}

fn int_by(sign: Option<Sign>, signed: IntType, unsigned: IntType) -> IntType
    ensures { result ≡ int_by_of sign signed unsigned }
{
    match sign {
        Some(Sign::Unsigned) => unsigned,
        Some(Sign::Signed) => signed,
        None => signed,
    }
}

fn char_by(sign: Option<Sign>) -> IntType
    ensures { result ≡ char_by_of sign }
{
    match sign {
        Some(Sign::Unsigned) => IntType::UChar,
        Some(Sign::Signed) => IntType::SChar,
        None => IntType::Char,
    }
}

impl Length {
    fn is_plain(self) -> bool
        ensures { result ≡ is_plain_of self }
    {
        matches!(self, Length::Plain)
    }
}

impl Basic {
    /// No word.
    pub fn none() -> Basic
        ensures { result ≡ no_word }
    {
        Basic {
            sign: None,
            length: Length::Plain,
            int: false,
        }
    }

    fn with_sign(self, sign: Sign) -> Option<Basic>
        ensures { result ≡ with_sign_of sign self }
    {
        if self.sign.is_some() {
            None
        } else {
            Some(Basic {
                sign: Some(sign),
                length: self.length,
                int: self.int,
            })
        }
    }

    fn with_length(self, length: Length) -> Option<Basic>
        ensures { result ≡ with_length_of length self }
    {
        if self.length.is_plain() {
            Some(Basic {
                sign: self.sign,
                length,
                int: self.int,
            })
        } else {
            None
        }
    }

    fn with_long(self) -> Option<Basic>
        ensures { result ≡ with_longer self (longer_of self.length) }
    {
        match longer(self.length) {
            None => None,
            Some(length) => Some(Basic {
                sign: self.sign,
                length,
                int: self.int,
            }),
        }
    }

    fn with_int(self) -> Option<Basic>
        ensures { result ≡ with_int_of self }
    {
        if self.int {
            None
        } else {
            Some(Basic {
                sign: self.sign,
                length: self.length,
                int: true,
            })
        }
    }

    /// With a word more; None where it stands beside one that it can't stand beside.
    pub fn with_word(self, word: Word) -> Option<Basic>
        ensures { result ≡ with_word_of word self }
    {
        match word {
            Word::Void => self.with_length(Length::Void),
            Word::Bool => self.with_length(Length::Bool),
            Word::Char => self.with_length(Length::Char),
            Word::Short => self.with_length(Length::Short),
            Word::Int => self.with_int(),
            Word::Long => self.with_long(),
            Word::Signed => self.with_sign(Sign::Signed),
            Word::Unsigned => self.with_sign(Sign::Unsigned),
            _ => None,
        }
    }

    /// Whether no word stands there.
    pub fn is_none(self) -> bool
        ensures { result ≡ is_no_word_of self }
    {
        !self.sign.is_some() && (self.length.is_plain() && !self.int)
    }

    fn alone(self, shape: Shape) -> Option<Shape>
        ensures { result ≡ alone_of self shape }
    {
        if self.sign.is_some() || self.int {
            None
        } else {
            Some(shape)
        }
    }

    fn of_int(self, signed: IntType, unsigned: IntType) -> Option<Shape>
        ensures { result ≡ Some (IntOf (int_by_of self.sign signed unsigned)) }
    {
        Some(Shape::Int(int_by(self.sign, signed, unsigned)))
    }

    /// The type that the words name.
    pub fn shape(self) -> Option<Shape>
        ensures { result ≡ basic_type_of self }
    {
        match self.length {
            Length::Void => self.alone(Shape::Void),
            Length::Bool => self.alone(Shape::Int(IntType::Bool)),
            Length::Char => {
                if self.int {
                    None
                } else {
                    Some(Shape::Int(char_by(self.sign)))
                }
            }
            Length::Short => self.of_int(IntType::Short, IntType::UShort),
            Length::Long => self.of_int(IntType::Long, IntType::ULong),
            Length::LongLong => self.of_int(IntType::LongLong, IntType::ULongLong),
            Length::Plain => {
                if self.sign.is_some() || self.int {
                    self.of_int(IntType::Int, IntType::UInt)
                } else {
                    None
                }
            }
        }
    }
}
