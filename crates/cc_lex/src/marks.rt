//! Punctuators (C99 6.4.6).

ghost use Rattle.std.specs.Prelude.{◌≡◌, ◌≤◌, length, find};
ghost use Rattle.cc_lex.specs.Marks.{spelling_of};
ghost use Rattle.cc_lex.specs.Scan.{mark_of as longest_mark};

use crate::token::Mark;

/// The marks, the longest first.
const MARKS: [Mark; 46] = [
    Mark::Dots,
    Mark::ShlAssign,
    Mark::ShrAssign,
    Mark::Arrow,
    Mark::PlusPlus,
    Mark::MinusMinus,
    Mark::Shl,
    Mark::Shr,
    Mark::Le,
    Mark::Ge,
    Mark::EqEq,
    Mark::NotEq,
    Mark::AndAnd,
    Mark::OrOr,
    Mark::StarAssign,
    Mark::SlashAssign,
    Mark::PercentAssign,
    Mark::PlusAssign,
    Mark::MinusAssign,
    Mark::AndAssign,
    Mark::XorAssign,
    Mark::OrAssign,
    Mark::LBracket,
    Mark::RBracket,
    Mark::LParen,
    Mark::RParen,
    Mark::LBrace,
    Mark::RBrace,
    Mark::Dot,
    Mark::Amp,
    Mark::Star,
    Mark::Plus,
    Mark::Minus,
    Mark::Tilde,
    Mark::Bang,
    Mark::Slash,
    Mark::Percent,
    Mark::Lt,
    Mark::Gt,
    Mark::Caret,
    Mark::Bar,
    Mark::Question,
    Mark::Colon,
    Mark::Semi,
    Mark::Assign,
    Mark::Comma,
];

/// How a mark is spelled.
pub fn spelling(mark: Mark) -> &'static str
    ensures { result.now ≡ spelling_of mark }
{
    match mark {
        Mark::LBracket => "[",
        Mark::RBracket => "]",
        Mark::LParen => "(",
        Mark::RParen => ")",
        Mark::LBrace => "{",
        Mark::RBrace => "}",
        Mark::Dot => ".",
        Mark::Arrow => "->",
        Mark::PlusPlus => "++",
        Mark::MinusMinus => "--",
        Mark::Amp => "&",
        Mark::Star => "*",
        Mark::Plus => "+",
        Mark::Minus => "-",
        Mark::Tilde => "~",
        Mark::Bang => "!",
        Mark::Slash => "/",
        Mark::Percent => "%",
        Mark::Shl => "<<",
        Mark::Shr => ">>",
        Mark::Lt => "<",
        Mark::Gt => ">",
        Mark::Le => "<=",
        Mark::Ge => ">=",
        Mark::EqEq => "==",
        Mark::NotEq => "!=",
        Mark::Caret => "^",
        Mark::Bar => "|",
        Mark::AndAnd => "&&",
        Mark::OrOr => "||",
        Mark::Question => "?",
        Mark::Colon => ":",
        Mark::Semi => ";",
        Mark::Dots => "...",
        Mark::Assign => "=",
        Mark::StarAssign => "*=",
        Mark::SlashAssign => "/=",
        Mark::PercentAssign => "%=",
        Mark::PlusAssign => "+=",
        Mark::MinusAssign => "-=",
        Mark::ShlAssign => "<<=",
        Mark::ShrAssign => ">>=",
        Mark::AndAssign => "&=",
        Mark::XorAssign => "^=",
        Mark::OrAssign => "|=",
        Mark::Comma => ",",
    }
}

/// The longest mark at the front of the text.
#[tactic(auto, unfolding(crate::specs::Scan::mark_of))]
pub fn mark_of(text: &[u8]) -> Option<Mark>
    ensures { result ≡ longest_mark text.now }
{
    MARKS
        .iter()
        .copied()
        .find(|mark| text.starts_with(spelling(*mark).as_bytes()))
}
