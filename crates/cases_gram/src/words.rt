//! How operators and words are spelled in the written form.

use cc_lex::{Mark, Word};

fn arithmetic(mark: Mark) -> &'static str {
    match mark {
        Mark::PlusPlus => "++",
        Mark::MinusMinus => "--",
        Mark::Star => "*",
        Mark::Slash => "/",
        Mark::Percent => "%",
        Mark::Plus => "+",
        Mark::Minus => "-",
        Mark::Shl => "<<",
        Mark::Shr => ">>",
        _ => "no operator",
    }
}

/// An operator of one operand or two.
pub fn operator(mark: Mark) -> &'static str {
    match mark {
        Mark::Tilde => "~",
        Mark::Bang => "!",
        Mark::Lt => "<",
        Mark::Gt => ">",
        Mark::Le => "<=",
        Mark::Ge => ">=",
        Mark::EqEq => "==",
        Mark::NotEq => "!=",
        Mark::Amp => "&",
        Mark::Caret => "^",
        Mark::Bar => "|",
        Mark::AndAnd => "&&",
        Mark::OrOr => "||",
        _ => arithmetic(mark),
    }
}

/// An assignment.
pub fn assignment(mark: Mark) -> &'static str {
    match mark {
        Mark::Assign => "=",
        Mark::StarAssign => "*=",
        Mark::SlashAssign => "/=",
        Mark::PercentAssign => "%=",
        Mark::PlusAssign => "+=",
        Mark::MinusAssign => "-=",
        Mark::ShlAssign => "<<=",
        Mark::ShrAssign => ">>=",
        Mark::AndAssign => "&=",
        Mark::XorAssign => "^=",
        Mark::OrAssign => "|=",
        _ => "no assignment",
    }
}

/// A word of specifiers.
pub fn spelled(word: Word) -> &'static str {
    match word {
        Word::Typedef => "typedef",
        Word::Extern => "extern",
        Word::Static => "static",
        Word::Auto => "auto",
        Word::Register => "register",
        Word::Const => "const",
        Word::Volatile => "volatile",
        Word::Restrict => "restrict",
        Word::Inline => "inline",
        Word::Void => "void",
        Word::Char => "char",
        Word::Short => "short",
        Word::Int => "int",
        Word::Long => "long",
        Word::Signed => "signed",
        Word::Unsigned => "unsigned",
        Word::Bool => "_Bool",
        Word::Extension => "__extension__",
        _ => "no specifier",
    }
}
