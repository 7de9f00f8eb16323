use cc_num::{List, Name};
use cc_words::Word;

/// A token, and where it stands: its spelling is the `len` bytes of the text from byte `at` on.
#[derive(Drop)]
pub struct Token {
    pub at: u32,
    pub len: u32,
    pub kind: Kind,
}

/// What a token is (C99 6.4).
#[derive(Drop)]
pub enum Kind {
    /// An identifier that is no keyword, by its bytes.
    Ident(Name),
    Keyword(Word),
    /// An integer constant: its value, and what decides its type.
    Number(u64, Suffix),
    /// An integer character constant of one element: its byte.
    Character(u8),
    /// A string literal: its bytes, without the zero that ends it.
    Text(List<u8>),
    Punct(Mark),
}

/// What decides the type of an integer constant (C99 6.4.4.1, 5).
#[derive(Clone, Copy)]
pub struct Suffix {
    /// The constant is decimal: its first digit isn't 0.
    pub decimal: bool,
    /// It has a suffix u.
    pub unsigned: bool,
    /// 1 for a suffix l, 2 for ll, else 0.
    pub longs: u8,
}

/// A punctuator (C99 6.4.6).
#[derive(Clone, Copy, Debug, PartialEq, Eq)]
pub enum Mark {
    /// `[`
    LBracket,
    /// `]`
    RBracket,
    /// `(`
    LParen,
    /// `)`
    RParen,
    /// `{`
    LBrace,
    /// `}`
    RBrace,
    /// `.`
    Dot,
    /// `->`
    Arrow,
    /// `++`
    PlusPlus,
    /// `--`
    MinusMinus,
    /// `&`
    Amp,
    /// `*`
    Star,
    /// `+`
    Plus,
    /// `-`
    Minus,
    /// `~`
    Tilde,
    /// `!`
    Bang,
    /// `/`
    Slash,
    /// `%`
    Percent,
    /// `<<`
    Shl,
    /// `>>`
    Shr,
    /// `<`
    Lt,
    /// `>`
    Gt,
    /// `<=`
    Le,
    /// `>=`
    Ge,
    /// `==`
    EqEq,
    /// `!=`
    NotEq,
    /// `^`
    Caret,
    /// `|`
    Bar,
    /// `&&`
    AndAnd,
    /// `||`
    OrOr,
    /// `?`
    Question,
    /// `:`
    Colon,
    /// `;`
    Semi,
    /// `...`
    Dots,
    /// `=`
    Assign,
    /// `*=`
    StarAssign,
    /// `/=`
    SlashAssign,
    /// `%=`
    PercentAssign,
    /// `+=`
    PlusAssign,
    /// `-=`
    MinusAssign,
    /// `<<=`
    ShlAssign,
    /// `>>=`
    ShrAssign,
    /// `&=`
    AndAssign,
    /// `^=`
    XorAssign,
    /// `|=`
    OrAssign,
    /// `,`
    Comma,
}
