use cc_lex::{Mark, Suffix};
use cc_program::words::Word;

/// A piece of a printed text: a token, or what stands between tokens.
#[derive(Clone, Copy)]
pub enum Piece<'p> {
    /// An identifier, by its bytes.
    Name(&'p [u8]),
    Keyword(Word),
    /// An integer constant in decimal, with its suffix.
    Number(u128, Suffix),
    Punct(Mark),
    Space,
    LineEnd,
    /// The spaces in front of a line: two for each level.
    Indent(usize),
}

/// What a text is kept as while it is made: a symbol for each piece, and a symbol for each byte that the piece is written by, so
/// that a text of many pieces takes little memory. In the order of the text the bytes stand in front of their piece's symbol.
#[derive(Clone, Copy)]
pub enum Symbol {
    /// An identifier, of the bytes in front.
    Name,
    Keyword(Word),
    /// An integer constant, which the bytes in front write to the base 256.
    Number(Suffix),
    Punct(Mark),
    Space,
    LineEnd,
    /// What stands between tokens, of the bytes in front.
    Gap,
    Byte(u8),
}
