//! The tokens of a text, as `AT+LEN KIND;` each, or why it has none.
//!
//! A kind is `i` and a name, `k` and a keyword, `n` and a number with `d` where it is decimal and its suffix,
//! `c` and a character's byte, `t` and a text's bytes, or `m` and a mark.

use cases_script::{Page, bytes_of};
use cc_lex::{Kind, Suffix, Token, lex};
use std::alloc::Global;

fn write_number(page: &mut Page, value: u64, suffix: Suffix) {
    page.put("n ");
    page.show(value);
    page.put(if suffix.decimal { "d" } else { "" });
    page.put(if suffix.unsigned { "u" } else { "" });
    page.put(match suffix.longs {
        0 => "",
        1 => "l",
        _ => "ll",
    });
}

fn write_text(page: &mut Page, bytes: &[u8]) {
    page.put("t");
    for byte in bytes {
        page.put(" ");
        page.show(*byte);
    }
}

fn write_kind(page: &mut Page, kind: &Kind) {
    match kind {
        Kind::Ident(name) => {
            page.put("i ");
            page.bytes(name.all());
        }
        Kind::Keyword(word) => {
            page.put("k ");
            page.debug(*word);
        }
        Kind::Number(value, suffix) => write_number(page, *value, *suffix),
        Kind::Character(byte) => {
            page.put("c ");
            page.show(*byte);
        }
        Kind::Text(bytes) => write_text(page, bytes.all()),
        Kind::Punct(mark) => {
            page.put("m ");
            page.debug(*mark);
        }
    }
}

fn write_tokens(page: &mut Page, tokens: &[Token]) {
    for token in tokens {
        page.put(" ");
        page.show(token.at);
        page.put("+");
        page.show(token.len);
        page.put(" ");
        write_kind(page, &token.kind);
        page.put(";");
    }
}

/// Writes what a text gives.
pub fn write_outcome(alloc: Global, page: &mut Page, case: &str) {
    let Ok(text) = bytes_of(alloc, case) else {
        return page.put(" no memory");
    };
    if text.len() >= 1 << 32 {
        return page.put(" too long");
    }
    match lex(alloc, &text) {
        Ok(tokens) => write_tokens(page, &tokens),
        Err(fault) => {
            page.put(" ");
            page.debug(fault);
        }
    }
}
