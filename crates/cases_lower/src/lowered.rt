//! What a source is lowered to.

ghost use Rattle.std.specs.Prelude.{◌≤◌, length, map, sum, IfSome};
ghost use Rattle.cc_read.specs.Texts.{bytes_of as bytes_of_all};

use cases_script::bytes_of;
use cc_cost::read_profile;
use cc_discard::discard_program;
use cc_lower::lower;
use cc_normal::is_normal;
use cc_print::print;
use cc_program::Program;
use cc_read::read;
use cc_sound::is_sound;
use std::alloc::{AllocError, Global};

/// The most bytes of a case.
const TOTAL_LIMIT: usize = 4 << 20;

/// What stands in front of the body of `main` in a text.
const BODY: &str = "int main(void) {\n";

/// The one text of a case, where it isn't too long.
#[tactic(auto, using(crate::proofs::Totals::of_totals))]
fn texts_of(alloc: Global, source: &str) -> Option<Vec<Vec<u8>>>
    ensures few { IfSome result (λ texts. length texts.items ≤ 64) }
    ensures small { IfSome result (λ texts. sum (map length (bytes_of_all texts.items)) ≤ 4194304) }
{
    let text = bytes_of(alloc, source).ok()?;
    if text.len() > TOTAL_LIMIT {
        return None;
    }
    let mut texts = Vec::new(alloc);
    texts.push(text).ok()?;
    Some(texts)
}

/// The program of a source under the default profile.
fn program_of(alloc: Global, source: &str) -> Option<Program> {
    let profile = read_profile(alloc, b"").ok()?;
    let texts = texts_of(alloc, source)?;
    read(alloc, texts.as_slice(), &profile.target, &profile.roles).ok()
}

/// The text of a program, where it is in normal form.
fn text_of(alloc: Global, p: &Program) -> Option<String> {
    if !is_normal(p) {
        return None;
    }
    String::from_utf8(print(alloc, p).ok()?).ok()
}

/// The text of the program that a source is lowered to.
fn lowered_text(alloc: Global, source: &str) -> Option<String> {
    let p = program_of(alloc, source)?;
    if !is_sound(&p) {
        return None;
    }
    let p = lower(alloc, p).ok()?;
    let text = text_of(alloc, &p);
    discard_program(p);
    text
}

/// The body of `main`, which stands last in a text, without the last brace.
fn body_of(text: &str) -> &str {
    let body = text.rsplit_once(BODY).map_or("", |parts| parts.1);
    body.strip_suffix("}\n").unwrap_or(body)
}

/// Writes what a case gives.
pub fn write_lowered(alloc: Global, front: &str, case: &str) -> Result<String, AllocError> {
    let is_whole = front.is_empty();
    let source = if is_whole {
        format!(in alloc; "{case}")?
    } else {
        format!(in alloc; "{front} int main(void) {{ {case} }}")?
    };
    let mut out = String::new(alloc);
    match lowered_text(alloc, source.as_str()) {
        None => out.push_str("refused\n")?,
        Some(text) => out.push_str(if is_whole {
            text.as_str()
        } else {
            body_of(text.as_str())
        })?,
    }
    Ok(out)
}
