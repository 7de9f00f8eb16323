//! The program that a source is lowered to.

ghost use Rattle.std.specs.Prelude.{◌≤◌, length, map, sum, IfSome};
ghost use Rattle.cc_read.specs.Texts.{bytes_of as bytes_of_all};

use cases_script::bytes_of;
use cc_cost::{Profile, read_profile};
use cc_lower::lower;
use cc_program::Program;
use cc_read::read;
use cc_sound::is_sound;
use std::alloc::Global;

/// The most bytes of a source, and of a profile.
const TOTAL_LIMIT: usize = 4 << 20;

/// The one text of a source, where it isn't too long.
#[tactic(auto, using(crate::proofs::Totals::of_totals))]
fn texts_of(alloc: Global, source: &str) -> Option<Vec<Vec<u8>>>
    ensures few { IfSome result (λ texts. length texts.items ≤ 64) }
    ensures small { IfSome result (λ texts. sum (map length (bytes_of_all texts.items)) ≤ 4194304) }
{
    let text = bytes_of(alloc, source).ok()?;
    if text.len() > TOTAL_LIMIT {
        return None;
    }
    let mut texts = Vec::new(alloc);
    texts.push(text).ok()?;
    Some(texts)
}

/// The profile with a row for each word.
fn profile_of(alloc: Global, words: &str) -> Option<Profile> {
    let mut text = Vec::new(alloc);
    for word in words.split_whitespace() {
        text.extend_from_slice(word.as_bytes()).ok()?;
        text.push(b'\n').ok()?;
    }
    if text.len() > TOTAL_LIMIT {
        return None;
    }
    read_profile(alloc, &text).ok()
}

/// The rows of a profile in front of a source, and the source.
fn parts_of(setting: &str) -> (&str, &str) {
    match setting.strip_prefix('[') {
        None => ("", setting),
        Some(rest) => rest.split_once("] ").unwrap_or(("", rest)),
    }
}

/// The program of a source, which stands behind rows of a profile.
fn read_program(alloc: Global, setting: &str) -> Option<Program> {
    let (rows, source) = parts_of(setting);
    let profile = profile_of(alloc, rows)?;
    let texts = texts_of(alloc, source)?;
    read(alloc, texts.as_slice(), &profile.target, &profile.roles).ok()
}

/// The program that a source is lowered to.
pub fn lowered_program(alloc: Global, setting: &str) -> Option<Program> {
    let p = read_program(alloc, setting)?;
    if !is_sound(&p) {
        return None;
    }
    lower(alloc, p).ok()
}
