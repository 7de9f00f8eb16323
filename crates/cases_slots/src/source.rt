//! A source, read and lowered under a profile.

ghost use Rattle.std.specs.Prelude.{◌≤◌, length, map, sum, IfSome};
ghost use Rattle.cc_read.specs.Texts.{bytes_of as bytes_of_all};

use crate::asked::Asked;
use crate::planned::write_answer;
use cases_script::{Page, bytes_of};
use cc_cost::{Profile, read_profile};
use cc_discard::discard_program;
use cc_lower::lower;
use cc_program::Program;
use cc_read::read;
use cc_sound::is_sound;
use std::alloc::{AllocError, Global};

/// The most bytes of each text of a case.
const TEXT_LIMIT: usize = 2 << 20;

/// The two texts of a case, where they aren't too long. Where there is one alone, the other is empty.
#[tactic(auto, using(crate::proofs::Totals::of_totals))]
fn texts_of(alloc: Global, case: &str) -> Option<Vec<Vec<u8>>>
    ensures few { IfSome result (λ texts. length texts.items ≤ 64) }
    ensures small { IfSome result (λ texts. sum (map length (bytes_of_all texts.items)) ≤ 4194304) }
{
    let (first, second) = case.split_once(" <> ").unwrap_or((case, ""));
    let first = bytes_of(alloc, first).ok()?;
    let second = bytes_of(alloc, second).ok()?;
    if first.len() > TEXT_LIMIT || second.len() > TEXT_LIMIT {
        return None;
    }
    let mut texts = Vec::new(alloc);
    texts.push(first).ok()?;
    texts.push(second).ok()?;
    Some(texts)
}

/// The program of a source in normal form, if it is one.
fn program_of(alloc: Global, profile: &Profile, case: &str) -> Option<Program> {
    let texts = texts_of(alloc, case)?;
    let p = read(alloc, texts.as_slice(), &profile.target, &profile.roles).ok()?;
    if !is_sound(&p) {
        return None;
    }
    lower(alloc, p).ok()
}

/// The profile of some rows, where they aren't too long.
fn profile_of(alloc: Global, rows: &[u8]) -> Option<Profile> {
    if rows.len() > TEXT_LIMIT {
        return None;
    }
    read_profile(alloc, rows).ok()
}

/// Writes what is asked of a source, if it is a program.
fn write_source(alloc: Global, page: &mut Page, asked: &Asked, case: &str) -> Option<()> {
    let profile = profile_of(alloc, asked.rows.as_bytes())?;
    let p = program_of(alloc, &profile, case)?;
    let answer = write_answer(alloc, page, asked.question.as_str(), &p, &profile);
    discard_program(p);
    answer
}

/// Writes what a case gives.
pub fn write_outcome(alloc: Global, asked: &Asked, case: &str) -> Result<String, AllocError> {
    let mut page = Page::new(alloc);
    if write_source(alloc, &mut page, asked, case).is_none() {
        page.put("refused\n");
    }
    page.finish()
}
