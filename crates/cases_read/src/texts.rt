//! What a case is read with.

ghost use Rattle.std.specs.Prelude.{◌≡◌, ◌≤◌, ◌+◌, length, map, sum, IfSome};
ghost use Rattle.cc_read.specs.Texts.{bytes_of as bytes_of_all};

use cases_script::bytes_of;
use cc_cost::{Profile, read_profile};
use std::alloc::Global;

/// The most texts of a case.
const TEXT_LIMIT: usize = 64;

/// The most bytes of a case.
const TOTAL_LIMIT: usize = 4 << 20;

/// The default profile with these handlers.
pub fn profile_of(alloc: Global, handlers: &str) -> Option<Profile> {
    let mut rows = String::new(alloc);
    for name in handlers.split_whitespace() {
        rows.push_str("handler,").ok()?;
        rows.push_str(name).ok()?;
        rows.push_str(",\n").ok()?;
    }
    if rows.len() > TOTAL_LIMIT {
        return None;
    }
    read_profile(alloc, rows.as_bytes()).ok()
}

/// Puts a text behind others, where it has no more bytes than are left and is not one too many; what is left then.
#[tactic(auto, using(crate::proofs::Totals::of_totals))]
fn put(texts: &mut Vec<Vec<u8>>, text: Vec<u8>, left: usize) -> Option<usize>
    ensures few { IfSome result (λ rest. length texts.new.items ≤ 64) }
    ensures total { IfSome result (λ rest. rest + sum (map length (bytes_of_all texts.new.items)) ≡ left + sum (map length (bytes_of_all texts.old.items))) }
{
    if texts.len() >= TEXT_LIMIT || text.len() > left {
        return None;
    }
    let rest = left - text.len();
    texts.push(text).ok()?;
    Some(rest)
}

/// The texts of a case.
#[tactic(auto, using(crate::proofs::Totals::of_totals))]
pub fn texts_of(alloc: Global, case: &str) -> Option<Vec<Vec<u8>>>
    ensures few { IfSome result (λ texts. length texts.items ≤ 64) }
    ensures small { IfSome result (λ texts. sum (map length (bytes_of_all texts.items)) ≤ 4194304) }
{
    let mut texts = Vec::new(alloc);
    let mut left = TOTAL_LIMIT;
    for part in case.split(" <> ") {
        let text = bytes_of(alloc, part).ok()?;
        left = put(&mut texts, text, left)?;
    }
    Some(texts)
}
