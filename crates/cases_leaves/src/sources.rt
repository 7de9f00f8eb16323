//! Made sources.

use cases_script::{Page, split};
use cc_make::make;
use std::alloc::Global;

/// Writes the source that a case asks for.
pub fn write_outcome(alloc: Global, page: &mut Page, case: &str) {
    let (seed, count) = split(case);
    let (Ok(seed), Ok(count)) = (seed.parse::<u64>(), count.parse::<u32>()) else {
        return page.put("unclear");
    };
    if count < 1 || count > 1000 {
        return page.put("unclear");
    }
    match make(alloc, seed, count) {
        Ok(text) => page.bytes(&text),
        Err(_) => page.put("no memory"),
    }
}
