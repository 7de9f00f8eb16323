//! Texts with parts that are repeated, and how high their trees are.

use cases_script::Page;
use std::alloc::{AllocError, Global};

/// What stands before the first backquote of a text, and behind it.
fn cut(text: &str) -> (&str, &str) {
    text.split_once('`').unwrap_or((text, ""))
}

fn put_often(page: &mut Page, part: &str, times: usize) {
    for _ in 0..times {
        page.put(part);
    }
}

/// A text in which the part between the first two backquotes and the part between two further ones are repeated so
/// often.
pub fn repeated(alloc: Global, text: &str, times: usize) -> Result<String, AllocError> {
    let (front, rest) = cut(text);
    let (first, rest) = cut(rest);
    let (middle, rest) = cut(rest);
    let (second, back) = cut(rest);
    let mut page = Page::new(alloc);
    page.put(front);
    put_often(&mut page, first, times);
    page.put(middle);
    put_often(&mut page, second, times);
    page.put(back);
    page.finish()
}

/// How deep the parentheses and brackets of a written tree nest, which is the height of the tree.
pub fn height(tree: &str) -> usize {
    let mut open: usize = 0;
    let mut most: usize = 0;
    for byte in tree.as_bytes() {
        match *byte {
            b'(' | b'[' => open = open.saturating_add(1),
            b')' | b']' => open = open.saturating_sub(1),
            _ => {}
        }
        most = most.max(open);
    }
    most
}
