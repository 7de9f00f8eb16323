//! Programs in normal form, and their texts.

ghost use Rattle.cc_states.specs.CcSyntax.Normal.{IsNormal};

use cases_script::Page;
use cc_normal::is_normal;
use cc_print::print;
use cc_program::Program;
use std::alloc::Global;

/// Writes whether a program is in normal form.
pub fn write_form(page: &mut Page, p: &Program) {
    page.put(if is_normal(p) { "normal" } else { "not normal" });
}

/// Writes the text of a program in normal form.
fn put_text(alloc: Global, page: &mut Page, p: &Program) -> Option<()>
    requires { IsNormal p.now }
{
    let text = print(alloc, p).ok()?;
    page.bytes(&text);
    Some(())
}

/// Writes the text of a program, if it is in normal form; `None` where memory runs out.
pub fn write_text(alloc: Global, page: &mut Page, p: &Program) -> Option<()> {
    if is_normal(p) {
        put_text(alloc, page, p)
    } else {
        page.put("not normal");
        Some(())
    }
}
