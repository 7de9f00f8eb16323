//! What a text gives.

use crate::form::Form;
use crate::lines::write_unit;
use cc_gram::{GramFault, parse};
use cc_lex::lex;
use std::alloc::{AllocError, Global};

/// Writes a fault. An outside word stands there with its offset; the offsets of the others are left out.
fn write_fault(form: &mut Form, fault: &GramFault) {
    match fault {
        GramFault::Outside(name, at) => {
            form.name("Outside ", name);
            form.put(" ");
            form.number(u64::from(*at));
        }
        GramFault::TooDeep(_) => form.put("TooDeep"),
        GramFault::Syntax(_) => form.put("Syntax"),
        GramFault::NoMemory => form.put("NoMemory"),
    }
}

fn write_outcome(alloc: Global, form: &mut Form, text: &[u8]) {
    if text.len() >= 1 << 32 {
        return form.put("too long");
    }
    let Ok(tokens) = lex(alloc, text) else {
        return form.put("no tokens");
    };
    match parse(alloc, &tokens) {
        Ok(unit) => write_unit(form, &unit),
        Err(fault) => write_fault(form, &fault),
    }
}

/// The tree of a text, written with places or without, or its fault.
pub fn outcome(alloc: Global, text: &[u8], places: bool) -> Result<String, AllocError> {
    let mut form = Form::new(alloc, places);
    write_outcome(alloc, &mut form, text);
    form.finish()
}
