//! The text of a made source.

ghost use Rattle.std.specs.Prelude.{◌≡◌, ◌≤◌, ◌++◌, [], IfOk, OnOk};
ghost use Rattle.cc_make.specs.Source.{variable, function, clearing, call, variables, functions, clearings, calls, source as source_of, made};

use crate::counters::{Counter, counters};
use cc_num::NoMemory;
use std::alloc::Global;

/// Puts the object of a counter behind a text.
fn put_variable(alloc: Global, text: &mut Vec<u8>, number: usize) -> Result<(), NoMemory>
    ensures { OnOk result (text.new.items ≡ text.old.items ++ variable number) }
{
    let more = format!(in alloc; "unsigned char v{number};\n")?;
    text.extend_from_slice(more.as_bytes())?;
    Ok(())
}

/// Puts the objects of counters behind a text.
fn put_variables(alloc: Global, text: &mut Vec<u8>, counters: &[Counter]) -> Result<(), NoMemory>
    ensures { OnOk result (text.new.items ≡ text.old.items ++ variables counters.now) }
{
    for (number, _) in counters.iter().enumerate() {
        put_variable(alloc, text, number)?;
    }
    Ok(())
}

/// Puts the function of a counter behind a text.
fn put_function(
    alloc: Global,
    text: &mut Vec<u8>,
    number: usize,
    limit: u64,
) -> Result<(), NoMemory>
    ensures { OnOk result (text.new.items ≡ text.old.items ++ function number limit) }
{
    let head = format!(in alloc;
        "void f{number}(void) {{\n  unsigned char x;\n  x = v{number};\n"
    )?;
    text.extend_from_slice(head.as_bytes())?;
    let choice = format!(in alloc;
        "  if (x < {limit}) v{number} = x + 1; else v{number} = 0;\n}}\n"
    )?;
    text.extend_from_slice(choice.as_bytes())?;
    Ok(())
}

/// Puts the functions of counters behind a text.
fn put_functions(alloc: Global, text: &mut Vec<u8>, counters: &[Counter]) -> Result<(), NoMemory>
    ensures { OnOk result (text.new.items ≡ text.old.items ++ functions counters.now) }
{
    for (number, counter) in counters.iter().enumerate() {
        put_function(alloc, text, number, counter.limit)?;
    }
    Ok(())
}

/// Puts a line of the handler behind a text, where it clears the counter.
fn put_clearing(
    alloc: Global,
    text: &mut Vec<u8>,
    number: usize,
    cleared: bool,
) -> Result<(), NoMemory>
    ensures { OnOk result (text.new.items ≡ text.old.items ++ clearing number cleared) }
{
    if cleared {
        let more = format!(in alloc; "  v{number} = 0;\n")?;
        text.extend_from_slice(more.as_bytes())?;
    }
    Ok(())
}

/// Puts the lines of the handler behind a text.
fn put_clearings(alloc: Global, text: &mut Vec<u8>, counters: &[Counter]) -> Result<(), NoMemory>
    ensures { OnOk result (text.new.items ≡ text.old.items ++ clearings counters.now) }
{
    for (number, counter) in counters.iter().enumerate() {
        put_clearing(alloc, text, number, counter.cleared)?;
    }
    Ok(())
}

/// Puts a call of a counter's function behind a text.
fn put_call(alloc: Global, text: &mut Vec<u8>, number: usize) -> Result<(), NoMemory>
    ensures { OnOk result (text.new.items ≡ text.old.items ++ call number) }
{
    let more = format!(in alloc; "    f{number}();\n")?;
    text.extend_from_slice(more.as_bytes())?;
    Ok(())
}

/// Puts the calls of the counters' functions behind a text.
fn put_calls(alloc: Global, text: &mut Vec<u8>, counters: &[Counter]) -> Result<(), NoMemory>
    ensures { OnOk result (text.new.items ≡ text.old.items ++ calls counters.now) }
{
    for (number, _) in counters.iter().enumerate() {
        put_call(alloc, text, number)?;
    }
    Ok(())
}

/// Puts the source of counters into an empty text.
fn put_source(alloc: Global, text: &mut Vec<u8>, counters: &[Counter]) -> Result<(), NoMemory>
    requires { text.old.items ≡ [] }
    ensures { OnOk result (text.new.items ≡ source_of counters.now) }
{
    text.extend_from_slice(b"extern volatile unsigned char out;\n")?;
    put_variables(alloc, text, counters)?;
    put_functions(alloc, text, counters)?;
    text.extend_from_slice(b"__attribute__((signal)) void tick(void) {\n")?;
    put_clearings(alloc, text, counters)?;
    text.extend_from_slice(b"}\nint main(void) {\n  irq_on();\n  while (1) {\n")?;
    put_calls(alloc, text, counters)?;
    text.extend_from_slice(b"    out = v0;\n  }\n}\n")?;
    Ok(())
}

/// The source of counters.
fn source(alloc: Global, counters: &[Counter]) -> Result<Vec<u8>, NoMemory>
    ensures { IfOk result (λ text. text.items ≡ source_of counters.now) }
{
    let mut text = Vec::new(alloc);
    put_source(alloc, &mut text, counters)?;
    Ok(text)
}

/// The source of so many counters, drawn from a seed.
pub fn make(alloc: Global, seed: u64, count: u32) -> Result<Vec<u8>, NoMemory>
    requires some { 1 ≤ count }
    requires few { count ≤ 1000 }
    ensures { IfOk result (λ text. text.items ≡ made seed count) }
{
    let counters = counters(alloc, seed, count)?;
    source(alloc, &counters)
}
