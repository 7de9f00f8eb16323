//! The text of a refusal.

ghost use Rattle.std.specs.Prelude.{◌≡◌, ◌++◌, IfOk, OnOk, option_map};
ghost use Rattle.cc_status.specs.Causes.{word_text, offset_text, told as told_text, lex_cause as lex_text, lex_offset as lex_place, gram_cause as gram_text, gram_word as gram_name, gram_offset as gram_place, link_cause as link_text, link_word as link_name, type_cause as type_text, cause_of};

use cc_causes::LinkFault;
use cc_program::num::NoMemory;
use cc_read::ReadRefusal;
use cc_tree::GramFault;
use cc_type::TypeFault;
use cc_type::lex::LexFault;
use std::alloc::Global;

/// Puts a word behind a text, where there is one.
fn put_word(text: &mut Vec<u8>, word: Option<&[u8]>) -> Result<(), NoMemory>
    ensures { OnOk result (text.new.items ≡ text.old.items ++ word_text (option_map (λ w. w.now) word.entry)) }
{
    if let Some(word) = word {
        text.extend_from_slice(b" ")?;
        text.extend_from_slice(word)?;
    }
    Ok(())
}

/// Puts an offset behind a text, where there is one.
fn put_offset(alloc: Global, text: &mut Vec<u8>, at: Option<u32>) -> Result<(), NoMemory>
    ensures { OnOk result (text.new.items ≡ text.old.items ++ offset_text at) }
{
    if let Some(at) = at {
        let offset = format!(in alloc; "{at}")?;
        text.extend_from_slice(b" at ")?;
        text.extend_from_slice(offset.as_bytes())?;
    }
    Ok(())
}

/// A cause, the word that it has, and its offset.
fn told(
    alloc: Global,
    cause: &[u8],
    word: Option<&[u8]>,
    at: Option<u32>,
) -> Result<Vec<u8>, NoMemory>
    ensures { IfOk result (λ text. text.items ≡ told_text cause.now (option_map (λ w. w.now) word.entry) at) }
{
    let mut text = Vec::new(alloc);
    text.extend_from_slice(cause)?;
    put_word(&mut text, word)?;
    put_offset(alloc, &mut text, at)?;
    Ok(text)
}

fn lex_cause(fault: LexFault) -> &'static [u8]
    ensures { result.now ≡ lex_text fault }
{
    match fault {
        LexFault::BadByte(_) => b"badbyte",
        LexFault::OpenComment(_) => b"opencomment",
        LexFault::OpenText(_) => b"opentext",
        LexFault::BadNumber(_) => b"badnumber",
        LexFault::Directive(_) => b"directive",
        LexFault::NoMemory => b"nomemory",
    }
}

fn lex_offset(fault: LexFault) -> Option<u32>
    ensures { result ≡ lex_place fault }
{
    match fault {
        LexFault::BadByte(at)
        | LexFault::OpenComment(at)
        | LexFault::OpenText(at)
        | LexFault::BadNumber(at)
        | LexFault::Directive(at) => Some(at),
        LexFault::NoMemory => None,
    }
}

fn gram_cause(fault: &GramFault) -> &'static [u8]
    ensures { result.now ≡ gram_text fault.now }
{
    match fault {
        GramFault::Outside(_, _) => b"outside",
        GramFault::TooDeep(_) => b"toodeep",
        GramFault::Syntax(_) => b"syntax",
        GramFault::NoMemory => b"nomemory",
    }
}

fn gram_word(fault: &GramFault) -> Option<&[u8]>
    ensures { option_map (λ w. w.now) result ≡ gram_name fault.now }
{
    match fault {
        GramFault::Outside(word, _) => Some(word.all()),
        GramFault::TooDeep(_) | GramFault::Syntax(_) | GramFault::NoMemory => None,
    }
}

fn gram_offset(fault: &GramFault) -> Option<u32>
    ensures { result ≡ gram_place fault.now }
{
    match fault {
        GramFault::Outside(_, at) | GramFault::TooDeep(at) | GramFault::Syntax(at) => Some(*at),
        GramFault::NoMemory => None,
    }
}

fn link_cause(fault: &LinkFault) -> &'static [u8]
    ensures { result.now ≡ link_text fault.now }
{
    match fault {
        LinkFault::TypesDiffer(_) => b"typesdiffer",
        LinkFault::Twice(_) => b"twice",
        LinkFault::Undefined(_) => b"undefined",
        LinkFault::NoMain => b"nomain",
        LinkFault::BadHandler(_) => b"badhandler",
    }
}

fn link_word(fault: &LinkFault) -> Option<&[u8]>
    ensures { option_map (λ w. w.now) result ≡ link_name fault.now }
{
    match fault {
        LinkFault::TypesDiffer(name)
        | LinkFault::Twice(name)
        | LinkFault::Undefined(name)
        | LinkFault::BadHandler(name) => Some(name.all()),
        LinkFault::NoMain => None,
    }
}

fn type_cause(alloc: Global, fault: TypeFault) -> Result<Vec<u8>, NoMemory>
    ensures { IfOk result (λ text. text.items ≡ type_text fault) }
{
    match fault {
        TypeFault::Broken { rule, at } => {
            let rule = format!(in alloc; "{rule}")?;
            told(alloc, b"broken", Some(rule.as_bytes()), Some(at))
        }
        TypeFault::NoMemory => told(alloc, b"nomemory", None, None),
    }
}

/// The text of a refusal, which stands behind the source's name.
pub fn cause(alloc: Global, why: &ReadRefusal) -> Result<Vec<u8>, NoMemory>
    ensures { IfOk result (λ text. text.items ≡ cause_of why.now) }
{
    match why {
        ReadRefusal::Lex(fault) => told(alloc, lex_cause(*fault), None, lex_offset(*fault)),
        ReadRefusal::Gram(fault) => told(
            alloc,
            gram_cause(fault),
            gram_word(fault),
            gram_offset(fault),
        ),
        ReadRefusal::Types(fault) => type_cause(alloc, *fault),
        ReadRefusal::Link(fault) => told(alloc, link_cause(fault), link_word(fault), None),
        ReadRefusal::NoMemory => told(alloc, b"nomemory", None, None),
    }
}
