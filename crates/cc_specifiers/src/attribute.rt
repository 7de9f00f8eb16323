//! Attributes: which there are, and at what each has a meaning.

ghost use Rattle.std.specs.Prelude.{◌≡◌};
ghost use Rattle.std.specs.List.{list_all, list_any};
ghost use Rattle.std.specs.Str.{bytes_eq};
ghost use Rattle.cc_operands.specs.Verdicts.{Judges};
ghost use Rattle.cc_specifiers.specs.Attributes.{mode_of as mode_named, plain_attribute as plain_attribute_of, attribute_of as attribute_of_words, attributes_in as attributes_in_words, is_function as is_function_of, has_meaning as has_meaning_of, are_meant as are_meant_of, attribute_judged as attribute_judged_of, attributes as attributes_of, is_signal as is_signal_of, is_interrupt as is_interrupt_of, is_said, entry_by as entry_by_of};
ghost use Rattle.cc_specifiers.specs.Places.{JudgesAt};

use crate::fault::{BreachAt, breach_at};
use cc_operands::{Breach, Rule};
use cc_program::num::{List, Name};
use cc_syntax::Entry;
use cc_tree::{At, Attr};
use std::alloc::Global;

/// What an attribute says.
#[derive(Clone, Copy)]
pub enum Attribute {
    Signal,
    Interrupt,
    Used,
    Unused,
    ExternallyVisible,
    NoInline,
    AlwaysInline,
    /// The integer type of so many bytes.
    Mode(u8),
}

/// What an attribute is said of.
#[derive(Clone, Copy)]
pub enum Entity {
    Function,
    /// An object with static storage.
    Static,
    /// An automatic object.
    Local,
    Parameter,
    Member,
    Typedef,
    Structure,
    /// Nothing that is declared.
    Nothing,
}

fn is(name: &[u8], word: &str) -> bool
    ensures { result ≡ bytes_eq name.now word.now }
{
    name == word.as_bytes()
}

fn mode_of(name: &[u8]) -> Option<Attribute>
    ensures { result ≡ mode_named name.now }
{
    if is(name, "QI") || is(name, "__QI__") {
        Some(Attribute::Mode(1))
    } else if is(name, "HI") || is(name, "__HI__") {
        Some(Attribute::Mode(2))
    } else if is(name, "SI") || is(name, "__SI__") {
        Some(Attribute::Mode(4))
    } else if is(name, "DI") || is(name, "__DI__") {
        Some(Attribute::Mode(8))
    } else {
        None
    }
}

fn plain_attribute(name: &[u8]) -> Option<Attribute>
    ensures { result ≡ plain_attribute_of name.now }
{
    if is(name, "signal") || is(name, "__signal__") {
        Some(Attribute::Signal)
    } else if is(name, "interrupt") || is(name, "__interrupt__") {
        Some(Attribute::Interrupt)
    } else if is(name, "used") || is(name, "__used__") {
        Some(Attribute::Used)
    } else if is(name, "unused") || is(name, "__unused__") {
        Some(Attribute::Unused)
    } else if is(name, "externally_visible") || is(name, "__externally_visible__") {
        Some(Attribute::ExternallyVisible)
    } else if is(name, "noinline") || is(name, "__noinline__") {
        Some(Attribute::NoInline)
    } else if is(name, "always_inline") || is(name, "__always_inline__") {
        Some(Attribute::AlwaysInline)
    } else {
        None
    }
}

/// The attribute that a word is, with its argument where it has one.
fn attribute_of(name: &[u8], argument: &Option<Name>) -> Option<Attribute>
    ensures { result ≡ attribute_of_words name.now argument.now }
{
    match argument {
        None => plain_attribute(name),
        Some(argument) => {
            if is(name, "mode") || is(name, "__mode__") {
                mode_of(argument.all())
            } else {
                None
            }
        }
    }
}

/// What the words of an attribute say.
#[tactic(auto, using(crate::proofs::Lists::of_lists))]
pub fn attributes_in(
    alloc: Global,
    words: &[(Name, Option<Name>)],
) -> Result<List<Attribute>, Breach>
    ensures { Judges (λ ms. ms) result (attributes_in_words words.now) }
{
    let mut out = Vec::new(alloc);
    for word in words {
        let Some(m) = attribute_of(word.0.all(), &word.1) else {
            return Err(Breach::Breaks(Rule::Attribute));
        };
        out.push(m)?;
    }
    Ok(List::of(out))
}

impl Entity {
    /// Whether it is a function.
    pub fn is_function(self) -> bool
        ensures { result ≡ is_function_of self }
    {
        matches!(self, Entity::Function)
    }
}

/// Whether an attribute has a meaning there.
pub fn has_meaning(entity: Entity, attribute: Attribute) -> bool
    ensures { result ≡ has_meaning_of entity attribute }
{
    match attribute {
        Attribute::Signal => entity.is_function(),
        Attribute::Interrupt => entity.is_function(),
        Attribute::NoInline => entity.is_function(),
        Attribute::AlwaysInline => entity.is_function(),
        Attribute::Used => matches!(entity, Entity::Function | Entity::Static),
        Attribute::ExternallyVisible => matches!(entity, Entity::Function | Entity::Static),
        Attribute::Unused => !matches!(entity, Entity::Nothing),
        Attribute::Mode(_) => matches!(entity, Entity::Typedef),
    }
}

fn all_have_meaning(entity: Entity, attributes: &[Attribute]) -> bool
    ensures { result ≡ list_all (has_meaning_of entity) attributes.now }
{
    attributes.iter().all(|m| has_meaning(entity, *m))
}

/// Whether the attributes have a meaning at each of these.
pub fn are_meant(entities: &[Entity], attributes: &[Attribute]) -> bool
    ensures { result ≡ are_meant_of entities.now attributes.now }
{
    entities
        .iter()
        .all(|entity| all_have_meaning(*entity, attributes))
}

fn attribute_judged(
    alloc: Global,
    entities: &[Entity],
    words: &[(Name, Option<Name>)],
) -> Result<List<Attribute>, Breach>
    ensures { Judges (λ ms. ms) result (attribute_judged_of entities.now words.now) }
{
    let ms = attributes_in(alloc, words)?;
    if are_meant(entities, ms.all()) {
        Ok(ms)
    } else {
        Err(Breach::Breaks(Rule::Attribute))
    }
}

/// What attributes say of each of these, behind a declarator or at a structure.
#[tactic(auto, using(crate::proofs::Lists::of_lists))]
pub fn attributes(
    alloc: Global,
    entities: &[Entity],
    attrs: &[At<Attr>],
) -> Result<List<At<List<Attribute>>>, BreachAt>
    ensures { JudgesAt (λ marks. marks) result (attributes_of entities.now attrs.now) }
{
    let mut out = Vec::new(alloc);
    for a in attrs {
        match attribute_judged(alloc, entities, a.node.words.all()) {
            Ok(node) => out.push(At { at: a.at, node })?,
            Err(broken) => return Err(breach_at(a.at, broken)),
        }
    }
    Ok(List::of(out))
}

fn is_signal(attribute: Attribute) -> bool
    ensures { result ≡ is_signal_of attribute }
{
    matches!(attribute, Attribute::Signal)
}

fn is_interrupt(attribute: Attribute) -> bool
    ensures { result ≡ is_interrupt_of attribute }
{
    matches!(attribute, Attribute::Interrupt)
}

fn says_signal(attributes: &[Attribute]) -> bool
    ensures { result ≡ list_any is_signal_of attributes.now }
{
    attributes.iter().any(|m| is_signal(*m))
}

fn says_interrupt(attributes: &[Attribute]) -> bool
    ensures { result ≡ list_any is_interrupt_of attributes.now }
{
    attributes.iter().any(|m| is_interrupt(*m))
}

fn is_signal_said(marks: &[At<List<Attribute>>]) -> bool
    ensures { result ≡ is_said is_signal_of marks.now }
{
    marks.iter().any(|ms| says_signal(ms.node.all()))
}

fn is_interrupt_said(marks: &[At<List<Attribute>>]) -> bool
    ensures { result ≡ is_said is_interrupt_of marks.now }
{
    marks.iter().any(|ms| says_interrupt(ms.node.all()))
}

/// How attributes make a function a handler: `signal` wins over `interrupt`.
pub fn entry_by(marks: &[At<List<Attribute>>]) -> Option<Entry>
    ensures { result ≡ entry_by_of marks.now }
{
    if is_signal_said(marks) {
        Some(Entry::Signal)
    } else if is_interrupt_said(marks) {
        Some(Entry::Interrupt)
    } else {
        None
    }
}
