//! Classes of structures, split until two of one class have parts of one class each.

ghost use Rattle.std.specs.Prelude.{◌≡◌, IfOk, slice_get, map, take, drop, [], length};
ghost use Rattle.cc_structures.specs.Classes.{class_numbers as class_numbers_of, distinct, same_list};
ghost use Rattle.cc_structures.specs.Looks.{node_of};
ghost use Rattle.cc_structures.specs.Refined.{by_source as by_source_of, node_key, IsCoarsest, IsCounted, IsSplit};
ghost use Rattle.cc_structures.specs.Structures.{number_at as number_at_of, structures};
ghost use Rattle.cc_structures.specs.View.{node_view, nodes_of, lists_of, same_look, units_of};

use crate::classes::{Classes, class_numbers};
use crate::looks::Look;
use crate::nodes::Node;
use cc_program::num::{List, NoMemory, at};
use cc_things::Text;
use std::alloc::Global;

/// Numbers of all structures, source by source.
#[derive(Drop)]
pub struct Numbers {
    pub numbers: Vec<List<u32>>,
    /// How many classes there are.
    pub count: usize,
}

/// The number of a structure of a source, or 0.
pub fn number_at(numbers: &[List<u32>], text: u32, position: u32) -> u32
    ensures { result ≡ number_at_of numbers.now text position }
{
    match at(numbers, text as usize) {
        None => 0,
        Some(numbers) => match at(numbers.all(), position as usize) {
            None => 0,
            Some(number) => *number,
        },
    }
}

/// So many numbers in front, and the others.
fn split_front<'t>(numbers: &'t [u32], count: usize) -> (&'t [u32], &'t [u32])
    ensures front { result.0.now ≡ take count numbers.now }
    ensures others { result.1.now ≡ drop count numbers.now }
{
    if count <= numbers.len() {
        numbers.split_at(count)
    } else {
        (numbers, &[])
    }
}

/// Numbers one behind the other, source by source.
#[tactic(auto, using(crate::proofs::SourceLemmas::of_sources))]
pub fn by_source(alloc: Global, texts: &[Text], numbers: &[u32]) -> Result<Vec<List<u32>>, NoMemory>
    ensures { IfOk result (λ r. r.items ≡ by_source_of (units_of texts.now) numbers.now) }
{
    let mut sources = Vec::new(alloc);
    let mut rest = numbers;
    for x in texts {
        let parts = split_front(rest, x.unit.structures.all().len());
        sources.push(List::of(Vec::from_slice(alloc, parts.0)?))?;
        rest = parts.1;
    }
    Ok(sources)
}

/// By what the class of a structure is split: its number, and those of the classes of its parts.
fn key_of(alloc: Global, numbers: &[List<u32>], node: &Node<'_>) -> Result<Vec<u32>, NoMemory>
    ensures { IfOk result (λ key. key.items ≡ node_key numbers.now (node_view node.now)) }
{
    let text = node.known.text;
    let mut key = Vec::new(alloc);
    key.push(number_at(numbers, text, node.known.position))?;
    for part in node.parts.as_slice() {
        key.push(number_at(numbers, text, *part))?;
    }
    Ok(key)
}

#[tactic(auto, using(crate::proofs::KeyLemmas::of_keys))]
fn keys_of(
    alloc: Global,
    numbers: &[List<u32>],
    nodes: &[Node<'_>],
) -> Result<Vec<Vec<u32>>, NoMemory>
    ensures { IfOk result (λ keys. lists_of keys.items ≡ map (node_key numbers.now) (nodes_of nodes.now)) }
{
    let mut keys = Vec::new(alloc);
    for node in nodes {
        keys.push(key_of(alloc, numbers, node)?)?;
    }
    Ok(keys)
}

/// The numbers of classes, source by source.
fn numbered(alloc: Global, texts: &[Text], classes: Classes) -> Result<Numbers, NoMemory>
    ensures numbers { IfOk result (λ r. r.numbers.items ≡ by_source_of (units_of texts.now) classes.numbers.items) }
    ensures count { IfOk result (λ r. r.count ≡ classes.count) }
{
    let numbers = by_source(alloc, texts, classes.numbers.as_slice())?;
    Ok(Numbers {
        numbers,
        count: classes.count,
    })
}

/// The classes of looks.
pub fn by_looks(alloc: Global, texts: &[Text], looks: Vec<Look<'_>>) -> Result<Numbers, NoMemory>
    ensures numbers { IfOk result (λ r. r.numbers.items ≡ by_source_of (units_of texts.now) (class_numbers_of same_look looks.entry.items)) }
    ensures count { IfOk result (λ r. r.count ≡ length (distinct same_look looks.entry.items)) }
{
    let classes = class_numbers(alloc, looks)?;
    numbered(alloc, texts, classes)
}

/// The classes by lists of numbers.
pub fn by_lists(alloc: Global, texts: &[Text], keys: Vec<Vec<u32>>) -> Result<Numbers, NoMemory>
    ensures numbers { IfOk result (λ r. r.numbers.items ≡ by_source_of (units_of texts.now) (class_numbers_of same_list keys.items)) }
    ensures count { IfOk result (λ r. r.count ≡ length (distinct same_list keys.items)) }
{
    let classes = class_numbers(alloc, keys)?;
    numbered(alloc, texts, classes)
}

/// Splits each class once.
fn split(
    alloc: Global,
    texts: &[Text],
    nodes: &[Node<'_>],
    numbers: &[List<u32>],
) -> Result<Numbers, NoMemory>
    ensures { IfOk result (λ r. IsSplit (units_of texts.now) (nodes_of nodes.now) numbers.now r.numbers.items r.count) }
{
    let keys = keys_of(alloc, numbers, nodes)?;
    by_lists(alloc, texts, keys)
}

/// Splits classes until their number stays.
pub fn refined(
    alloc: Global,
    texts: &[Text],
    nodes: &[Node<'_>],
    start: Numbers,
) -> Result<Vec<List<u32>>, NoMemory>
    requires nodes { nodes_of nodes.now ≡ map node_of (structures (units_of texts.now)) }
    requires start { IsCounted (units_of texts.now) start.numbers.items start.count }
    ensures { IfOk result (λ r. IsCoarsest (units_of texts.now) start.numbers.items r.items) }
{
    let mut current = start;
    'rounds: loop {
        let next = split(alloc, texts, nodes, current.numbers.as_slice())?;
        if next.count <= current.count {
            return Ok(current.numbers);
        }
        current = next;
    }
}
