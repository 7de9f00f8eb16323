//! What structures look like.

ghost use Rattle.std.specs.Prelude.{◌≡◌, ◌++◌, IfOk, OnOk, is_some, map, unwrap_or, [], length};
ghost use Rattle.std.specs.List.{flat_map};
ghost use Rattle.std.specs.Option.{option_copied};
ghost use Rattle.cc_structures.specs.Structures.{tag_or};
ghost use Rattle.cc_structures.specs.Looks.{look_of as look_of_known, look_with, node_of};
ghost use Rattle.cc_structures.specs.View.{known_of, look_view, node_view, names_of};
ghost use Rattle.cc_structures.specs.Words.{type_words, type_parts};

use crate::known::Known;
use crate::nodes::Node;
use crate::words::{Word, put_type};
use cc_program::CType;
use cc_program::num::{Name, NoMemory};
use cc_unit::UnitStructure;
use std::alloc::Global;

/// What a structure looks like, those aside that it has or points to.
#[derive(PartialEq, Eq, Hash, Drop)]
pub struct Look<'t> {
    pub named: bool,
    /// Of one without a name its source and position, so that it is like no other.
    pub text: u32,
    pub position: u32,
    pub tag: &'t [u8],
    /// Whether it has members, their names, and the words of their types.
    pub complete: bool,
    pub names: Vec<&'t [u8]>,
    pub words: Vec<Word>,
}

/// The tag, or the name that the typedef of a structure without one declares.
fn tag_of<'t>(s: &'t UnitStructure) -> Option<&'t [u8]>
    ensures { option_copied result ≡ tag_or s.now.tag s.now.alias }
{
    match &s.tag {
        Some(tag) => Some(tag.all()),
        None => match &s.alias {
            Some(alias) => Some(alias.all()),
            None => None,
        },
    }
}

/// The members, none where it is only named.
fn members_of<'t>(s: &'t UnitStructure) -> &'t [(Name, CType)]
    ensures { result.now ≡ unwrap_or s.now.members [] }
{
    match &s.members {
        Some(members) => members.all(),
        None => &[],
    }
}

/// Puts the names of members, and the words and the structures of their types, behind others.
fn put_members<'t>(
    members: &'t [(Name, CType)],
    names: &mut Vec<&'t [u8]>,
    words: &mut Vec<Word>,
    parts: &mut Vec<u32>,
) -> Result<(), NoMemory>
    ensures names { OnOk result (names_of names.new.items ≡ names_of names.old.items ++ map (λ m. m.0) members.now) }
    ensures words { OnOk result (words.new.items ≡ words.old.items ++ flat_map (λ m. type_words m.1) members.now) }
    ensures parts { OnOk result (parts.new.items ≡ parts.old.items ++ flat_map (λ m. type_parts m.1) members.now) }
{
    for m in members {
        names.push(m.0.all())?;
        put_type(&m.1, words, parts)?;
    }
    Ok(())
}

/// The look that has this tag, these names and words.
fn with_tag<'t>(s: &Known<'t>, names: Vec<&'t [u8]>, words: Vec<Word>) -> Look<'t>
    ensures { look_view result ≡ look_with (known_of s.now) (names_of names.entry.items) words.items }
{
    let complete = s.structure.members.is_some();
    match tag_of(s.structure) {
        Some(tag) => Look {
            named: true,
            text: 0,
            position: 0,
            tag,
            complete,
            names,
            words,
        },
        None => Look {
            named: false,
            text: s.text,
            position: s.position,
            tag: &[],
            complete,
            names,
            words,
        },
    }
}

/// What a structure looks like, and those that it has or points to.
#[tactic(auto, using(crate::proofs::Behind::of_members))]
pub fn look_of<'t>(alloc: Global, s: &Known<'t>) -> Result<(Look<'t>, Node<'t>), NoMemory>
    ensures look { IfOk result (λ r. look_view r.0 ≡ look_of_known (known_of s.now)) }
    ensures node { IfOk result (λ r. node_view r.1 ≡ node_of (known_of s.now)) }
{
    let mut names = Vec::new(alloc);
    let mut words = Vec::new(alloc);
    let mut parts = Vec::new(alloc);
    let members: &'t [(Name, CType)] = members_of(s.structure);
    put_members(members, &mut names, &mut words, &mut parts)?;
    let look = with_tag(s, names, words);
    let node = Node { known: *s, parts };
    Ok((look, node))
}
