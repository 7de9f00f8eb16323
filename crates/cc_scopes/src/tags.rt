//! Structures and enumerations by their tags (C99 6.7.2.1 to 6.7.2.3).

ghost use Rattle.std.specs.Prelude.{◌≡◌, is_some, IfOk, OnOk};
ghost use Rattle.std.specs.Option.{option_copied};
ghost use Rattle.cc_operands.specs.Verdicts.{Judges};
ghost use Rattle.cc_operands.specs.View.{constant_view};
ghost use Rattle.cc_scopes.specs.Outcomes.{Gives};
ghost use Rattle.cc_scopes.specs.State.{tagged};
ghost use Rattle.cc_scopes.specs.Structures.{structure_type as structure_type_of, enumeration_type as enumeration_type_of, new_structure as new_structure_of, structure_named as structure_named_of, opened as opened_of, tagged_option, is_enumeration, closed as closed_of, declared_tag, is_member_name as is_member_name_of, enumeration_constant as enumeration_constant_of, enumeration_tagged as enumeration_tagged_of, enumeration_closed as enumeration_closed_of, in_list, enumeration_named as enumeration_named_of};
ghost use Rattle.cc_scopes.specs.View.{state_of};
ghost use Rattle.std.specs.Str.{bytes_eq};

use crate::designated::Tagged;
use crate::state::State;
use crate::verdict::{Fault, Stop};
use cc_operands::syntax::{CType, Shape};
use cc_operands::{Breach, Constant, Rule};
use cc_program::num::{IntType, List, Name, NoMemory, Target};
use std::alloc::Global;

fn structure_type(id: u32) -> CType
    ensures { result ≡ structure_type_of id }
{
    CType {
        constant: false,
        volatile: false,
        shape: Shape::Struct(id),
    }
}

fn enumeration_type() -> CType
    ensures { result ≡ enumeration_type_of }
{
    CType {
        constant: false,
        volatile: false,
        shape: Shape::Int(IntType::Int),
    }
}

fn broken(at: u32, rule: Rule) -> Stop
    ensures { result ≡ Stop.Broken (record { rule = rule; at = at }) }
{
    Stop::Broken(Fault { rule, at })
}

/// A new structure type, which its tag names in the innermost scope.
fn new_structure(state: &mut State, alloc: Global, tag: Option<&Name>) -> Result<u32, NoMemory>
    ensures { IfOk result (λ i. (i, state_of state.new) ≡ new_structure_of (option_copied tag.entry) (state_of state.old)) }
{
    let id = state.add_structure(alloc, tag)?;
    match tag {
        None => Ok(id),
        Some(name) => {
            state.bind_tag(alloc, name.all(), Tagged::StructureTag(id))?;
            Ok(id)
        }
    }
}

/// `struct x`: the one in scope, or a new one (C99 6.7.2.3, 8).
pub fn structure_named(
    state: &mut State,
    alloc: Global,
    at: u32,
    name: &Name,
) -> Result<CType, Stop>
    ensures { Gives (λ t. t) result (state_of state.new) (structure_named_of at name.now (state_of state.old) (tagged name.now (state_of state.old).scopes)) }
{
    match state.tagged(name.all()) {
        None => {
            let id = new_structure(state, alloc, Some(name))?;
            Ok(structure_type(id))
        }
        Some(Tagged::StructureTag(id)) => Ok(structure_type(id)),
        Some(Tagged::EnumerationTag) => Err(broken(at, Rule::DeclaredTwice)),
        Some(Tagged::UnfinishedEnumeration) => Err(broken(at, Rule::DeclaredTwice)),
    }
}

/// What a tag designates that is declared in the innermost scope, where there is a tag.
fn tag_here(state: &State, tag: &Option<Name>) -> Option<Tagged>
    ensures { result ≡ tagged_option tag.now (state_of state.now) }
{
    match tag {
        None => None,
        Some(name) => state.tagged_here(name.all()),
    }
}

/// `struct x {`: one that is declared in this scope, or a new one (C99 6.7.2.3, 4 to 6).
pub fn opened(state: &mut State, alloc: Global, tag: &Option<Name>) -> Result<u32, NoMemory>
    ensures { IfOk result (λ i. (i, state_of state.new) ≡ opened_of tag.now (state_of state.old)) }
{
    match tag_here(state, tag) {
        None => new_structure(state, alloc, tag.as_ref()),
        Some(Tagged::StructureTag(id)) => Ok(id),
        Some(Tagged::EnumerationTag) => state.add_structure(alloc, tag.as_ref()),
        Some(Tagged::UnfinishedEnumeration) => state.add_structure(alloc, tag.as_ref()),
    }
}

/// Whether a tag is that of an enumeration in the innermost scope.
pub fn is_enumeration_here(state: &State, tag: &Option<Name>) -> bool
    ensures { result ≡ is_enumeration (tagged_option tag.now (state_of state.now)) }
{
    match tag_here(state, tag) {
        None => false,
        Some(Tagged::StructureTag(_)) => false,
        Some(Tagged::EnumerationTag) => true,
        Some(Tagged::UnfinishedEnumeration) => true,
    }
}

/// `struct x { .. }` behind its members: it is complete. The flag says that its tag is an enumeration's.
pub fn closed(
    state: &mut State,
    target: &Target,
    at: u32,
    clash: bool,
    id: u32,
    members: List<(Name, CType)>,
) -> Result<CType, Stop>
    ensures { Gives (λ t. t) result (state_of state.new) (closed_of target.now at clash id members (state_of state.old)) }
{
    if clash {
        return Err(broken(at, Rule::DeclaredTwice));
    }
    if state.has_content(id) {
        return Err(broken(at, Rule::NoObjectType));
    }
    state.complete(target, id, members)?;
    Ok(structure_type(id))
}

/// `struct x;` alone declares x in this scope (C99 6.7.2.3, 7).
pub fn declare_tag(state: &mut State, alloc: Global, name: &Name) -> Result<(), NoMemory>
    ensures { OnOk result (state_of state.new ≡ declared_tag name.now (state_of state.old)) }
{
    match state.tagged_here(name.all()) {
        None => {
            new_structure(state, alloc, Some(name))?;
            Ok(())
        }
        Some(_) => Ok(()),
    }
}

fn same(name: &[u8], other: &[u8]) -> bool
    ensures { result ≡ bytes_eq name.now other.now }
{
    name == other
}

/// Whether a member has this name (C99 6.7.2.1).
pub fn is_member_name(name: &[u8], members: &[(Name, CType)]) -> bool
    ensures { result ≡ is_member_name_of name.now members.now }
{
    members.iter().any(|m| same(name, m.0.all()))
}

/// The value of an enumeration constant, which is one of an int (C99 6.7.2.2, 2).
pub fn enumeration_constant(target: &Target, constant: Constant) -> Result<i128, Breach>
    ensures { Judges (λ n. n) result (enumeration_constant_of target.now (constant_view constant)) }
{
    match constant {
        Constant::NoConstant => Err(Breach::Breaks(Rule::EnumerationConstant)),
        Constant::Value(n) => {
            if IntType::Int.contains(n, target) {
                Ok(n)
            } else {
                Err(Breach::Breaks(Rule::EnumerationConstant))
            }
        }
        Constant::Traps => Err(Breach::Breaks(Rule::ConstantTraps)),
    }
}

/// Whether a tag is declared in the innermost scope.
pub fn has_tag_here(state: &State, tag: &Option<Name>) -> bool
    ensures { result ≡ is_some (tagged_option tag.now (state_of state.now)) }
{
    tag_here(state, tag).is_some()
}

/// The tag of an enumeration, if it has one, designates this.
fn tag_enumeration(
    state: &mut State,
    alloc: Global,
    tag: &Option<Name>,
    t: Tagged,
) -> Result<(), NoMemory>
    ensures { OnOk result (state_of state.new ≡ enumeration_tagged_of t tag.now (state_of state.old)) }
{
    match tag {
        None => Ok(()),
        Some(name) => state.bind_tag(alloc, name.all(), t),
    }
}

/// `enum x {`: its tag is in scope, but names no type up to the end of its list (C99 6.2.1, 7; 6.7.2.3, 2).
pub fn begin_list(state: &mut State, alloc: Global, tag: &Option<Name>) -> Result<(), NoMemory>
    ensures { OnOk result (state_of state.new ≡ in_list tag.now (state_of state.old)) }
{
    if has_tag_here(state, tag) {
        Ok(())
    } else {
        tag_enumeration(state, alloc, tag, Tagged::UnfinishedEnumeration)
    }
}

/// `enum x { .. }` behind its list. The flag says that its tag was declared in this scope before.
pub fn enumeration_closed(
    state: &mut State,
    alloc: Global,
    at: u32,
    clash: bool,
    tag: &Option<Name>,
) -> Result<CType, Stop>
    ensures { Gives (λ t. t) result (state_of state.new) (enumeration_closed_of at clash tag.now (state_of state.old)) }
{
    if clash {
        return Err(broken(at, Rule::DeclaredTwice));
    }
    tag_enumeration(state, alloc, tag, Tagged::EnumerationTag)?;
    Ok(enumeration_type())
}

/// `enum x`, which is declared in scope (C99 6.7.2.3, 2).
pub fn enumeration_named(state: &State, at: u32, name: &[u8]) -> Result<CType, Stop>
    ensures { Gives (λ t. t) result (state_of state.now) (enumeration_named_of at (state_of state.now) (tagged name.now (state_of state.now).scopes)) }
{
    match state.tagged(name) {
        None => Err(broken(at, Rule::Undeclared)),
        Some(Tagged::UnfinishedEnumeration) => Err(broken(at, Rule::Undeclared)),
        Some(Tagged::StructureTag(_)) => Err(broken(at, Rule::DeclaredTwice)),
        Some(Tagged::EnumerationTag) => Ok(enumeration_type()),
    }
}
