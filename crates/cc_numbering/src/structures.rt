//! Structures as the unit has them.

ghost use Rattle.std.specs.Prelude.{◌≡◌, ◌++◌, IfOk, OnOk, option_map};
ghost use Rattle.cc_numbering.specs.Structures.{named_in, all_named_in, structure_at, structures_in as structures_in_of};
ghost use Rattle.cc_scopes.specs.Standings.{some_if};
ghost use Rattle.cc_scopes.specs.View.{state_of};

use cc_program::copy_list;
use cc_program::num::{List, Name, NoMemory, at};
use cc_scopes::State;
use cc_scopes::syntax::{CType, Structure};
use cc_scopes::unit_crate::{UnitStructure, renumber_type};
use std::alloc::Global;

/// A copy of a name, where there is one.
pub fn copy_name(alloc: Global, name: &Option<Name>) -> Result<Option<Name>, NoMemory>
    ensures { IfOk result (λ r. r ≡ name.now) }
{
    match name {
        None => Ok(None),
        Some(name) => Ok(Some(copy_list(alloc, name)?)),
    }
}

/// A member or a local, with its type as the unit has it.
fn renumber_one(
    alloc: Global,
    numbers: &[u32],
    name: &Name,
    ctype: &CType,
) -> Result<(Name, CType), NoMemory>
    ensures { IfOk result (λ r. r ≡ named_in numbers.now (name.now, ctype.now)) }
{
    let name = copy_list(alloc, name)?;
    Ok((name, renumber_type(alloc, numbers, ctype)?))
}

/// Members or locals, with their types as the unit has them.
pub fn renumber_named(
    alloc: Global,
    numbers: &[u32],
    named: &[(Name, CType)],
) -> Result<List<(Name, CType)>, NoMemory>
    ensures { IfOk result (λ r. r ≡ all_named_in numbers.now named.now) }
{
    let mut renumbered = Vec::new(alloc);
    for one in named {
        renumbered.push(renumber_one(alloc, numbers, &one.0, &one.1)?)?;
    }
    Ok(List::of(renumbered))
}

fn renumber_members(
    alloc: Global,
    numbers: &[u32],
    complete: bool,
    members: &[(Name, CType)],
) -> Result<Option<List<(Name, CType)>>, NoMemory>
    ensures { IfOk result (λ r. r ≡ option_map (all_named_in numbers.now) (some_if complete members.now)) }
{
    if complete {
        Ok(Some(renumber_named(alloc, numbers, members)?))
    } else {
        Ok(None)
    }
}

fn copy_tag(alloc: Global, tagged: bool, tag: &Name) -> Result<Option<Name>, NoMemory>
    ensures { IfOk result (λ r. r ≡ some_if tagged tag.now) }
{
    if tagged {
        Ok(Some(copy_list(alloc, tag)?))
    } else {
        Ok(None)
    }
}

/// A structure as the unit has it, by whether it has a tag and is complete.
fn unit_structure(
    alloc: Global,
    numbers: &[u32],
    structure: &Structure,
    tagged: bool,
    complete: bool,
    alias: &Option<Name>,
) -> Result<UnitStructure, NoMemory>
    ensures { IfOk result (λ r. r ≡ record { tag = some_if tagged structure.now.tag; alias = alias.now; members = option_map (all_named_in numbers.now) (some_if complete structure.now.members) }) }
{
    let tag = copy_tag(alloc, tagged, &structure.tag)?;
    let alias = copy_name(alloc, alias)?;
    let members = renumber_members(alloc, numbers, complete, structure.members.all())?;
    Ok(UnitStructure {
        tag,
        alias,
        members,
    })
}

/// Puts a structure behind others.
#[tactic(auto, using(crate::proofs::Known::of_known), unfolding(cc_scopes::specs::View::state_of, cc_scopes::specs::View::known_of))]
fn put_structure(
    alloc: Global,
    state: &State,
    numbers: &[u32],
    id: u32,
    out: &mut Vec<UnitStructure>,
) -> Result<(), NoMemory>
    ensures { OnOk result (out.new.items ≡ out.old.items ++ structure_at numbers.now (state_of state.now).structures id) }
{
    let Some(structure) = at(state.structures.all.as_slice(), id as usize) else {
        return Ok(());
    };
    let Some(standing) = at(state.structures.standings.as_slice(), id as usize) else {
        return Ok(());
    };
    let structure = unit_structure(
        alloc,
        numbers,
        structure,
        standing.tagged,
        standing.complete,
        &standing.alias,
    )?;
    out.push(structure)?;
    Ok(())
}

/// The structures in this order.
pub fn structures_in(
    alloc: Global,
    state: &State,
    numbers: &[u32],
    order: &[u32],
) -> Result<List<UnitStructure>, NoMemory>
    ensures { IfOk result (λ r. r ≡ structures_in_of numbers.now (state_of state.now).structures order.now) }
{
    let mut structures = Vec::new(alloc);
    for id in order {
        put_structure(alloc, state, numbers, *id, &mut structures)?;
    }
    Ok(List::of(structures))
}
