//! Objects, devices and functions as the unit has them.

ghost use Rattle.std.specs.Prelude.{◌≡◌, IfOk, map, option_map};
ghost use Rattle.cc_numbering.specs.Names.{own_id as own_id_of, own_ids as own_ids_of, count_of as count_of_definitions, function_in as function_in_of, kind_in as kind_in_of, name_in as name_in_of};

use crate::structures::{copy_name, renumber_named};
use cc_program::copy_list;
use cc_program::num::{Boxed, List, NoMemory};
use cc_scopes::Declared;
use cc_scopes::syntax::{Entry, Func, Leaf};
use cc_scopes::unit_crate::{
    Id, Ids, UnitKind, UnitName, renumber_sig, renumber_stmts, renumber_type,
};
use std::alloc::Global;

fn own_id(i: u32, kind: &UnitKind) -> Id
    ensures { result ≡ own_id_of i kind.now }
{
    match kind {
        UnitKind::Object(_) => Id::Object(i),
        UnitKind::Device(_) => Id::Device(i),
        UnitKind::Func(_, _) => Id::Func(i),
    }
}

/// What each name is, by its position.
#[tactic(auto, using(crate::proofs::OwnIds::of_ids))]
pub fn own_ids(alloc: Global, names: &[Declared]) -> Result<List<Id>, NoMemory>
    ensures { IfOk result (λ r. r ≡ own_ids_of 0 names.now) }
{
    let mut ids = Vec::new(alloc);
    for (i, d) in names.iter().enumerate() {
        let Ok(i) = u32::try_from(i) else {
            return Err(NoMemory);
        };
        ids.push(own_id(i, &d.kind))?;
    }
    Ok(List::of(ids))
}

/// How many definitions there are: tentative ones count as one, and as none beside another (C99 6.9.2, 2).
fn count_of(tentative: bool, definitions: u32) -> u32
    ensures { result ≡ count_of_definitions tentative definitions }
{
    match definitions {
        0 => { if tentative { 1 } else { 0 } }
        _ => definitions,
    }
}

fn copy_leaves(alloc: Global, leaves: &[Leaf]) -> Result<List<Leaf>, NoMemory>
    ensures { IfOk result (λ r. r ≡ leaves.now) }
{
    let mut copies = Vec::new(alloc);
    for leaf in leaves {
        copies.push(leaf.copy(alloc)?)?;
    }
    Ok(List::of(copies))
}

fn function_in(alloc: Global, ids: &Ids, entry: Option<Entry>, f: &Func) -> Result<Func, NoMemory>
    ensures { IfOk result (λ r. r ≡ function_in_of ids.now entry f.now) }
{
    let name = copy_list(alloc, &f.name)?;
    let sig = renumber_sig(alloc, ids.structures.all(), &f.sig)?;
    let locals = renumber_named(alloc, ids.structures.all(), f.locals.all())?;
    let body = renumber_stmts(alloc, ids, &f.body)?;
    Ok(Func {
        name,
        sig,
        entry,
        params: f.params,
        locals,
        body,
    })
}

fn body_in(
    alloc: Global,
    ids: &Ids,
    entry: Option<Entry>,
    f: &Option<Boxed<Func>>,
) -> Result<Option<Boxed<Func>>, NoMemory>
    ensures { IfOk result (λ r. r ≡ option_map (function_in_of ids.now entry) f.now) }
{
    match f {
        None => Ok(None),
        Some(f) => {
            let f = function_in(alloc, ids, entry, f.get())?;
            Ok(Some(Boxed::new(alloc, f)?))
        }
    }
}

fn kind_in(alloc: Global, ids: &Ids, kind: &UnitKind) -> Result<UnitKind, NoMemory>
    ensures { IfOk result (λ r. r ≡ kind_in_of ids.now kind.now) }
{
    match kind {
        UnitKind::Object(leaves) => Ok(UnitKind::Object(copy_leaves(alloc, leaves.all())?)),
        UnitKind::Device(device) => Ok(UnitKind::Device(device.copy(alloc)?)),
        UnitKind::Func(entry, body) => {
            Ok(UnitKind::Func(*entry, body_in(alloc, ids, *entry, body)?))
        }
    }
}

fn name_in(alloc: Global, ids: &Ids, d: &Declared) -> Result<UnitName, NoMemory>
    ensures { IfOk result (λ r. r ≡ name_in_of ids.now d.now) }
{
    let name = copy_name(alloc, &d.name)?;
    let ctype = renumber_type(alloc, ids.structures.all(), &d.ctype)?;
    let kind = kind_in(alloc, ids, &d.kind)?;
    Ok(UnitName {
        name,
        linkage: d.linkage,
        ctype,
        first: d.first,
        count: count_of(d.tentative, d.definitions),
        kind,
    })
}

/// The names, as the unit has them.
pub fn names_in(alloc: Global, ids: &Ids, names: &[Declared]) -> Result<List<UnitName>, NoMemory>
    ensures { IfOk result (λ r. r ≡ map (name_in_of ids.now) names.now) }
{
    let mut renumbered = Vec::new(alloc);
    for d in names {
        renumbered.push(name_in(alloc, ids, d)?)?;
    }
    Ok(List::of(renumbered))
}
