//! What is known of the sources together, before they are judged.

ghost use Rattle.std.specs.Prelude.{◌≡◌, IfOk};
ghost use Rattle.cc_link.specs.Kept.{AreGathered};

use crate::tables::{Table, table_of};
use cc_linked_names::{Given, given_names};
use cc_program::Roles;
use cc_program::num::NoMemory;
use cc_structures::{Structures, structures_of};
use cc_things::{Text, Things, mentions, things_of};
use std::alloc::Global;

/// The things and the structures of the sources, the ids that they have in the program, and their names there.
#[derive(Drop)]
pub struct Gathered<'t> {
    pub things: Things<'t>,
    pub structures: Structures<'t>,
    pub table: Table,
    pub given: Given,
}

/// Gathers them.
pub fn gather<'t>(alloc: Global, texts: &'t [Text], roles: &Roles) -> Result<Gathered<'t>, NoMemory>
    ensures { IfOk result (λ g. AreGathered texts.now roles.now g) }
{
    let mentions = mentions(alloc, texts)?;
    let things = things_of(alloc, mentions.as_slice())?;
    let structures = structures_of(alloc, texts)?;
    let table = table_of(alloc, things.things.as_slice())?;
    let given = given_names(
        alloc,
        texts,
        roles,
        things.things.as_slice(),
        structures.firsts.as_slice(),
        table.functions.as_slice(),
    )?;
    Ok(Gathered {
        things,
        structures,
        table,
        given,
    })
}
