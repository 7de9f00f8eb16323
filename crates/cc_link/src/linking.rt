//! Linking: typed units become one program.

ghost use Rattle.std.specs.Prelude.{◌≡◌, List as ListOf, IfOk, IfErr};
ghost use Rattle.cc_link.specs.Kept.{AreGathered};
ghost use Rattle.cc_link.specs.Linked.{Links, all_ids as all_ids_of, first_cause, program};
ghost use Rattle.cc_link.specs.Parts.{with_parts};
ghost use Rattle.cc_link.specs.Tells.{Tells};
ghost use Rattle.cc_program.specs.CcNum.declared.target.Target.{Target as TargetOf};
ghost use Rattle.cc_structures.specs.View.{knowns_of};
ghost use Rattle.cc_things.specs.declared.text.Text.{Text as TextOf};

use crate::fault::LinkEnd;
use crate::gathered::{Gathered, gather};
use crate::ids::all_ids;
use crate::parts::{devices, funcs, main_number, objects, structures};
use cc_causes::{LinkFault, first_fault};
use cc_program::num::{List, NoMemory, Target};
use cc_program::{Device, Func, Object, Program, Roles, Structure};
use cc_things::Text;
use cc_unit::Ids;
use std::alloc::Global;

/// The first cause against sources.
fn fault_of(
    alloc: Global,
    roles: &Roles,
    sources: &Gathered<'_>,
) -> Result<Option<LinkFault>, NoMemory>
    ensures { IfOk result (λ fault. (texts : ListOf TextOf) → AreGathered texts roles.now sources.now → fault ≡ first_cause texts roles.now sources.now.structures.numbers.items (knowns_of sources.now.structures.firsts.items)) }
{
    first_fault(
        alloc,
        sources.structures.numbers.as_slice(),
        sources.things.things.as_slice(),
        roles,
        &sources.given,
    )
}

/// What a program has beside its target and its roles.
#[derive(Drop)]
pub struct Parts {
    pub structures: List<Structure>,
    pub devices: List<Device>,
    pub objects: List<Object>,
    pub funcs: List<Func>,
    pub main: u32,
}

/// What the program has that sources without a cause are, where these are the ids of what each of them names.
fn parts_with(
    alloc: Global,
    texts: &[Text],
    roles: &Roles,
    sources: &Gathered<'_>,
    ids: &[Ids],
) -> Result<Parts, NoMemory>
    requires gathered { AreGathered texts.now roles.now sources.now }
    requires ids { ids.now ≡ all_ids_of texts.now sources.now.structures.numbers.items }
    ensures { IfOk result (λ parts. (target : TargetOf) → with_parts target roles.now parts ≡ program texts.now roles.now sources.now.structures.numbers.items (knowns_of sources.now.structures.firsts.items) target) }
{
    let things = sources.things.things.as_slice();
    let given = &sources.given;
    let table = &sources.table;
    let main = main_number(things, table.functions.as_slice())?;
    let structures = structures(
        alloc,
        sources.structures.numbers.as_slice(),
        given.tags.as_slice(),
        sources.structures.firsts.as_slice(),
    )?;
    let devices = devices(alloc, things, given, table.devices.as_slice())?;
    let objects = objects(alloc, things, given, ids, table.objects.as_slice())?;
    let funcs = funcs(alloc, things, roles, given, ids)?;
    Ok(Parts {
        structures,
        devices,
        objects,
        funcs,
        main,
    })
}

/// What the program has that sources without a cause are.
fn parts_of(
    alloc: Global,
    texts: &[Text],
    roles: &Roles,
    sources: &Gathered<'_>,
) -> Result<Parts, NoMemory>
    requires { AreGathered texts.now roles.now sources.now }
    ensures { IfOk result (λ parts. (target : TargetOf) → with_parts target roles.now parts ≡ program texts.now roles.now sources.now.structures.numbers.items (knowns_of sources.now.structures.firsts.items) target) }
{
    let ids = all_ids(
        alloc,
        texts,
        sources.structures.numbers.as_slice(),
        sources.table.ids.as_slice(),
        sources.things.numbers.as_slice(),
    )?;
    parts_with(alloc, texts, roles, sources, ids.as_slice())
}

/// What the program has that sources are, or the first cause why they are none.
fn judged(
    alloc: Global,
    texts: &[Text],
    roles: &Roles,
    sources: &Gathered<'_>,
) -> Result<Parts, LinkEnd>
    requires { AreGathered texts.now roles.now sources.now }
    ensures linked { IfOk result (λ parts. (target : TargetOf) → Links texts.now target roles.now (with_parts target roles.now parts)) }
    ensures refused { IfErr result (λ e. Tells texts.now roles.now e) }
{
    let fault = fault_of(alloc, roles, sources)?;
    if let Some(fault) = fault {
        return Err(LinkEnd::Fault(fault));
    }
    let parts = parts_of(alloc, texts, roles, sources)?;
    Ok(parts)
}

/// What the program has that typed units are, or the first cause why they are none.
fn linked(alloc: Global, texts: &[Text], roles: &Roles) -> Result<Parts, LinkEnd>
    ensures linked { IfOk result (λ parts. (target : TargetOf) → Links texts.now target roles.now (with_parts target roles.now parts)) }
    ensures refused { IfErr result (λ e. Tells texts.now roles.now e) }
{
    let sources = gather(alloc, texts, roles)?;
    judged(alloc, texts, roles, &sources)
}

/// The one program that typed units are, or the first cause why they are none.
pub fn link(alloc: Global, texts: &[Text], target: Target, roles: Roles) -> Result<Program, LinkEnd>
    ensures linked { IfOk result (λ p. Links texts.now target roles p) }
    ensures refused { IfErr result (λ e. Tells texts.now roles e) }
{
    let Parts {
        structures,
        devices,
        objects,
        funcs,
        main,
    } = linked(alloc, texts, &roles)?;
    Ok(Program {
        target,
        roles,
        structures,
        devices,
        objects,
        funcs,
        main,
    })
}
