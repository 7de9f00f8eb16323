//! What the program has, and the id of each thing in it.

ghost use Rattle.std.specs.Prelude.{◌≡◌, ℕ, IfOk, map};
ghost use Rattle.cc_definitions.specs.Definitions.{devices as devices_of, functions as functions_of, numbers_below, objects as objects_of};
ghost use Rattle.cc_link.specs.Kept.{id_or_none, id_told};
ghost use Rattle.cc_link.specs.Linked.{id_by as id_by_of, id_at as id_at_of};
ghost use Rattle.cc_things.specs.View.{thing_view};

use cc_definitions::{defined, devices, kinds_of};
use cc_linked_names::position_at;
use cc_order::first_positions;
use cc_program::num::NoMemory;
use cc_things::Thing;
use cc_unit::Id;
use std::alloc::Global;

/// The devices, functions and objects of a program, by their numbers as things, and the id of each thing.
#[derive(Drop)]
pub struct Table {
    pub devices: Vec<usize>,
    pub functions: Vec<usize>,
    pub objects: Vec<usize>,
    pub ids: Vec<Id>,
}

fn id_by(device: Option<u32>, function: Option<u32>, object: Option<u32>) -> Id
    ensures { result ≡ id_by_of device function object }
{
    match device {
        Some(device) => Id::Device(device),
        None => match function {
            Some(function) => Id::Func(function),
            None => match object {
                Some(object) => Id::Object(object),
                None => Id::Object(0),
            },
        },
    }
}

/// The ids of so many things, by their positions in the lists of devices, functions and objects.
fn ids(
    alloc: Global,
    count: usize,
    devices: &[Option<u32>],
    functions: &[Option<u32>],
    objects: &[Option<u32>],
) -> Result<Vec<Id>, NoMemory>
    ensures { IfOk result (λ ids. ids.items ≡ map (id_told devices.now functions.now objects.now) (numbers_below count)) }
{
    let mut ids = Vec::new(alloc);
    for number in 0..count {
        let device = position_at(devices, number);
        let function = position_at(functions, number);
        let object = position_at(objects, number);
        ids.push(id_by(device, function, object))?;
    }
    Ok(ids)
}

/// What the program has of things.
pub fn table_of(alloc: Global, things: &[Thing<'_>]) -> Result<Table, NoMemory>
    ensures devices { IfOk result (λ table. table.devices.items ≡ devices_of (map thing_view things.now)) }
    ensures functions { IfOk result (λ table. table.functions.items ≡ functions_of (map thing_view things.now)) }
    ensures objects { IfOk result (λ table. table.objects.items ≡ objects_of (map thing_view things.now)) }
    ensures ids { IfOk result (λ table. (k : ℕ) → id_or_none table.ids.items k ≡ id_at_of (map thing_view things.now) k) }
{
    let count = things.len();
    let defined = defined(alloc, things)?;
    let kinds = kinds_of(alloc, things, defined.as_slice())?;
    let devices = devices(alloc, things)?;
    let of_devices = first_positions(alloc, count, devices.as_slice())?;
    let of_functions = first_positions(alloc, count, kinds.functions.as_slice())?;
    let of_objects = first_positions(alloc, count, kinds.objects.as_slice())?;
    let ids = ids(
        alloc,
        count,
        of_devices.as_slice(),
        of_functions.as_slice(),
        of_objects.as_slice(),
    )?;
    Ok(Table {
        devices,
        functions: kinds.functions,
        objects: kinds.objects,
        ids,
    })
}
