//! The names of temporaries.

ghost use Rattle.std.specs.Prelude.{◌≡◌, ◌++◌, ◌∷◌, ℕ, List as ListOf, [], IfOk, OnOk, map, max, flat_map, replicate, codes};
ghost use Rattle.cc_lower_numbers.specs.Numbered.{names_of_program, most_temporaries as most_temporaries_of, temporary_names as temporary_names_of};
ghost use Rattle.cc_lower_numbers.specs.TemporaryNames.{temporary, with_temporary};
ghost use Rattle.cc_names.specs.Names.{Numbered, names_for};
ghost use Rattle.cc_names.specs.View.{HaveSame};
ghost use Rattle.cc_syntax.specs.Names.{device_names, file_names, intrinsic_names, local_names, tags};

use crate::temporaries::temporary_count;
use cc_names::Names;
use cc_program::num::{List, Name, NoMemory};
use cc_program::{CType, Device, Func, Object, Program, Roles, Structure};
use std::alloc::Global;

/// From now on a name is among these.
#[tactic(auto, using(crate::proofs::Reservations::of_names))]
fn reserve_name(alloc: Global, names: &mut Names, name: &[u8]) -> Result<(), NoMemory>
    ensures { OnOk result ((reserved : ListOf (ListOf ℕ)) → HaveSame names.old reserved → HaveSame names.new (reserved ++ name.now ∷ [])) }
{
    if names.has(name) {
        return Ok(());
    }
    names.add(alloc, name)
}

fn reserve_tags(alloc: Global, names: &mut Names, structures: &[Structure]) -> Result<(), NoMemory>
    ensures { OnOk result ((reserved : ListOf (ListOf ℕ)) → HaveSame names.old reserved → HaveSame names.new (reserved ++ map (λ s. s.tag) structures.now)) }
{
    for structure in structures {
        reserve_name(alloc, names, structure.tag.all())?;
    }
    Ok(())
}

/// The names of members or locals.
fn reserve_named(alloc: Global, names: &mut Names, named: &[(Name, CType)]) -> Result<(), NoMemory>
    ensures { OnOk result ((reserved : ListOf (ListOf ℕ)) → HaveSame names.old reserved → HaveSame names.new (reserved ++ local_names named.now)) }
{
    for one in named {
        reserve_name(alloc, names, one.0.all())?;
    }
    Ok(())
}

fn reserve_members(
    alloc: Global,
    names: &mut Names,
    structures: &[Structure],
) -> Result<(), NoMemory>
    ensures { OnOk result ((reserved : ListOf (ListOf ℕ)) → HaveSame names.old reserved → HaveSame names.new (reserved ++ flat_map (λ s. local_names s.members) structures.now)) }
{
    for structure in structures {
        reserve_named(alloc, names, structure.members.all())?;
    }
    Ok(())
}

fn reserve_locals(alloc: Global, names: &mut Names, funcs: &[Func]) -> Result<(), NoMemory>
    ensures { OnOk result ((reserved : ListOf (ListOf ℕ)) → HaveSame names.old reserved → HaveSame names.new (reserved ++ flat_map (λ f. local_names f.locals) funcs.now)) }
{
    for f in funcs {
        reserve_named(alloc, names, f.locals.all())?;
    }
    Ok(())
}

fn reserve_device(alloc: Global, names: &mut Names, device: &Device) -> Result<(), NoMemory>
    ensures { OnOk result ((reserved : ListOf (ListOf ℕ)) → HaveSame names.old reserved → HaveSame names.new (reserved ++ device_names (device.now ∷ []))) }
{
    match &device.name {
        None => Ok(()),
        Some(name) => reserve_name(alloc, names, name.all()),
    }
}

fn reserve_devices(alloc: Global, names: &mut Names, devices: &[Device]) -> Result<(), NoMemory>
    ensures { OnOk result ((reserved : ListOf (ListOf ℕ)) → HaveSame names.old reserved → HaveSame names.new (reserved ++ device_names devices.now)) }
{
    for device in devices {
        reserve_device(alloc, names, device)?;
    }
    Ok(())
}

fn reserve_objects(alloc: Global, names: &mut Names, objects: &[Object]) -> Result<(), NoMemory>
    ensures { OnOk result ((reserved : ListOf (ListOf ℕ)) → HaveSame names.old reserved → HaveSame names.new (reserved ++ map (λ o. o.name) objects.now)) }
{
    for object in objects {
        reserve_name(alloc, names, object.name.all())?;
    }
    Ok(())
}

fn reserve_funcs(alloc: Global, names: &mut Names, funcs: &[Func]) -> Result<(), NoMemory>
    ensures { OnOk result ((reserved : ListOf (ListOf ℕ)) → HaveSame names.old reserved → HaveSame names.new (reserved ++ map (λ f. f.name) funcs.now)) }
{
    for f in funcs {
        reserve_name(alloc, names, f.name.all())?;
    }
    Ok(())
}

fn reserve_intrinsics(alloc: Global, names: &mut Names, roles: &Roles) -> Result<(), NoMemory>
    ensures { OnOk result ((reserved : ListOf (ListOf ℕ)) → HaveSame names.old reserved → HaveSame names.new (reserved ++ intrinsic_names roles.now)) }
{
    reserve_name(alloc, names, roles.off.all())?;
    reserve_name(alloc, names, roles.on.all())?;
    reserve_name(alloc, names, roles.save.all())?;
    reserve_name(alloc, names, roles.restore.all())?;
    Ok(())
}

/// The names of what the program declares outside of functions.
fn reserve_file(alloc: Global, names: &mut Names, p: &Program) -> Result<(), NoMemory>
    ensures { OnOk result ((reserved : ListOf (ListOf ℕ)) → HaveSame names.old reserved → HaveSame names.new (reserved ++ file_names p.now)) }
{
    reserve_devices(alloc, names, p.devices.all())?;
    reserve_objects(alloc, names, p.objects.all())?;
    reserve_funcs(alloc, names, p.funcs.all())?;
    reserve_intrinsics(alloc, names, &p.roles)?;
    Ok(())
}

/// From now on no new name is one that the program has. None is reserved before.
fn reserve(alloc: Global, names: &mut Names, p: &Program) -> Result<(), NoMemory>
    requires { names.old ≡ [] }
    ensures { OnOk result (HaveSame names.new (names_of_program p.now)) }
{
    reserve_tags(alloc, names, p.structures.all())?;
    reserve_members(alloc, names, p.structures.all())?;
    reserve_file(alloc, names, p)?;
    reserve_locals(alloc, names, p.funcs.all())?;
    Ok(())
}

fn greater(a: usize, b: usize) -> usize
    ensures { result ≡ max a b }
{
    if a < b { b } else { a }
}

#[tactic(auto, using(crate::proofs::Counts::of_most))]
fn most_temporaries(p: &Program) -> usize
    ensures { result ≡ most_temporaries_of p.now }
{
    let mut most = 0;
    for f in p.funcs.all() {
        most = greater(most, temporary_count(f));
    }
    most
}

/// `t__` and a number.
fn temporary_name(alloc: Global, number: u64) -> Result<Vec<u8>, NoMemory>
    ensures { IfOk result (λ name. name.items ≡ temporary number) }
{
    let name = format!(in alloc; "t__{number}")?;
    Ok(name.into_bytes())
}

/// Puts the name with a number behind others, where it is none of these.
fn put_temporary(
    alloc: Global,
    names: &Names,
    number: u64,
    out: &mut Vec<Name>,
) -> Result<(), NoMemory>
    ensures { OnOk result (out.new.items ≡ with_temporary names.now out.old.items number) }
{
    let name = temporary_name(alloc, number)?;
    if names.has(name.as_slice()) {
        return Ok(());
    }
    out.push(List::of(name))?;
    Ok(())
}

/// The first names `t__1`, `t__2` and so on that are none of these, as many as are asked for. Where numbers of 64 bits are too few,
/// so is any memory.
#[tactic(auto, using(crate::proofs::TemporaryNames::of_given))]
fn free_names(alloc: Global, names: &Names, count: usize) -> Result<Vec<Name>, NoMemory>
    ensures { IfOk result (λ r. (reserved : ListOf (ListOf ℕ)) → HaveSame names.now reserved → r.items ≡ names_for reserved [] [] (replicate count (Numbered (codes "t")))) }
{
    let mut out = Vec::new(alloc);
    for number in 1..u64::MAX {
        if out.len() == count {
            return Ok(out);
        }
        put_temporary(alloc, names, number, &mut out)?;
    }
    Err(NoMemory)
}

/// The names for the temporaries of each function, in order: `t__1`, `t__2` and so on without those that the program has.
pub fn temporary_names(alloc: Global, p: &Program) -> Result<Vec<Name>, NoMemory>
    ensures { IfOk result (λ names. names.items ≡ temporary_names_of p.now) }
{
    let mut names = Names::new(alloc);
    reserve(alloc, &mut names, p)?;
    free_names(alloc, &names, most_temporaries(p))
}
