//! Names of a program: that each may name something, and that no two in one space are the same.

ghost use Rattle.std.specs.Prelude.{◌≡◌, ◌&&◌, ◌||◌, ◌++◌, not, map, true};
ghost use Rattle.std.specs.List.{list_all, list_any};
ghost use Rattle.std.specs.Str.{bytes_eq};
ghost use Rattle.cc_program.specs.CcWords.Names.{is_name as is_name_of, are_distinct};
ghost use Rattle.cc_typed.specs.CcSyntax.Names.{are_names, device_names, file_names, intrinsic_names, local_names, with_name};
ghost use Rattle.cc_sound.specs.Spaces.{is_named as is_named_of, is_new as is_new_of, has_name as has_name_of};

use cc_program::num::Name;
use cc_program::words::is_name;
use cc_typed::syntax::{CType, Device, Func, Object, Program, Roles, Structure};

/// Whether two names are the same.
pub fn same(name: &[u8], other: &[u8]) -> bool
    ensures { result ≡ bytes_eq name.now other.now }
{
    name == other
}

fn is_named(name: &[u8], other: &Option<Name>) -> bool
    ensures { result ≡ is_named_of name.now other.now }
{
    match other {
        None => false,
        Some(other) => same(name, other.all()),
    }
}

#[tactic(auto, using(crate::proofs::NameLemmas::of_spaces))]
fn has_structure(name: &[u8], structures: &[Structure]) -> bool
    ensures { result ≡ list_any (bytes_eq name.now) (map (λ s. s.tag) structures.now) }
{
    structures.iter().any(|s| same(name, s.tag.all()))
}

#[tactic(auto, using(crate::proofs::NameLemmas::of_spaces))]
fn has_local(name: &[u8], locals: &[(Name, CType)]) -> bool
    ensures { result ≡ list_any (bytes_eq name.now) (local_names locals.now) }
{
    locals.iter().any(|local| same(name, local.0.all()))
}

#[tactic(auto, using(crate::proofs::NameLemmas::of_spaces))]
fn has_device(name: &[u8], devices: &[Device]) -> bool
    ensures { result ≡ list_any (bytes_eq name.now) (device_names devices.now) }
{
    devices.iter().any(|device| is_named(name, &device.name))
}

#[tactic(auto, using(crate::proofs::NameLemmas::of_spaces))]
fn has_object(name: &[u8], objects: &[Object]) -> bool
    ensures { result ≡ list_any (bytes_eq name.now) (map (λ o. o.name) objects.now) }
{
    objects.iter().any(|object| same(name, object.name.all()))
}

#[tactic(auto, using(crate::proofs::NameLemmas::of_spaces))]
pub fn has_func(name: &[u8], funcs: &[Func]) -> bool
    ensures { result ≡ list_any (bytes_eq name.now) (map (λ f. f.name) funcs.now) }
{
    funcs.iter().any(|f| same(name, f.name.all()))
}

fn is_intrinsic(name: &[u8], roles: &Roles) -> bool
    ensures { result ≡ list_any (bytes_eq name.now) (intrinsic_names roles.now) }
{
    same(name, roles.off.all())
        || same(name, roles.on.all())
        || same(name, roles.save.all())
        || same(name, roles.restore.all())
}

/// Whether each tag may be one, and no two are the same.
pub fn are_tags(structures: &[Structure]) -> bool
    ensures { result ≡ are_names (map (λ s. s.tag) structures.now) }
{
    tags_named(structures) && tags_differ(structures)
}

fn tags_named(structures: &[Structure]) -> bool
    ensures { result ≡ list_all is_name_of (map (λ s. s.tag) structures.now) }
{
    structures.iter().all(|s| is_name(s.tag.all()))
}

#[tactic(auto, using(crate::proofs::NameLemmas::of_spaces))]
fn tags_differ(structures: &[Structure]) -> bool
    ensures { result ≡ are_distinct (map (λ s. s.tag) structures.now) }
{
    let mut left = structures;
    while let [s, rest @ ..] = left {
        if has_structure(s.tag.all(), rest) {
            return false;
        }
        left = rest;
    }
    true
}

#[tactic(auto, using(crate::proofs::NameLemmas::of_spaces))]
fn are_named(locals: &[(Name, CType)]) -> bool
    ensures { result ≡ list_all is_name_of (local_names locals.now) }
{
    locals.iter().all(|local| is_name(local.0.all()))
}

/// Whether each member's name may be one, and no two are the same.
pub fn are_members(members: &[(Name, CType)]) -> bool
    ensures { result ≡ are_names (local_names members.now) }
{
    are_named(members) && members_differ(members)
}

#[tactic(auto, using(crate::proofs::NameLemmas::of_spaces))]
fn members_differ(members: &[(Name, CType)]) -> bool
    ensures { result ≡ are_distinct (local_names members.now) }
{
    let mut left = members;
    while let [member, rest @ ..] = left {
        if has_local(member.0.all(), rest) {
            return false;
        }
        left = rest;
    }
    true
}

#[tactic(auto, using(crate::proofs::NameLemmas::of_spaces))]
fn objects_differ(objects: &[Object], p: &Program) -> bool
    ensures { result ≡ are_distinct (map (λ o. o.name) objects.now ++ (map (λ f. f.name) p.now.funcs ++ intrinsic_names p.now.roles)) }
{
    let mut left = objects;
    while let [object, rest @ ..] = left {
        let name = object.name.all();
        if has_object(name, rest) || has_func(name, p.funcs.all()) || is_intrinsic(name, &p.roles) {
            return false;
        }
        left = rest;
    }
    funcs_differ(p.funcs.all(), &p.roles)
}

#[tactic(auto, using(crate::proofs::NameLemmas::of_spaces))]
fn funcs_differ(funcs: &[Func], roles: &Roles) -> bool
    ensures { result ≡ are_distinct (map (λ f. f.name) funcs.now ++ intrinsic_names roles.now) }
{
    let mut left = funcs;
    while let [f, rest @ ..] = left {
        let name = f.name.all();
        if has_func(name, rest) || is_intrinsic(name, roles) {
            return false;
        }
        left = rest;
    }
    intrinsics_differ(roles)
}

#[tactic(auto, using(crate::proofs::NameLemmas::of_spaces))]
fn intrinsics_differ(roles: &Roles) -> bool
    ensures { result ≡ are_distinct (intrinsic_names roles.now) }
{
    let (off, on) = (roles.off.all(), roles.on.all());
    let (save, restore) = (roles.save.all(), roles.restore.all());
    !(same(off, on) || same(off, save) || same(off, restore))
        && !(same(on, save) || same(on, restore))
        && !same(save, restore)
}

/// Whether a name is that of none of the devices, of no object, no function and no intrinsic.
#[tactic(auto, using(crate::proofs::NameLemmas::of_spaces))]
fn is_new(name: &Option<Name>, devices: &[Device], p: &Program) -> bool
    ensures { result ≡ is_new_of name.now (device_names devices.now ++ (map (λ o. o.name) p.now.objects ++ (map (λ f. f.name) p.now.funcs ++ intrinsic_names p.now.roles))) }
{
    match name {
        None => true,
        Some(name) => {
            let name = name.all();
            !(has_device(name, devices)
                || has_object(name, p.objects.all())
                || has_func(name, p.funcs.all())
                || is_intrinsic(name, &p.roles))
        }
    }
}

#[tactic(auto, using(crate::proofs::NameLemmas::of_new))]
fn devices_differ(p: &Program) -> bool
    ensures { result ≡ are_distinct (file_names p.now) }
{
    let mut left = p.devices.all();
    while let [device, rest @ ..] = left {
        if !is_new(&device.name, rest, p) {
            return false;
        }
        left = rest;
    }
    objects_differ(p.objects.all(), p)
}

fn has_name(device: &Option<Name>) -> bool
    ensures { result ≡ has_name_of device.now }
{
    match device {
        None => true,
        Some(name) => is_name(name.all()),
    }
}

#[tactic(auto, using(crate::proofs::NameLemmas::of_spaces))]
fn devices_named(devices: &[Device]) -> bool
    ensures { result ≡ list_all is_name_of (device_names devices.now) }
{
    devices.iter().all(|device| has_name(&device.name))
}

#[tactic(auto, using(crate::proofs::NameLemmas::of_spaces))]
fn objects_named(objects: &[Object]) -> bool
    ensures { result ≡ list_all is_name_of (map (λ o. o.name) objects.now) }
{
    objects.iter().all(|object| is_name(object.name.all()))
}

#[tactic(auto, using(crate::proofs::NameLemmas::of_spaces))]
fn funcs_named(funcs: &[Func]) -> bool
    ensures { result ≡ list_all is_name_of (map (λ f. f.name) funcs.now) }
{
    funcs.iter().all(|f| is_name(f.name.all()))
}

fn intrinsics_named(roles: &Roles) -> bool
    ensures { result ≡ list_all is_name_of (intrinsic_names roles.now) }
{
    is_name(roles.off.all())
        && is_name(roles.on.all())
        && is_name(roles.save.all())
        && is_name(roles.restore.all())
}

/// Whether each name of the file may be one, and no two are the same.
#[tactic(auto, using(crate::proofs::NameLemmas::of_files))]
pub fn are_file_names(p: &Program) -> bool
    ensures { result ≡ are_names (file_names p.now) }
{
    devices_named(p.devices.all())
        && objects_named(p.objects.all())
        && funcs_named(p.funcs.all())
        && intrinsics_named(&p.roles)
        && devices_differ(p)
}

#[tactic(auto, using(crate::proofs::NameLemmas::of_spaces))]
fn is_file_name(p: &Program, name: &[u8]) -> bool
    ensures { result ≡ list_any (bytes_eq name.now) (file_names p.now) }
{
    has_device(name, p.devices.all())
        || has_object(name, p.objects.all())
        || has_func(name, p.funcs.all())
        || is_intrinsic(name, &p.roles)
}

#[tactic(auto, using(crate::proofs::NameLemmas::of_spaces))]
fn locals_differ(p: &Program, locals: &[(Name, CType)]) -> bool
    requires { are_distinct (file_names p.now) ≡ true }
    ensures { result ≡ are_distinct (local_names locals.now ++ file_names p.now) }
{
    let mut left = locals;
    while let [local, rest @ ..] = left {
        let name = local.0.all();
        if has_local(name, rest) || is_file_name(p, name) {
            return false;
        }
        left = rest;
    }
    true
}

/// Whether each local's name may be one, and none is another local's or one of the file.
#[tactic(auto, using(crate::proofs::NameLemmas::of_files))]
pub fn are_local_names(p: &Program, locals: &[(Name, CType)]) -> bool
    requires { are_names (file_names p.now) ≡ true }
    ensures { result ≡ are_names (local_names locals.now ++ file_names p.now) }
{
    are_named(locals) && locals_differ(p, locals)
}
