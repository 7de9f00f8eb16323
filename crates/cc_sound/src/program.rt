//! Whether a program is sound.

ghost use Rattle.std.specs.Prelude.{◌≡◌, ◌&&◌, ◌||◌, ◌↔◌, ◌<◌, ◌^◌, ◌*◌, not, length, map, drop, take, [], All, IsTrue, true, slice_get, option_map};
ghost use Rattle.std.specs.List.{list_all, list_any};
ghost use Rattle.std.specs.Option.{option_copied};
ghost use Rattle.cc_program.specs.declared.types.Sig.{out-Sig};
ghost use Rattle.cc_program.specs.declared.types.Shape.{out-Shape};
ghost use Rattle.cc_typed.specs.CcSyntax.Kinds.{is_plain_scalar as is_plain_scalar_of};
ghost use Rattle.cc_typed.specs.CcSyntax.Programs.{kind_in as kind_in_of, IsInitial};
ghost use Rattle.cc_typed.specs.CcSyntax.Sound.{is_numbered as is_numbered_of, have_ids as have_ids_of, is_only_named as is_only_named_of, is_member as is_member_of, is_structure as is_structure_of, are_structures as are_structures_of, is_device as is_device_of, is_same_device as is_same_device_of, devices_differ as devices_differ_of, is_object as is_object_of, is_handler_name as is_handler_name_of, entry_fits as entry_fits_of, handlers_are_there as handlers_are_there_of, takes_nothing as takes_nothing_of, is_plain_void as is_plain_void_of, is_plain_int as is_plain_int_of, is_main as is_main_of, form_fits as form_fits_of, is_main_there as is_main_there_of, are_parameters as are_parameters_of, is_local as is_local_of, is_automatic as is_automatic_of, IsSound};
ghost use Rattle.cc_typed.specs.CcSyntax.Lists.{come_first};
ghost use Rattle.cc_typed.specs.CcSyntax.Names.{are_names, file_names};
ghost use Rattle.cc_typed.specs.CcSyntax.Operators.{is_handler as is_handler_of};
ghost use Rattle.cc_sound.specs.Functions.{is_signature as is_signature_of, is_func as is_func_of, are_sizes_few as are_sizes_few_of, are_all_names as are_all_names_of, are_declared as are_declared_of, are_run as are_run_of, is_checked as is_checked_of};
ghost use Rattle.cc_typed.specs.CcSyntax.Sizes.{AreSized};
ghost use Rattle.cc_typed.specs.View.{kind_view};

use crate::initial::is_initial;
use crate::names::{are_file_names, are_local_names, are_members, are_tags, has_func, same};
use crate::statements::Function;
use cc_program::num::{IntType, Name, Target, at};
use cc_typed::syntax::{CType, Device, Entry, Func, Program, Shape, Structure};
use cc_typed::{
    is_object_type, is_plain_scalar, is_result, is_unqualified, is_void, kind_in, kind_of,
    same_flag, same_int, same_shape,
};

/// Whether a device has no name.
pub fn is_numbered(device: &Device) -> bool
    ensures { result ≡ is_numbered_of device.now }
{
    device.name.is_none()
}

fn have_ids(n: usize) -> bool
    ensures { result ≡ have_ids_of n }
{
    n < 4294967296
}

fn is_only_named(s: &Structure) -> bool
    ensures { result ≡ is_only_named_of s.now }
{
    s.members.all().len() == 0
}

fn any_only_named(structures: &[Structure]) -> bool
    ensures { result ≡ list_any is_only_named_of structures.now }
{
    structures.iter().any(|s| is_only_named(s))
}

/// Whether the structures that are only named come first.
fn named_first(structures: &[Structure]) -> bool
    ensures { result ≡ come_first is_only_named_of structures.now }
{
    let mut left = structures;
    while let [s, rest @ ..] = left {
        if !is_only_named(s) {
            return !any_only_named(rest);
        }
        left = rest;
    }
    true
}

fn is_device(device: &Device, target: &Target) -> bool
    ensures { result ≡ is_device_of target.now device.now }
{
    if is_numbered(device) {
        device.number < 1u64 << (8 * u32::from(target.pointer_bytes))
    } else {
        device.number == 0
    }
}

fn are_devices(devices: &[Device], target: &Target) -> bool
    ensures { result ≡ list_all (is_device_of target.now) devices.now }
{
    devices.iter().all(|device| is_device(device, target))
}

fn is_same_device(device: &Device, other: &Device) -> bool
    ensures { result ≡ is_same_device_of device.now other.now }
{
    is_numbered(device)
        && is_numbered(other)
        && device.number == other.number
        && same_int(device.int, other.int)
        && same_flag(device.constant, other.constant)
}

fn has_same_device(device: &Device, devices: &[Device]) -> bool
    ensures { result ≡ list_any (is_same_device_of device.now) devices.now }
{
    devices.iter().any(|other| is_same_device(device, other))
}

/// Whether no two devices without names are equal.
fn devices_differ(devices: &[Device]) -> bool
    ensures { result ≡ devices_differ_of devices.now }
{
    let mut left = devices;
    while let [device, rest @ ..] = left {
        if has_same_device(device, rest) {
            return false;
        }
        left = rest;
    }
    true
}

/// Whether a structure over those before it is sound, of `count` structures in all.
fn is_structure(s: &Structure, before: &[Structure], count: usize, target: &Target) -> bool
    requires { AreSized before.now target.now }
    ensures { result ≡ is_structure_of before.now count target.now s.now }
{
    have_ids(s.members.all().len())
        && are_members(s.members.all())
        && all_members(s.members.all(), before, count, target)
}

fn all_members(
    members: &[(Name, CType)],
    before: &[Structure],
    count: usize,
    target: &Target,
) -> bool
    requires { AreSized before.now target.now }
    ensures { result ≡ list_all (is_member_of before.now count target.now) members.now }
{
    for (_, t) in members {
        if !is_object_type(kind_of(t, before, count, target)) {
            return false;
        }
    }
    true
}

/// Whether all structures are sound, each over those before it.
pub fn are_structures(structures: &[Structure], target: &Target) -> bool
    ensures value { result ≡ are_structures_of [] (length structures.now) target.now structures.now }
    ensures sized { result ≡ true → AreSized structures.now target.now }
{
    for (i, s) in structures.iter().enumerate() {
        if !is_structure(s, &structures[..i], structures.len(), target) {
            return false;
        }
    }
    true
}

/// Whether the types of the objects are those of objects.
pub fn are_objects(p: &Program) -> bool
    requires { AreSized p.now.structures p.now.target }
    ensures { result ≡ list_all (is_object_of p.now) p.now.objects }
{
    for object in p.objects.all() {
        if !is_object_type(kind_in(p, &object.ctype)) {
            return false;
        }
    }
    true
}

fn is_handler_name(p: &Program, name: &[u8]) -> bool
    ensures { result ≡ is_handler_name_of p.now name.now }
{
    p.roles
        .handlers
        .all()
        .iter()
        .any(|handler| same(name, handler.all()))
}

fn entry_fits(p: &Program, f: &Func) -> bool
    ensures { result ≡ entry_fits_of p.now f.now f.now.entry }
{
    match f.entry {
        None => !is_handler_name(p, f.name.all()),
        Some(Entry::Signal) => true,
        Some(Entry::Interrupt) => true,
        Some(Entry::Listed) => is_handler_name(p, f.name.all()),
    }
}

/// Whether each handler of the roles is a function of the program.
pub fn handlers_are_there(p: &Program) -> bool
    ensures { result ≡ handlers_are_there_of p.now }
{
    p.roles
        .handlers
        .all()
        .iter()
        .all(|handler| has_func(handler.all(), p.funcs.all()))
}

fn takes_nothing(f: &Func) -> bool
    ensures { result ≡ takes_nothing_of f.now }
{
    f.sig.params.all().len() == 0
}

fn is_plain_void(t: &CType) -> bool
    ensures { result ≡ is_plain_void_of t.now }
{
    is_unqualified(t) && is_void(t)
}

fn is_plain_int(t: &CType) -> bool
    ensures { result ≡ is_plain_int_of t.now }
{
    is_unqualified(t)
        && match &t.shape {
            Shape::Int(t) => same_int(IntType::Int, *t),
            _ => false,
        }
}

fn is_main(f: &Func) -> bool
    ensures { result ≡ is_main_of f.now }
{
    same(f.name.all(), "main".as_bytes())
}

fn is_handler(f: &Func) -> bool
    ensures { result ≡ is_handler_of f.now }
{
    f.entry.is_some()
}

/// Whether main and handlers have the types that they may have.
fn form_fits(f: &Func) -> bool
    ensures { result ≡ form_fits_of f.now }
{
    let result = &f.sig.result;
    if is_main(f) {
        !is_handler(f) && takes_nothing(f) && (is_plain_int(result) || is_plain_void(result))
    } else if is_handler(f) {
        takes_nothing(f) && is_plain_void(result)
    } else {
        true
    }
}

/// Whether main is a function of the program.
pub fn main_is_there(p: &Program) -> bool
    ensures { result ≡ is_main_there_of (slice_get p.now.funcs p.now.main) }
{
    match at(p.funcs.all(), p.main as usize) {
        None => false,
        Some(f) => is_main(f),
    }
}

/// Whether the first locals have the types of the parameters, their qualifiers aside.
fn are_parameters(params: &[CType], locals: &[(Name, CType)]) -> bool
    ensures { result ≡ are_parameters_of params.now locals.now }
{
    let mut left = params;
    let mut behind = locals;
    while let [param, rest @ ..] = left {
        let [local, others @ ..] = behind else {
            return false;
        };
        if !same_shape(&param.shape, &local.1.shape) {
            return false;
        }
        left = rest;
        behind = others;
    }
    true
}

fn takes_parameters(p: &Program, params: &[CType]) -> bool
    requires { AreSized p.now.structures p.now.target }
    ensures { result ≡ list_all (λ t. is_plain_scalar_of (kind_in_of p.now t)) params.now }
{
    for t in params {
        if !is_plain_scalar(kind_in(p, t)) {
            return false;
        }
    }
    true
}

fn are_locals(p: &Program, locals: &[(Name, CType)]) -> bool
    requires { AreSized p.now.structures p.now.target }
    ensures { result ≡ list_all (is_local_of p.now) locals.now }
{
    for (_, t) in locals {
        if !is_object_type(kind_in(p, t)) {
            return false;
        }
    }
    true
}

fn is_automatic(local: &(Name, CType)) -> bool
    ensures { result ≡ is_automatic_of local.now }
{
    !local.1.is_const()
}

fn all_automatic(locals: &[(Name, CType)]) -> bool
    ensures { result ≡ list_all is_automatic_of locals.now }
{
    locals.iter().all(|local| is_automatic(local))
}

/// Whether no local behind the parameters is const.
fn are_automatic(params: usize, locals: &[(Name, CType)]) -> bool
    ensures { result ≡ list_all is_automatic_of (drop params locals.now) }
{
    if params <= locals.len() {
        all_automatic(&locals[params..])
    } else {
        true
    }
}

/// Whether a function is sound but for its names.
fn is_signature(p: &Program, f: &Func) -> bool
    requires { AreSized p.now.structures p.now.target }
    ensures { result ≡ is_signature_of p.now f.now }
{
    let params = f.sig.params.all();
    let locals = f.locals.all();
    is_result(kind_in(p, &f.sig.result))
        && takes_parameters(p, params)
        && form_fits(f)
        && entry_fits(p, f)
        && f.params as usize == params.len()
        && are_parameters(params, locals)
        && have_ids(locals.len())
        && are_locals(p, locals)
        && are_automatic(f.params as usize, locals)
}

fn is_func(p: &Program, f: &Func) -> bool
    requires sized { AreSized p.now.structures p.now.target }
    requires names { are_names (file_names p.now) ≡ true }
    ensures { result ≡ is_func_of p.now f.now }
{
    is_signature(p, f)
        && are_local_names(p, f.locals.all())
        && Function {
            program: p,
            func: f,
        }
        .are_sound(&f.body, false, false)
}

fn are_funcs(p: &Program) -> bool
    requires sized { AreSized p.now.structures p.now.target }
    requires names { are_names (file_names p.now) ≡ true }
    ensures { result ≡ list_all (is_func_of p.now) p.now.funcs }
{
    for f in p.funcs.all() {
        if !is_func(p, f) {
            return false;
        }
    }
    true
}

fn are_sizes_few(p: &Program) -> bool
    ensures { result ≡ are_sizes_few_of p.now }
{
    have_ids(p.structures.all().len())
        && have_ids(p.devices.all().len())
        && have_ids(p.objects.all().len())
        && have_ids(p.funcs.all().len())
}

fn are_all_names(p: &Program) -> bool
    ensures { result ≡ are_all_names_of p.now }
{
    are_tags(p.structures.all()) && are_file_names(p)
}

/// Whether what the program declares is sound.
fn are_declared(p: &Program) -> bool
    ensures value { result ≡ are_declared_of p.now }
    ensures sized { result ≡ true → AreSized p.now.structures p.now.target }
{
    named_first(p.structures.all())
        && are_structures(p.structures.all(), &p.target)
        && are_devices(p.devices.all(), &p.target)
        && devices_differ(p.devices.all())
        && are_objects(p)
}

fn are_run(p: &Program) -> bool
    requires sized { AreSized p.now.structures p.now.target }
    requires names { are_names (file_names p.now) ≡ true }
    ensures { result ≡ are_run_of p.now }
{
    are_funcs(p) && handlers_are_there(p) && main_is_there(p)
}

/// Whether a program is sound but for the first values of its objects.
fn is_checked(p: &Program) -> bool
    ensures value { result ≡ is_checked_of p.now }
    ensures sized { result ≡ true → AreSized p.now.structures p.now.target }
{
    are_sizes_few(p) && are_all_names(p) && are_declared(p) && are_run(p)
}

/// Whether each object may start with its first values.
fn are_initial(p: &Program) -> bool
    requires sized { AreSized p.now.structures p.now.target }
    requires objects { list_all (is_object_of p.now) p.now.objects ≡ true }
    ensures { IsTrue result ↔ All (λ o. IsInitial p.now o.ctype o.init) p.now.objects }
{
    for object in p.objects.all() {
        if !is_initial(p, object) {
            return false;
        }
    }
    true
}

/// Whether a program is sound: its names, types, expressions, statements and first values keep the rules
/// of C99 as far as they bind a program whose conversions are written out.
pub fn is_sound(p: &Program) -> bool
    ensures { IsTrue result ↔ IsSound p.now }
{
    is_checked(p) && are_initial(p)
}
