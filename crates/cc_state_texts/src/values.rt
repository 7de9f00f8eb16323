//! Values, as they are written.

ghost use Rattle.std.specs.Prelude.{◌≡◌, ◌++◌, OnOk, map};
ghost use Rattle.std.specs.Fmt.{signed_decimal};
ghost use Rattle.std.specs.Option.{option_copied};
ghost use Rattle.cc_program.specs.declared.types.Shape.{out-Shape};
ghost use Rattle.cc_state_texts.specs.Texts.{address_text, behind_blanks, element_in, func_name as name_of_func, index_text, last_text, local_at as local_at_of, member_in as member_in_shape, name_of, object_at as object_at_of, path_text, root_text, range_text, root_type as root_type_of, set_text, spaced, step_text, type_behind as type_behind_step, type_of, values_text};

use crate::bytes::{put, put_integer, put_number};
use cc_lattice::IntDomain;
use cc_places::Abs;
use cc_program::num::{Name, NoMemory, at};
use cc_program::{Address, CType, Part, Program, Root, Shape};
use std::alloc::Global;

fn func_name(p: &Program, func: u32) -> &[u8]
    ensures { result.now ≡ name_of_func p.now func }
{
    match at(p.funcs.all(), func as usize) {
        Some(f) => f.name.all(),
        None => &[],
    }
}

fn object_name(p: &Program, object: u32) -> &[u8]
    ensures { result.now ≡ name_of (object_at_of p.now object) }
{
    match at(p.objects.all(), object as usize) {
        Some(o) => o.name.all(),
        None => &[],
    }
}

fn object_type(p: &Program, object: u32) -> Option<&CType>
    ensures { option_copied result ≡ type_of (object_at_of p.now object) }
{
    Some(&at(p.objects.all(), object as usize)?.ctype)
}

/// A local of a function.
fn local_at(p: &Program, func: u32, local: u32) -> Option<&(Name, CType)>
    ensures { option_copied result ≡ local_at_of p.now func local }
{
    let f = at(p.funcs.all(), func as usize)?;
    at(f.locals.all(), local as usize)
}

fn local_name(p: &Program, func: u32, local: u32) -> &[u8]
    ensures { result.now ≡ name_of (local_at_of p.now func local) }
{
    match local_at(p, func, local) {
        Some(named) => named.0.all(),
        None => &[],
    }
}

fn local_type(p: &Program, func: u32, local: u32) -> Option<&CType>
    ensures { option_copied result ≡ type_of (local_at_of p.now func local) }
{
    Some(&local_at(p, func, local)?.1)
}

/// The type of an object.
fn root_type(p: &Program, object: Root) -> Option<&CType>
    ensures { option_copied result ≡ root_type_of p.now object }
{
    match object {
        Root::Static(object) => object_type(p, object),
        Root::Auto { func, local, .. } => local_type(p, func, local),
    }
}

/// Appends the name of an object.
fn put_root(text: &mut Vec<u8>, p: &Program, object: Root) -> Result<(), NoMemory>
    ensures { OnOk result (text.new.items ≡ text.old.items ++ root_text p.now object) }
{
    match object {
        Root::Static(object) => put(text, object_name(p, object)),
        Root::Auto { func, local, .. } => {
            put(text, local_name(p, func, local))?;
            put(text, b"@")?;
            put(text, func_name(p, func))
        }
    }
}

/// Appends an index, or a star for each.
fn put_index(alloc: Global, text: &mut Vec<u8>, is_exact: bool, index: u32) -> Result<(), NoMemory>
    ensures { OnOk result (text.new.items ≡ text.old.items ++ index_text is_exact index) }
{
    if !is_exact {
        return put(text, b"[*]");
    }
    put(text, b"[")?;
    put_number(alloc, text, u64::from(index))?;
    put(text, b"]")
}

/// Appends the last index of an address; one of 0 in an array of one is left off.
fn put_last(
    alloc: Global,
    text: &mut Vec<u8>,
    is_exact: bool,
    index: u32,
    count: u32,
) -> Result<(), NoMemory>
    ensures { OnOk result (text.new.items ≡ text.old.items ++ last_text is_exact index count) }
{
    if is_exact && index == 0 && count == 1 {
        return Ok(());
    }
    put_index(alloc, text, is_exact, index)
}

/// A member of an object of a type.
fn member_in<'p>(p: &'p Program, t: &CType, m: u32) -> Option<&'p (Name, CType)>
    ensures { option_copied result ≡ member_in_shape p.now m (out-Shape t.now.shape) }
{
    match &t.shape {
        Shape::Struct(s) => {
            let structure = at(p.structures.all(), *s as usize)?;
            at(structure.members.all(), m as usize)
        }
        _ => None,
    }
}

fn member_name<'p>(p: &'p Program, t: &CType, m: u32) -> &'p [u8]
    ensures { result.now ≡ name_of (member_in_shape p.now m (out-Shape t.now.shape)) }
{
    match member_in(p, t, m) {
        Some(named) => named.0.all(),
        None => &[],
    }
}

fn member_type<'p>(p: &'p Program, t: &CType, m: u32) -> Option<&'p CType>
    ensures { option_copied result ≡ type_of (member_in_shape p.now m (out-Shape t.now.shape)) }
{
    Some(&member_in(p, t, m)?.1)
}

/// The type of the elements of an array.
fn element_type(t: &CType) -> Option<&CType>
    ensures { option_copied result ≡ element_in (out-Shape t.now.shape) }
{
    match &t.shape {
        Shape::Array(of, _) => Some(of.get()),
        _ => None,
    }
}

/// The type of what a step leads to.
fn type_behind<'p>(p: &'p Program, step: Part, t: &'p CType) -> Option<&'p CType>
    ensures { option_copied result ≡ type_behind_step p.now step t.now }
{
    match step {
        Part::Member(m) => member_type(p, t, m),
        Part::Index(_) => element_type(t),
    }
}

/// Appends a step into an object of a type.
fn put_step(
    alloc: Global,
    text: &mut Vec<u8>,
    p: &Program,
    is_exact: bool,
    step: Part,
    t: &CType,
) -> Result<(), NoMemory>
    ensures { OnOk result (text.new.items ≡ text.old.items ++ step_text p.now is_exact step t.now) }
{
    match step {
        Part::Member(m) => {
            put(text, b".")?;
            put(text, member_name(p, t, m))
        }
        Part::Index(i) => put_index(alloc, text, is_exact, i),
    }
}

/// Appends the steps of a path into an object of a type.
fn put_path(
    alloc: Global,
    text: &mut Vec<u8>,
    p: &Program,
    is_exact: bool,
    path: &[Part],
    start: Option<&CType>,
) -> Result<(), NoMemory>
    ensures { OnOk result (text.new.items ≡ text.old.items ++ path_text p.now is_exact path.now (option_copied start.entry)) }
{
    let mut left = path;
    let mut here = start;
    while let [step, rest @ ..] = left {
        let Some(t) = here else {
            return Ok(());
        };
        put_step(alloc, text, p, is_exact, *step, t)?;
        here = type_behind(p, *step, t);
        left = rest;
    }
    Ok(())
}

/// Appends an address, or each of a place.
#[tactic(auto, unfolding(crate::specs::Texts::address_text))]
fn put_address(
    alloc: Global,
    text: &mut Vec<u8>,
    p: &Program,
    is_exact: bool,
    a: &Address,
) -> Result<(), NoMemory>
    ensures { OnOk result (text.new.items ≡ text.old.items ++ address_text p.now is_exact a.now) }
{
    match a {
        Address::Null => put(text, b"0"),
        Address::Func(f) => put(text, func_name(p, *f)),
        Address::At {
            object,
            path,
            index,
            count,
        } => {
            put(text, b"&")?;
            put_root(text, p, *object)?;
            put_path(alloc, text, p, is_exact, path.all(), root_type(p, *object))?;
            put_last(alloc, text, is_exact, *index, *count)
        }
    }
}

/// Appends addresses, each behind a blank.
fn put_more_addresses(
    alloc: Global,
    text: &mut Vec<u8>,
    p: &Program,
    is_exact: bool,
    members: &[Address],
) -> Result<(), NoMemory>
    ensures { OnOk result (text.new.items ≡ text.old.items ++ behind_blanks (map (address_text p.now is_exact) members.now)) }
{
    let mut left = members;
    while let [a, rest @ ..] = left {
        put(text, b" ")?;
        put_address(alloc, text, p, is_exact, a)?;
        left = rest;
    }
    Ok(())
}

fn put_addresses(
    alloc: Global,
    text: &mut Vec<u8>,
    p: &Program,
    is_exact: bool,
    members: &[Address],
) -> Result<(), NoMemory>
    ensures { OnOk result (text.new.items ≡ text.old.items ++ spaced (map (address_text p.now is_exact) members.now)) }
{
    match members {
        [] => Ok(()),
        [first, rest @ ..] => {
            put_address(alloc, text, p, is_exact, first)?;
            put_more_addresses(alloc, text, p, is_exact, rest)
        }
    }
}

/// Appends integers, each behind a blank.
fn put_more_integers(alloc: Global, text: &mut Vec<u8>, members: &[i128]) -> Result<(), NoMemory>
    ensures { OnOk result (text.new.items ≡ text.old.items ++ behind_blanks (map signed_decimal members.now)) }
{
    let mut left = members;
    while let [n, rest @ ..] = left {
        put(text, b" ")?;
        put_integer(alloc, text, *n)?;
        left = rest;
    }
    Ok(())
}

fn put_integers(alloc: Global, text: &mut Vec<u8>, members: &[i128]) -> Result<(), NoMemory>
    ensures { OnOk result (text.new.items ≡ text.old.items ++ spaced (map signed_decimal members.now)) }
{
    match members {
        [] => Ok(()),
        [first, rest @ ..] => {
            put_integer(alloc, text, *first)?;
            put_more_integers(alloc, text, rest)
        }
    }
}

/// Appends the ends of a range.
fn put_range(alloc: Global, text: &mut Vec<u8>, ends: Option<(i128, i128)>) -> Result<(), NoMemory>
    ensures { OnOk result (text.new.items ≡ text.old.items ++ range_text ends) }
{
    match ends {
        None => Ok(()),
        Some((low, high)) => {
            put_integer(alloc, text, low)?;
            put(text, b"..")?;
            put_integer(alloc, text, high)
        }
    }
}

fn put_set<I: IntDomain>(alloc: Global, text: &mut Vec<u8>, set: &I) -> Result<(), NoMemory>
    ensures { OnOk result (text.new.items ≡ text.old.items ++ set_text (I.members_of set.now) (I.bounds_of set.now)) }
{
    match set.members() {
        Some(members) => put_integers(alloc, text, members),
        None => put_range(alloc, text, set.bounds()),
    }
}

/// Appends values: members one behind the other, or the ends of a range; nothing where there are none.
#[tactic(auto, unfolding(crate::specs::Texts::values_text))]
pub fn put_values<I: IntDomain>(
    alloc: Global,
    text: &mut Vec<u8>,
    p: &Program,
    values: &Abs<I>,
) -> Result<(), NoMemory>
    ensures { OnOk result (text.new.items ≡ text.old.items ++ values_text I.members_of I.bounds_of p.now values.now) }
{
    match values {
        Abs::Ints(set) => put_set(alloc, text, set),
        Abs::Addrs(places) => {
            put_addresses(alloc, text, p, places.is_exact, places.members.all())
        }
    }
}
