//! The objects that a unit defines (C99 6.9.2).

ghost use Rattle.std.specs.Prelude.{◌≡◌, ◌++◌, IfOk, OnOk};
ghost use Rattle.std.specs.List.{flat_map};
ghost use Rattle.cc_type.specs.Defined.{name_in, given_in, defined_with, defined_by, defined_names as defined_names_of};

use cc_program::copy_list;
use cc_program::num::{List, Name, NoMemory};
use cc_tree::{At, Init, Item, Unit};
use cc_typed_bodies::lex::Word;
use cc_typed_bodies::objects_crate::{declared_name, is_given, storage_in};
use std::alloc::Global;

/// Puts the name that a declarator declares behind others.
fn put_name(alloc: Global, i: &At<Init>, names: &mut Vec<Name>) -> Result<(), NoMemory>
    ensures { OnOk result (names.new.items ≡ names.old.items ++ name_in i.now) }
{
    match declared_name(&i.node.declr.node) {
        None => Ok(()),
        Some(name) => {
            names.push(copy_list(alloc, name)?)?;
            Ok(())
        }
    }
}

fn put_given(alloc: Global, i: &At<Init>, names: &mut Vec<Name>) -> Result<(), NoMemory>
    ensures { OnOk result (names.new.items ≡ names.old.items ++ given_in i.now) }
{
    if is_given(i) {
        put_name(alloc, i, names)
    } else {
        Ok(())
    }
}

fn put_all(alloc: Global, inits: &[At<Init>], names: &mut Vec<Name>) -> Result<(), NoMemory>
    ensures { OnOk result (names.new.items ≡ names.old.items ++ flat_map name_in inits.now) }
{
    for i in inits {
        put_name(alloc, i, names)?;
    }
    Ok(())
}

fn put_all_given(alloc: Global, inits: &[At<Init>], names: &mut Vec<Name>) -> Result<(), NoMemory>
    ensures { OnOk result (names.new.items ≡ names.old.items ++ flat_map given_in inits.now) }
{
    for i in inits {
        put_given(alloc, i, names)?;
    }
    Ok(())
}

/// Puts the names of the objects that a declaration with this storage class defines behind others.
fn put_defined(
    alloc: Global,
    storage: Option<Word>,
    inits: &[At<Init>],
    names: &mut Vec<Name>,
) -> Result<(), NoMemory>
    ensures { OnOk result (names.new.items ≡ names.old.items ++ defined_with storage inits.now) }
{
    match storage {
        Some(Word::Typedef) => Ok(()),
        Some(Word::Extern) => put_all_given(alloc, inits, names),
        _ => put_all(alloc, inits, names),
    }
}

fn put_item(alloc: Global, item: &Item, names: &mut Vec<Name>) -> Result<(), NoMemory>
    ensures { OnOk result (names.new.items ≡ names.old.items ++ defined_by item.now) }
{
    match item {
        Item::Decl(d) => put_defined(alloc, storage_in(d.specs.all()), d.inits.all(), names),
        Item::Func(_, _, _, _) => Ok(()),
    }
}

/// The names of the objects that a unit defines.
pub fn defined_names(alloc: Global, unit: &Unit) -> Result<List<Name>, NoMemory>
    ensures { IfOk result (λ names. names ≡ defined_names_of unit.now) }
{
    let mut names = Vec::new(alloc);
    for item in unit.items.all() {
        put_item(alloc, &item.node, &mut names)?;
    }
    Ok(List::of(names))
}
