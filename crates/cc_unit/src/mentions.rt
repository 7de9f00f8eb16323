//! Which objects, devices and functions the names of a source speak of.

ghost use Rattle.std.specs.Prelude.{◌≡◌, ◌++◌, IfOk, OnOk};
ghost use Rattle.std.specs.List.{flat_map};
ghost use Rattle.cc_unit.specs.Mentioned.{in_root, in_address, in_leaf, in_func, in_kind, in_stmt, mentioned as all_mentioned};

use crate::spoken::put_stmts;
use crate::unit::{UnitKind, UnitName};
use cc_program::num::{Boxed, NoMemory};
use cc_program::{Address, Func, Leaf, Root};
use std::alloc::Global;

fn put_root(root: Root, numbers: &mut Vec<u32>) -> Result<(), NoMemory>
    ensures { OnOk result (numbers.new.items ≡ numbers.old.items ++ in_root root) }
{
    if let Root::Static(object) = root {
        numbers.push(object)?;
    }
    Ok(())
}

fn put_address(a: &Address, numbers: &mut Vec<u32>) -> Result<(), NoMemory>
    ensures { OnOk result (numbers.new.items ≡ numbers.old.items ++ in_address a.now) }
{
    match a {
        Address::Null => Ok(()),
        Address::Func(f) => {
            numbers.push(*f)?;
            Ok(())
        }
        Address::At { object, .. } => put_root(*object, numbers),
    }
}

fn put_leaf(leaf: &Leaf, numbers: &mut Vec<u32>) -> Result<(), NoMemory>
    ensures { OnOk result (numbers.new.items ≡ numbers.old.items ++ in_leaf leaf.now) }
{
    match leaf {
        Leaf::Int(_) => Ok(()),
        Leaf::Place(a) => put_address(a, numbers),
    }
}

fn put_leaves(leaves: &[Leaf], numbers: &mut Vec<u32>) -> Result<(), NoMemory>
    ensures { OnOk result (numbers.new.items ≡ numbers.old.items ++ flat_map in_leaf leaves.now) }
{
    for leaf in leaves {
        put_leaf(leaf, numbers)?;
    }
    Ok(())
}

fn put_func(f: &Option<Boxed<Func>>, numbers: &mut Vec<u32>) -> Result<(), NoMemory>
    ensures { OnOk result (numbers.new.items ≡ numbers.old.items ++ in_func f.now) }
{
    match f {
        None => Ok(()),
        Some(f) => put_stmts(f.get().body.all(), numbers),
    }
}

fn put_kind(kind: &UnitKind, numbers: &mut Vec<u32>) -> Result<(), NoMemory>
    ensures { OnOk result (numbers.new.items ≡ numbers.old.items ++ in_kind kind.now) }
{
    match kind {
        UnitKind::Object(init) => put_leaves(init.all(), numbers),
        UnitKind::Device(_) => Ok(()),
        UnitKind::Func(_, f) => put_func(f, numbers),
    }
}

/// The positions of the names of which bodies and first values of the source speak, in order of the text.
pub fn mentioned(alloc: Global, names: &[UnitName]) -> Result<Vec<u32>, NoMemory>
    ensures { IfOk result (λ numbers. numbers.items ≡ all_mentioned names.now) }
{
    let mut numbers = Vec::new(alloc);
    for name in names {
        put_kind(&name.kind, &mut numbers)?;
    }
    Ok(numbers)
}
