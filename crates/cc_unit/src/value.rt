//! First values with the ids of the program.

ghost use Rattle.std.specs.Prelude.{◌≡◌, IfOk};
ghost use Rattle.cc_unit.specs.Renumbered.{root_renumbered, address_renumbered, leaf_renumbered};

use crate::expr::{func_at, object_at};
use crate::ids::Ids;
use cc_program::num::NoMemory;
use cc_program::{Address, Leaf, Root, copy_list};
use std::alloc::Global;

fn renumber_root(ids: &Ids, root: Root) -> Root
    ensures { result ≡ root_renumbered ids.now root }
{
    match root {
        Root::Static(i) => Root::Static(object_at(ids, i)),
        Root::Auto {
            activation,
            func,
            local,
        } => Root::Auto {
            activation,
            func,
            local,
        },
    }
}

fn renumber_address(alloc: Global, ids: &Ids, a: &Address) -> Result<Address, NoMemory>
    ensures { IfOk result (λ r. r ≡ address_renumbered ids.now a.now) }
{
    match a {
        Address::Null => Ok(Address::Null),
        Address::Func(f) => Ok(Address::Func(func_at(ids, *f))),
        Address::At {
            object,
            path,
            index,
            count,
        } => {
            let path = copy_list(alloc, path)?;
            Ok(Address::At {
                object: renumber_root(ids, *object),
                path,
                index: *index,
                count: *count,
            })
        }
    }
}

/// The first value, with the ids of the program.
pub fn renumber_leaf(alloc: Global, ids: &Ids, leaf: &Leaf) -> Result<Leaf, NoMemory>
    ensures { IfOk result (λ r. r ≡ leaf_renumbered ids.now leaf.now) }
{
    match leaf {
        Leaf::Int(n) => Ok(Leaf::Int(*n)),
        Leaf::Place(a) => Ok(Leaf::Place(renumber_address(alloc, ids, a)?)),
    }
}
