//! The locals of functions, in their new order and with their names.

ghost use Rattle.std.specs.Prelude.{◌≡◌, ◌++◌, IfOk, OnOk, map, option_to_list, slice_get, take, zip};
ghost use Rattle.cc_lower_numbers.specs.Numbered.{with_name, numbered_locals as numbered_locals_of};
ghost use Rattle.cc_lower_numbers.specs.Order.{arranged};
ghost use Rattle.cc_lower_numbers.specs.Temporaries.{temporaries};

use crate::temporaries::kept_count;
use cc_program::num::{Name, NoMemory, at};
use cc_program::{CType, Func, copy_list};
use std::alloc::Global;

/// A type with a name.
fn named(alloc: Global, name: &Name, local: &(Name, CType)) -> Result<(Name, CType), NoMemory>
    ensures { IfOk result (λ r. r ≡ with_name (name.now, local.now)) }
{
    let name = copy_list(alloc, name)?;
    Ok((name, local.1.copy(alloc)?))
}

/// Puts a local behind others, where it is there.
fn put_local(
    alloc: Global,
    locals: &[(Name, CType)],
    number: usize,
    out: &mut Vec<(Name, CType)>,
) -> Result<(), NoMemory>
    ensures { OnOk result (out.new.items ≡ out.old.items ++ option_to_list (slice_get locals.now number)) }
{
    let Some(local) = at(locals, number) else {
        return Ok(());
    };
    out.push(named(alloc, &local.0, local)?)?;
    Ok(())
}

/// The locals in an order.
#[tactic(auto, using(crate::proofs::Texts::of_arranged))]
fn arranged_locals(
    alloc: Global,
    locals: &[(Name, CType)],
    order: &[usize],
) -> Result<Vec<(Name, CType)>, NoMemory>
    ensures { IfOk result (λ r. r.items ≡ arranged locals.now order.now) }
{
    let mut out = Vec::new(alloc);
    for number in order {
        put_local(alloc, locals, *number, &mut out)?;
    }
    Ok(out)
}

/// Puts locals with these names behind others. Each has one.
fn put_named(
    alloc: Global,
    names: &[Name],
    locals: &[(Name, CType)],
    out: &mut Vec<(Name, CType)>,
) -> Result<(), NoMemory>
    ensures { OnOk result (out.new.items ≡ out.old.items ++ map with_name (zip names.now locals.now)) }
{
    let mut position: usize = 0;
    for local in locals {
        let Some(name) = at(names, position) else {
            return Ok(());
        };
        out.push(named(alloc, name, local)?)?;
        position += 1;
    }
    Ok(())
}

/// The first locals.
fn first_locals(
    alloc: Global,
    locals: &[(Name, CType)],
    count: usize,
) -> Result<Vec<(Name, CType)>, NoMemory>
    ensures { IfOk result (λ r. r.items ≡ take count locals.now) }
{
    let mut out = Vec::new(alloc);
    for local in locals {
        if out.len() == count {
            return Ok(out);
        }
        out.push(named(alloc, &local.0, local)?)?;
    }
    Ok(out)
}

/// The locals of a function whose temporaries stand in this order, with these names.
pub fn numbered_locals(
    alloc: Global,
    names: &[Name],
    order: &[usize],
    f: &Func,
) -> Result<Vec<(Name, CType)>, NoMemory>
    ensures { IfOk result (λ r. order.now ≡ temporaries f.now → r.items ≡ numbered_locals_of names.now f.now) }
{
    let mut out = first_locals(alloc, f.locals.all(), kept_count(f))?;
    let others = arranged_locals(alloc, f.locals.all(), order)?;
    put_named(alloc, names, others.as_slice(), &mut out)?;
    Ok(out)
}
