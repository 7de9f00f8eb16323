//! Where each structure of a program stands.

ghost use Rattle.std.specs.Prelude.{◌≡◌, ◌≤◌, length, IfOk};
ghost use Rattle.cc_slots_structures.specs.Added.{AreFrom, AreNowhere};
ghost use Rattle.cc_slots_structures.specs.Standings.{AreStandings};

use crate::added::{add_locals, add_members, add_objects};
use crate::standing::{Standing, nowhere};
use cc_program::Program;
use cc_program::num::NoMemory;
use std::alloc::Global;

/// So many standings of what stands nowhere.
fn all_nowhere(alloc: Global, count: usize) -> Result<Vec<Standing>, NoMemory>
    ensures { IfOk result (λ list. AreNowhere count list.items) }
{
    let mut list = Vec::new(alloc);
    for number in 0..count {
        list.push(nowhere())?;
    }
    Ok(list)
}

/// Each structure stands where its members' structures do, from the last one on: each has only those before it as members.
fn add_structures(list: &mut [Standing], p: &Program)
    requires { AreFrom p.now (length p.now.structures) list.old }
    ensures { AreStandings p.now list.new }
{
    let structures = p.structures.all();
    let mut first = structures.len();
    while first > 0 {
        first -= 1;
        let place = list[first];
        add_members(list, first, structures[first].members.all(), place);
    }
}

/// What stands in static objects and in locals.
fn add_all(list: &mut [Standing], p: &Program)
    requires { AreNowhere (length p.now.structures) list.old }
    ensures { AreStandings p.now list.new }
{
    let first = list.len();
    add_objects(list, first, p.objects.all());
    add_locals(list, first, p.funcs.all());
    add_structures(list, p);
}

/// Where each structure of a program stands. The only error is want of memory.
pub fn standings(alloc: Global, p: &Program) -> Result<Vec<Standing>, NoMemory>
    ensures { IfOk result (λ list. AreStandings p.now list.items) }
{
    let mut list = all_nowhere(alloc, p.structures.all().len())?;
    add_all(&mut list, p);
    Ok(list)
}
