//! The structures of all sources.

ghost use Rattle.std.specs.Prelude.{◌≡◌, ◌++◌, IfOk, OnOk};
ghost use Rattle.cc_structures.specs.Structures.{known_in, structures};
ghost use Rattle.cc_structures.specs.View.{knowns_of, units_of};

use cc_program::num::NoMemory;
use cc_things::Text;
use cc_unit::UnitStructure;
use std::alloc::Global;

/// A structure of a source.
#[derive(Clone, Copy)]
pub struct Known<'t> {
    /// The source, and the position among its structures.
    pub text: u32,
    pub position: u32,
    pub structure: &'t UnitStructure,
}

/// Puts the structures of a source behind others.
fn put_knowns<'t>(text: u32, x: &'t Text, knowns: &mut Vec<Known<'t>>) -> Result<(), NoMemory>
    ensures { OnOk result (knowns_of knowns.new.items ≡ knowns_of knowns.old.items ++ known_in text 0 x.now.unit.structures) }
{
    let structures: &'t [UnitStructure] = x.unit.structures.all();
    let mut position: u32 = 0;
    for structure in structures {
        knowns.push(Known {
            text,
            position,
            structure,
        })?;
        position = position.checked_add(1).ok_or(NoMemory)?;
    }
    Ok(())
}

/// All structures, source by source.
pub fn knowns<'t>(alloc: Global, texts: &'t [Text]) -> Result<Vec<Known<'t>>, NoMemory>
    ensures { IfOk result (λ r. knowns_of r.items ≡ structures (units_of texts.now)) }
{
    let mut knowns = Vec::new(alloc);
    let mut text: u32 = 0;
    for x in texts {
        put_knowns(text, x, &mut knowns)?;
        text = text.checked_add(1).ok_or(NoMemory)?;
    }
    Ok(knowns)
}
