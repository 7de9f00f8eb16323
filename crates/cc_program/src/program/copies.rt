//! Copies of the parts of a program.

ghost use Rattle.std.specs.Prelude.{◌≡◌, IfOk};

use crate::{CType, Device, Leaf, Object, Roles, Structure, copy_list};
use cc_num::{List, Name, NoMemory};
use std::alloc::Global;

impl Roles {
    /// The same roles.
    pub fn copy(&self, alloc: Global) -> Result<Roles, NoMemory>
        ensures { IfOk result (λ r. r ≡ self.now) }
    {
        let handlers = copy_names(alloc, &self.handlers)?;
        let off = copy_list(alloc, &self.off)?;
        let on = copy_list(alloc, &self.on)?;
        let save = copy_list(alloc, &self.save)?;
        let restore = copy_list(alloc, &self.restore)?;
        let levels = copy_levels(alloc, &self.levels)?;
        Ok(Roles {
            handlers,
            off,
            on,
            save,
            restore,
            levels,
        })
    }
}

/// The same names.
pub fn copy_names(alloc: Global, names: &List<Name>) -> Result<List<Name>, NoMemory>
    ensures { IfOk result (λ r. r ≡ names.now) }
{
    let mut copies = Vec::new(alloc);
    for name in names.all() {
        copies.push(copy_list(alloc, name)?)?;
    }
    Ok(List::of(copies))
}

fn copy_levels(alloc: Global, levels: &List<(Name, u8)>) -> Result<List<(Name, u8)>, NoMemory>
    ensures { IfOk result (λ r. r ≡ levels.now) }
{
    let mut copies = Vec::new(alloc);
    for (name, level) in levels.all() {
        copies.push((copy_list(alloc, name)?, *level))?;
    }
    Ok(List::of(copies))
}

/// The same names and types.
pub fn copy_named(
    alloc: Global,
    named: &List<(Name, CType)>,
) -> Result<List<(Name, CType)>, NoMemory>
    ensures { IfOk result (λ r. r ≡ named.now) }
{
    let mut copies = Vec::new(alloc);
    for (name, ctype) in named.all() {
        let name = copy_list(alloc, name)?;
        copies.push((name, ctype.copy(alloc)?))?;
    }
    Ok(List::of(copies))
}

impl Structure {
    /// The same structure.
    pub fn copy(&self, alloc: Global) -> Result<Structure, NoMemory>
        ensures { IfOk result (λ r. r ≡ self.now) }
    {
        let tag = copy_list(alloc, &self.tag)?;
        Ok(Structure {
            tag,
            members: copy_named(alloc, &self.members)?,
        })
    }
}

impl Device {
    /// The same device.
    pub fn copy(&self, alloc: Global) -> Result<Device, NoMemory>
        ensures { IfOk result (λ r. r ≡ self.now) }
    {
        let name = match &self.name {
            None => None,
            Some(name) => Some(copy_list(alloc, name)?),
        };
        Ok(Device {
            name,
            number: self.number,
            int: self.int,
            constant: self.constant,
        })
    }
}

impl Object {
    /// The same object.
    pub fn copy(&self, alloc: Global) -> Result<Object, NoMemory>
        ensures { IfOk result (λ r. r ≡ self.now) }
    {
        let name = copy_list(alloc, &self.name)?;
        let init = copy_leaves(alloc, &self.init)?;
        Ok(Object {
            name,
            ctype: self.ctype.copy(alloc)?,
            init,
        })
    }
}

fn copy_leaves(alloc: Global, leaves: &List<Leaf>) -> Result<List<Leaf>, NoMemory>
    ensures { IfOk result (λ r. r ≡ leaves.now) }
{
    let mut copies = Vec::new(alloc);
    for leaf in leaves.all() {
        copies.push(leaf.copy(alloc)?)?;
    }
    Ok(List::of(copies))
}
