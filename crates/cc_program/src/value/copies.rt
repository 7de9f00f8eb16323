//! Copies of values and of what they name.

ghost use Rattle.std.specs.Prelude.{◌≡◌, IfOk};

use crate::{Address, Cell, Leaf, Value, copy_list};
use cc_num::NoMemory;
use std::alloc::Global;

impl Address {
    /// The same address.
    pub fn copy(&self, alloc: Global) -> Result<Address, NoMemory>
        ensures { IfOk result (λ r. r ≡ self.now) }
    {
        match self {
            Address::Null => Ok(Address::Null),
            Address::Func(f) => Ok(Address::Func(*f)),
            Address::At {
                object,
                path,
                index,
                count,
            } => Ok(Address::At {
                object: *object,
                path: copy_list(alloc, path)?,
                index: *index,
                count: *count,
            }),
        }
    }
}

impl Value {
    /// The same value.
    pub fn copy(&self, alloc: Global) -> Result<Value, NoMemory>
        ensures { IfOk result (λ r. r ≡ self.now) }
    {
        match self {
            Value::Int(n) => Ok(Value::Int(*n)),
            Value::Place(address) => Ok(Value::Place(address.copy(alloc)?)),
        }
    }
}

impl Leaf {
    /// The same value.
    pub fn copy(&self, alloc: Global) -> Result<Leaf, NoMemory>
        ensures { IfOk result (λ r. r ≡ self.now) }
    {
        match self {
            Leaf::Int(n) => Ok(Leaf::Int(*n)),
            Leaf::Place(address) => Ok(Leaf::Place(address.copy(alloc)?)),
        }
    }
}

impl Cell {
    /// The same cell.
    pub fn copy(&self, alloc: Global) -> Result<Cell, NoMemory>
        ensures { IfOk result (λ r. r ≡ self.now) }
    {
        match self {
            Cell::Device(device) => Ok(Cell::Device(*device)),
            Cell::At { object, path } => Ok(Cell::At {
                object: *object,
                path: copy_list(alloc, path)?,
            }),
        }
    }
}
