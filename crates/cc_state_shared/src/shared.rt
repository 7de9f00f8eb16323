//! A value that several owners share, and that contracts see as itself.

ghost use Rattle.std.specs.Prelude.{◌≡◌, IfOk};

use cc_num::NoMemory;
use std::alloc::Global;
use std::marker::Model;
use std::rc::Rc;

/// An `Rc` that contracts see as its value, so that facts that share sets are equal to facts that share none.
#[derive(Drop)]
pub struct Shared<T> {
    inner: Rc<T>,
}

impl<T> Model for Shared<T> {
    ghost Value = { T };

    ghost coded = { T.code };

    ghost view = { λ s. s.inner.value };
}

impl<T> Shared<T> {
    /// The value.
    pub fn get(&self) -> &T
        ensures { result.now ≡ self.now }
    {
        &self.inner
    }
}

impl<T: Drop> Shared<T> {
    /// The value with one owner.
    pub fn new(alloc: Global, value: T) -> Result<Shared<T>, NoMemory>
        ensures { IfOk result (λ s. s ≡ value) }
    {
        Ok(Shared {
            inner: Rc::new(alloc, value)?,
        })
    }

    /// The same value with one more owner.
    pub fn share(&self) -> Result<Shared<T>, NoMemory>
        ensures { IfOk result (λ s. s ≡ self.now) }
    {
        Ok(Shared {
            inner: self.inner.clone()?,
        })
    }
}

/// The same values, with one more owner each.
pub fn share_all<T: Drop>(alloc: Global, values: &[Shared<T>]) -> Result<Vec<Shared<T>>, NoMemory>
    ensures { IfOk result (λ shared. shared.items ≡ values.now) }
{
    let mut shared = Vec::new(alloc);
    for value in values {
        shared.push(value.share()?)?;
    }
    Ok(shared)
}
