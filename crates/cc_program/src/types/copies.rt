//! Copies of types.

ghost use Rattle.std.specs.Prelude.{◌≡◌, IfOk};

use crate::{CType, Shape, Sig};
use cc_num::{Boxed, List, NoMemory};
use std::alloc::Global;

impl CType {
    /// The same type.
    #[cycle(copy)]
    pub fn copy(&self, alloc: Global) -> Result<CType, NoMemory>
        ensures { IfOk result (λ r. r ≡ self.now) }
    {
        Ok(CType {
            constant: self.constant,
            volatile: self.volatile,
            shape: self.shape.copy(alloc)?,
        })
    }

    /// The same type, in a box.
    #[cycle(copy)]
    pub fn copy_boxed(&self, alloc: Global) -> Result<Boxed<CType>, NoMemory>
        ensures { IfOk result (λ r. r ≡ self.now) }
    {
        Boxed::new(alloc, self.copy(alloc)?)
    }
}

impl Shape {
    /// The same type.
    #[cycle(copy)]
    pub fn copy(&self, alloc: Global) -> Result<Shape, NoMemory>
        ensures { IfOk result (λ r. r ≡ self.now) }
    {
        match self {
            Shape::Void => Ok(Shape::Void),
            Shape::Int(t) => Ok(Shape::Int(*t)),
            Shape::Pointer(t) => Ok(Shape::Pointer(t.get().copy_boxed(alloc)?)),
            Shape::Array(t, n) => Ok(Shape::Array(t.get().copy_boxed(alloc)?, *n)),
            Shape::Struct(s) => Ok(Shape::Struct(*s)),
            Shape::Func(sig) => Ok(Shape::Func(Boxed::new(alloc, sig.get().copy(alloc)?)?)),
        }
    }
}

impl Sig {
    /// The same type.
    #[cycle(copy)]
    pub fn copy(&self, alloc: Global) -> Result<Sig, NoMemory>
        ensures { IfOk result (λ r. r ≡ self.now) }
    {
        let result = self.result.copy(alloc)?;
        let mut params = Vec::new(alloc);
        for param in self.params.all() {
            params.push(param.copy(alloc)?)?;
        }
        Ok(Sig {
            result,
            params: List::of(params),
        })
    }
}
