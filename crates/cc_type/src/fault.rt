//! Why a translation unit has no types.

ghost use Rattle.std.specs.Prelude.{◌≡◌};
ghost use Rattle.cc_type.specs.declared.fault.TypeFault.TheVariants.{NoMemory as NoRoom};

use cc_program::num::NoMemory;

/// Why a translation unit has no types.
#[derive(Clone, Copy, Debug)]
pub enum TypeFault {
    /// A construct that begins at this offset breaks the rule of this number, while no part of it breaks one, and
    /// nothing that ends before it begins.
    Broken { rule: u8, at: u32 },
    /// Memory ran out.
    NoMemory,
}

impl From<NoMemory> for TypeFault {
    ghost from_gives = { λ _ e. e ≡ NoRoom };

    fn from(_error: NoMemory) -> TypeFault {
        TypeFault::NoMemory
    }
}
