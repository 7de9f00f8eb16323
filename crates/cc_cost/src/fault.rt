ghost use Rattle.std.specs.Prelude.{◌≡◌};
ghost use Rattle.cc_cost.specs.declared.fault.ProfileFault.TheVariants as fault;

use cc_program::num::NoMemory;

/// Why a text is no profile.
#[derive(Clone, Copy, Debug, PartialEq, Eq)]
pub enum ProfileFault {
    /// The row, from 1, is the first that breaks a rule, and the rule is the least that it breaks:
    ///
    /// 1. it has not three fields;
    /// 2. there is no such key;
    /// 3. a value is not allowed;
    /// 4. a key, or a key with its second field for `handler`, `intrinsic`, `count`, `weight`, `budget` and
    ///    `level`, stands twice;
    /// 5. a field that has to be empty is not;
    /// 6. a name is no identifier, is a keyword or outside the subset, or two roles have one name.
    Row { row: u32, rule: u8 },
    NoMemory,
}

impl From<NoMemory> for ProfileFault {
    ghost from_gives = { λ _ why. why ≡ fault.NoMemory };

    fn from(_error: NoMemory) -> ProfileFault {
        ProfileFault::NoMemory
    }
}
