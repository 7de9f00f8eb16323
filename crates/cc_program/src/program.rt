ghost use Rattle.std.specs.Prelude.{◌++◌, [], ◌∷◌, ◌&&◌, nat_le, map, IsTrue};
ghost use Rattle.std.specs.List.{list_all};
ghost use Rattle.cc_words.specs.Names.{is_name, are_distinct};

mod copies;

use crate::{Device, Func, Object, Structure};
use cc_num::{List, Name, Target};
pub use copies::{copy_named, copy_names};

/// What names of a program stand for beside C: its handlers, the four intrinsics, and the levels of
/// interrupts. Each of them may name something in C, and the handlers and intrinsics are distinct.
#[derive(Drop)]
pub struct Roles {
    pub handlers: List<Name>,
    pub off: Name,
    pub on: Name,
    pub save: Name,
    pub restore: Name,
    /// The level of a handler that is named here, from 1 to 7; that of another is 0.
    pub levels: List<(Name, u8)>,
    pub ghost named: { IsTrue (list_all is_name (handlers ++ off ∷ on ∷ save ∷ restore ∷ [])) },
    pub ghost apart: { IsTrue (are_distinct (handlers ++ off ∷ on ∷ save ∷ restore ∷ [])) },
    pub ghost levelled: { IsTrue (list_all (λ l. is_name l.0 && (nat_le 1 l.1 && nat_le l.1 7)) levels) },
    pub ghost levels_apart: { IsTrue (are_distinct (map (λ l. l.0) levels)) },
}

/// A whole program.
#[derive(Drop)]
pub struct Program {
    pub target: Target,
    pub roles: Roles,
    /// Those that are only named come first, the others in the order in which they are complete; so one comes
    /// before each that contains it.
    pub structures: List<Structure>,
    pub devices: List<Device>,
    pub objects: List<Object>,
    pub funcs: List<Func>,
    /// The id of the function that runs first (C99 5.1.2.2.1).
    pub main: u32,
}
