ghost use Rattle.std.specs.Prelude.{nat_eq, ◌||◌, IsTrue};

/// What a chip and its compiler leave to the implementation (C99 6.2.6.1, 6.2.5). Widths are in
/// bytes: those of `int` and of a pointer are 2 or 4, the greatest alignment and the width of an
/// access that no interrupt divides are 1, 2 or 4.
#[derive(Clone, Copy, Debug, PartialEq, Eq)]
pub struct Target {
    pub int_bytes: u8,
    pub pointer_bytes: u8,
    pub char_signed: bool,
    pub align_max: u8,
    pub atomic_bytes: u8,
    pub ghost int: { IsTrue (nat_eq int_bytes 2 || nat_eq int_bytes 4) },
    pub ghost pointer: { IsTrue (nat_eq pointer_bytes 2 || nat_eq pointer_bytes 4) },
    pub ghost align: { IsTrue (nat_eq align_max 1 || nat_eq align_max 2 || nat_eq align_max 4) },
    pub ghost atomic: { IsTrue (nat_eq atomic_bytes 1 || nat_eq atomic_bytes 2 || nat_eq atomic_bytes 4) },
}
