/// What a name is made of.
#[derive(Clone, Copy)]
pub enum Wish<'t> {
    /// A name of its own, or that name with a number from 2 where it is not free.
    Own(&'t [u8]),
    /// A name with a number from 1.
    Numbered(&'t [u8]),
}
