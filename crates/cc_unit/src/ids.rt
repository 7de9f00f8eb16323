use cc_program::num::List;

/// What a name of one source is in the program, by its id there.
#[derive(Clone, Copy)]
pub enum Id {
    Object(u32),
    Device(u32),
    Func(u32),
}

/// The ids in the program of what one source names, by the positions in its unit.
#[derive(Drop)]
pub struct Ids {
    pub structures: List<u32>,
    pub names: List<Id>,
}
