//! What is ranked, and by what.

/// A slot, the bits of RAM that coding it gains, and the code and time that this costs.
#[derive(Clone, Copy)]
pub struct Costed {
    pub slot: u32,
    pub gain: u64,
    pub code: u64,
    pub time: u64,
}

/// What a unit of code and one of time cost.
#[derive(Clone, Copy)]
pub struct Weights {
    pub code: u64,
    pub time: u64,
}

/// The most code and the most time that codings may cost together, where there is a most.
#[derive(Clone, Copy)]
pub struct Budgets {
    pub code: Option<u64>,
    pub time: Option<u64>,
}
