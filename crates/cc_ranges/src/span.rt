ghost use Rattle.cc_ranges.specs.Ends.{IsInterval};

/// The numbers from one end to the other, both of them values of integer types.
#[derive(Clone, Copy, Debug)]
pub struct Interval {
    pub low: i128,
    pub high: i128,
    pub ghost ends: { IsInterval low high },
}

/// An interval of numbers, or the empty set.
#[derive(Clone, Copy, Debug)]
pub enum Span {
    Empty,
    Between(Interval),
}
