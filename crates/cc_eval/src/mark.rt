use cc_program::Value;

/// What a step of a full expression has done.
#[derive(Drop)]
pub enum Mark {
    /// A read, a call or an intrinsic gave a value; none where it is bad.
    Gave(Option<Value>),
    /// A write, or what gives no value.
    Did,
    /// A branch step chose; none where the condition is bad.
    Chose(Option<bool>),
}
