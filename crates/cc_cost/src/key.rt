//! The keys of a profile.

ghost use Rattle.std.specs.Prelude.{◌≡◌};
ghost use Rattle.std.specs.Str.{bytes_eq};
ghost use Rattle.cc_cost.specs.Keys.{spelling, key_of as key_of_field};

/// What a row is about.
#[derive(Clone, Copy, Debug, PartialEq, Eq)]
pub enum Key {
    /// The width of `int`.
    Int,
    /// The width of a pointer.
    Pointer,
    /// Whether plain `char` is signed.
    Char,
    /// The greatest alignment.
    Align,
    /// The width of an access that no interrupt divides.
    Atomic,
    /// A function that is a handler.
    Handler,
    /// The name of an intrinsic.
    Intrinsic,
    /// How often a function runs.
    Count,
    /// What a unit of code or of time costs.
    Weight,
    /// How much code or time codings may cost.
    Budget,
    /// The level of a handler.
    Level,
}

const KEYS: [Key; 11] = [
    Key::Int,
    Key::Pointer,
    Key::Char,
    Key::Align,
    Key::Atomic,
    Key::Handler,
    Key::Intrinsic,
    Key::Count,
    Key::Weight,
    Key::Budget,
    Key::Level,
];

impl Key {
    /// How the key is spelled.
    pub fn spelling(self) -> &'static str
        ensures { result.now ≡ spelling self }
    {
        match self {
            Key::Int => "int",
            Key::Pointer => "pointer",
            Key::Char => "char",
            Key::Align => "align",
            Key::Atomic => "atomic",
            Key::Handler => "handler",
            Key::Intrinsic => "intrinsic",
            Key::Count => "count",
            Key::Weight => "weight",
            Key::Budget => "budget",
            Key::Level => "level",
        }
    }
}

/// Whether the key is spelled so.
fn is_spelled(key: Key, field: &[u8]) -> bool
    ensures { result ≡ bytes_eq field.now (spelling key) }
{
    field == key.spelling().as_bytes()
}

/// The key that is spelled so.
#[tactic(auto, unfolding(crate::specs::Keys::key_of))]
pub fn key_of(field: &[u8]) -> Option<Key>
    ensures { result ≡ key_of_field field.now }
{
    KEYS.iter().copied().find(|key| is_spelled(*key, field))
}
