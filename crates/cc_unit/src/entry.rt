ghost use Rattle.std.specs.Prelude.{◌≡◌};
ghost use Rattle.cc_unit.specs.Entries.{both_entries as both_entries_of};

use cc_program::Entry;

/// How a function is a handler by two declarations: attributes add up, and `signal` wins over `interrupt`.
pub fn both_entries(one: Option<Entry>, other: Option<Entry>) -> Option<Entry>
    ensures { result ≡ both_entries_of one other }
{
    match one {
        None => other,
        Some(Entry::Interrupt) => match other {
            Some(Entry::Signal) => other,
            _ => one,
        },
        Some(Entry::Signal) => one,
        Some(Entry::Listed) => one,
    }
}
