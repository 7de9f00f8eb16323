//! Where a `switch` goes on (C99 6.8.4.2).

ghost use Rattle.std.specs.Prelude.{◌≡◌, Some, None, option_map};
ghost use Rattle.std.specs.List.{list_any};
ghost use Rattle.cc_control.specs.Control.{from_label, is_label, is_default};
ghost use Rattle.cc_control.specs.View.{counted_at, found_of, is_wanted as is_wanted_of};

use crate::statements::counted;
use cc_program::Case;

/// Whether a label is the one that is wanted: a constant, or `default` for none.
fn is_wanted(wanted: &Option<i128>, label: &Option<i128>) -> bool
    ensures { result ≡ is_wanted_of wanted.now label.now }
{
    match (wanted, label) {
        (None, None) => true,
        (Some(v), Some(n)) => *v == *n,
        _ => false,
    }
}

fn has_wanted(wanted: &Option<i128>, labels: &[Option<i128>]) -> bool
    ensures { result ≡ list_any (is_wanted_of wanted.now) labels.now }
{
    for label in labels {
        if is_wanted(wanted, label) {
            return true;
        }
    }
    false
}

/// From the first case that has the label on, and how many statements stand before.
fn from_case<'p>(wanted: &Option<i128>, cases: &'p [Case]) -> Option<(u32, &'p [Case])>
    ensures { option_map found_of result ≡ option_map counted_at (from_label (list_any (is_wanted_of wanted.now)) 0 cases.now) }
{
    let mut left = cases;
    let mut before: u32 = 0;
    while let Some((case, behind)) = left.split_first() {
        if has_wanted(wanted, case.labels.all()) {
            return Some((before, left));
        }
        before = before.saturating_add(counted(case.body.all().len()));
        left = behind;
    }
    None
}

/// Where a `switch` goes on with a value: the first case that has it among its labels and those behind, into which it
/// falls through, and how many statements stand before, up to `u32::MAX`; none where no case has it (C99 6.8.4.2).
pub fn by_label<'p>(v: i128, cases: &'p [Case]) -> Option<(u32, &'p [Case])>
    ensures { option_map found_of result ≡ option_map counted_at (from_label (list_any (is_label v)) 0 cases.now) }
{
    from_case(&Some(v), cases)
}

/// Where a `switch` goes on whose value no case has: the same from the first case on that has `default` among its labels
/// (C99 6.8.4.2).
pub fn by_default<'p>(cases: &'p [Case]) -> Option<(u32, &'p [Case])>
    ensures { option_map found_of result ≡ option_map counted_at (from_label (list_any is_default) 0 cases.now) }
{
    from_case(&None, cases)
}
