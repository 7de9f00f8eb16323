ghost use Rattle.std.specs.Prelude.{◌≡◌, ◌≤◌};
ghost use Rattle.cc_edge.specs.Faults.{risen, raised};
ghost use Rattle.cc_edge.specs.Memory.{is_listed};

// One more than a count, which stands still at the end of its type.
pub(crate) fn one_more(count: u64) -> u64
    ensures value { result ≡ risen count }
    ensures later { count ≤ result }
{
    count.saturating_add(1)
}

// So many more than a count, which stands still at the end of its type.
#[tactic(auto, unfolding(crate::specs::Faults::raised))]
pub(crate) fn more(count: u64, by: usize) -> u64
    ensures { result ≡ raised by count }
{
    count.saturating_add(by as u64)
}

// Whether a call of that number is to fail.
pub(crate) fn is_to_fail(failing: &[u64], call: u64) -> bool
    ensures { result ≡ is_listed failing.now call }
{
    failing.contains(&call)
}
