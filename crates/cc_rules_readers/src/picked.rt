//! Points whose statements do something.

ghost use Rattle.std.specs.Prelude.{◌≡◌, ◌≤◌, length, slice_get, IfOk};
ghost use Rattle.cc_rules_readers.specs.Points.{on, is_each_call, passes_in, points_that};

use crate::deeds::{Called, Deed};
use crate::naming::Named;
use cc_program::num::{NoMemory, at};
use cc_rules_asked::mark;
use std::alloc::Global;

/// What a statement may do.
#[derive(Clone, Copy)]
pub(crate) enum Test<'a> {
    CallsThroughPointer,
    ReadsThroughPointer,
    /// It reads one of some keys without a pointer.
    Reads(Named),
    /// It stands in one of some functions, each by whether it is one.
    StandsIn(&'a [bool]),
    IsThere,
}

/// Whether each function may be called.
fn is_each_called(called: Called) -> bool
    ensures { result ≡ is_each_call called }
{
    match called {
        Called::Each => true,
        Called::Nothing | Called::Function(_) => false,
    }
}

/// Whether a statement does this.
fn passes(test: Test<'_>, deed: &Deed) -> bool
    ensures { result ≡ passes_in test.entry deed.now }
{
    match test {
        Test::CallsThroughPointer => is_each_called(deed.called),
        Test::ReadsThroughPointer => deed.read.is_each(),
        Test::Reads(keys) => keys.is_named(deed.read),
        Test::StandsIn(functions) => mark(functions, deed.func as usize),
        Test::IsThere => true,
    }
}

/// Whether that of a point does.
pub(crate) fn passes_at(test: Test<'_>, deeds: &[Deed], point: u32) -> bool
    ensures { result ≡ on (passes_in test.entry) (slice_get deeds.now point) }
{
    match at(deeds, point as usize) {
        None => false,
        Some(deed) => passes(test, deed),
    }
}

/// The points whose statements do this.
pub(crate) fn picked(alloc: Global, deeds: &[Deed], test: Test<'_>) -> Result<Vec<u32>, NoMemory>
    requires { length deeds.now ≤ 65536 }
    ensures { IfOk result (λ points. points.items ≡ points_that deeds.now (passes_in test.entry)) }
{
    let mut points = Vec::new(alloc);
    for point in 0..deeds.len() as u32 {
        if passes_at(test, deeds, point) {
            points.push(point)?;
        }
    }
    Ok(points)
}
