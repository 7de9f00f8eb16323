//! What is judged of several constructs, each at its place.

ghost use Rattle.std.specs.Prelude.{◌≡◌};
ghost use Rattle.cc_typed_terms.specs.Located.{stopped_there};

use cc_scopes::{Fault, Stop};
use cc_specifiers::BreachAt;

/// Why constructs have no meaning, where each tells its own place.
pub fn located<T>(judged: Result<T, BreachAt>) -> Result<T, Stop>
    ensures { result ≡ stopped_there judged }
{
    match judged {
        Ok(x) => Ok(x),
        Err(BreachAt::Breaks(at, rule)) => Err(Stop::Broken(Fault { rule, at })),
        Err(BreachAt::NoMemory) => Err(Stop::NoMemory),
    }
}
