//! Names that are declared (C99 6.2.1, 6.2.3).

ghost use Rattle.cc_scopes.specs.CcOperands.Verdicts.{Judges};
ghost use Rattle.cc_scopes.specs.View.{state_of};
ghost use Rattle.cc_typed_terms.specs.Names.{new_name as new_name_of};

use crate::is_intrinsic;
use cc_scopes::State;
use cc_scopes::operands::{Breach, Rule};
use cc_scopes::syntax::Roles;

/// A name that is declared has no other meaning in its scope, and is no intrinsic's.
pub fn new_name(roles: &Roles, x: &[u8], state: &State) -> Result<(), Breach>
    ensures { Judges (λ done. x.now) result (new_name_of roles.now x.now (state_of state.now)) }
{
    if is_intrinsic(roles, x) {
        return Err(Breach::Breaks(Rule::MainOrIntrinsic));
    }
    if state.named_here(x).is_some() {
        return Err(Breach::Breaks(Rule::DeclaredTwice));
    }
    Ok(())
}
