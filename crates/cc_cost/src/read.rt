//! Reading a profile.

ghost use Rattle.std.specs.Prelude.{◌≡◌, ◌<◌, ◌^◌, [], ℕ, IfOk, IfErr, OnOk, Some as SomeOf, None as NoneOf, length};
ghost use Rattle.cc_cost.specs.Given.{Gives};
ghost use Rattle.cc_cost.specs.Outcomes.{TellsFault};
ghost use Rattle.cc_rows.specs.Rows.{rows_of};
ghost use Rattle.cc_cost.specs.Rules.{first_fault as first_fault_in};

use crate::fault::ProfileFault;
use crate::given::profile_of;
use crate::profile::Profile;
use crate::rules::first_fault;
use crate::setting::Line;
use cc_program::num::NoMemory;
use cc_rows::lines_of;
use std::alloc::Global;

/// The profile of a text: lines of three fields with commas between them, each a setting; the default stands where
/// no row says otherwise.
pub fn read_profile(alloc: Global, text: &[u8]) -> Result<Profile, ProfileFault>
    requires { length text.now < 2 ^ 32 }

    // A profile is read exactly where no row breaks a rule, and is the one that the rows give.
    ensures valid { OnOk result (first_fault_in (rows_of text.now) ≡ NoneOf) }
    ensures profile { IfOk result (λ profile. Gives (rows_of text.now) profile) }

    // A row is told exactly where one breaks a rule: the first one, with the least rule that it breaks.
    ensures fault { IfErr result (λ fault. TellsFault (rows_of text.now) fault) }
{
    let lines: Vec<Line> = lines_of(alloc, text)?;
    match first_fault(alloc, lines.as_slice())? {
        Some(fault) => Err(ProfileFault::Row {
            row: fault.row,
            rule: fault.rule,
        }),
        None => Ok(profile_of(alloc, lines.as_slice())?),
    }
}

/// The profile of no rows.
#[tactic(auto, using(crate::proofs::RowLemmas::of_text))]
pub fn default_profile(alloc: Global) -> Result<Profile, NoMemory>
    ensures { IfOk result (λ profile. Gives [] profile) }
{
    profile_of(alloc, &[])
}
