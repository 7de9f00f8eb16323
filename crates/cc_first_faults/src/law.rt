//! The law of the first fault.

ghost use Rattle.std.specs.Prelude.{◌≡◌, List, Ok, Err};
ghost use Rattle.cc_first_faults.specs.Behind.{behind};
ghost use Rattle.cc_first_faults.specs.Constructs.{Construct, place};
ghost use Rattle.cc_first_faults.specs.FirstFaults.{BreaksNone, IsCarried, IsWithin};
ghost use Rattle.cc_first_faults.specs.Parts.{parts};
ghost use Rattle.cc_program.specs.CcNum.declared.target.Target.{Target};
ghost use Rattle.cc_program.specs.declared.program.Roles.{Roles};
ghost use Rattle.cc_typed_bodies.specs.CcScopes.State.{State, Name};
ghost use Rattle.cc_typed_bodies.specs.CcScopes.declared.verdict.Fault.{Fault};

/// The fault of a declaration, and of any construct in one, is carried by a construct that breaks the rule at its place
/// while its parts break none, and nothing that is read in front of it breaks one; there is no other such fault. What stands
/// in a construct that breaks none, however deep, breaks none either. The call does nothing.
pub fn the_first_fault_is_carried()
    ensures carried { (target : Target) (roles : Roles) (defined : List Name) (c : Construct) (s : State) (fault : Fault) →
        behind target roles defined c s ≡ Err fault → IsCarried Construct place (behind target roles defined) (parts target roles defined) fault c s }
    ensures alone { (target : Target) (roles : Roles) (defined : List Name) (c : Construct) (s : State) (fault : Fault) →
        IsCarried Construct place (behind target roles defined) (parts target roles defined) fault c s → behind target roles defined c s ≡ Err fault }
    ensures kept { (target : Target) (roles : Roles) (defined : List Name) (c d : Construct) (s t : State) →
        IsWithin Construct place (behind target roles defined) (parts target roles defined) d t c s → BreaksNone (behind target roles defined c s) → BreaksNone (behind target roles defined d t) }
{}
