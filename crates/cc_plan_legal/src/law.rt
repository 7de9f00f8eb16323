ghost use Rattle.std.specs.Prelude.{◌≡◌, ◌↔◌, List, None};
ghost use Rattle.cc_plan_legal.specs.declared.candidate.Candidate.{Candidate};
ghost use Rattle.cc_plan_legal.specs.declared.kinds.Plan.{Plan};
ghost use Rattle.cc_plan_legal.specs.Legal.{IsLegal};
ghost use Rattle.cc_plan_legal.specs.Legality.{first_illegal};

/// What it says that no slot of a plan breaks a rule. The call does nothing.
pub fn laws()
    ensures { (slots : List Candidate) (plan : Plan) → (first_illegal slots plan ≡ None) ↔ IsLegal slots plan }
{}
