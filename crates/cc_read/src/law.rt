//! What holds of reading, whatever is read.

ghost use Rattle.std.specs.Prelude.{◌≡◌, ℕ, List};
ghost use Rattle.std.specs.List.{All};
ghost use Rattle.cc_program.specs.CcNum.declared.target.Target.{Target};
ghost use Rattle.cc_program.specs.declared.program.Program.{Program};
ghost use Rattle.cc_program.specs.declared.program.Roles.{Roles};
ghost use Rattle.cc_read.specs.Refusals.{IsRefused, IsTooHigh};
ghost use Rattle.cc_read.specs.Texts.{IsLow, Reads};
ghost use Rattle.cc_read.specs.declared.refusal.Refusal.{Refusal};

/// Texts are at most one program, and refused in at most one way, by one cause at one place; what is refused is no program, or a sentence in it is
/// too high. There is nothing to run.
pub fn laws()
    ensures one_program { (texts : List (List ℕ)) (target : Target) (roles : Roles) (p q : Program) → Reads texts target roles p → Reads texts target roles q → p ≡ q }
    ensures one_cause { (texts : List (List ℕ)) (target : Target) (roles : Roles) (e f : Refusal) → IsRefused target roles texts e → IsRefused target roles texts f → e ≡ f }
    ensures not_both { (texts : List (List ℕ)) (target : Target) (roles : Roles) (p : Program) (e : Refusal) → Reads texts target roles p → All IsLow texts → IsRefused target roles texts e → ⊥ }
    ensures only_too_high { (texts : List (List ℕ)) (target : Target) (roles : Roles) (p : Program) (e : Refusal) → Reads texts target roles p → IsRefused target roles texts e → IsTooHigh e.why }
{}
