//! Sources link to at most one program.

ghost use Rattle.std.specs.Prelude.{◌≡◌, List};
ghost use Rattle.cc_link.specs.Linked.{Links, Breaks};
ghost use Rattle.cc_causes.specs.declared.fault.LinkFault.{LinkFault};
ghost use Rattle.cc_program.specs.CcNum.declared.target.Target.{Target};
ghost use Rattle.cc_program.specs.declared.program.Program.{Program};
ghost use Rattle.cc_program.specs.declared.program.Roles.{Roles};
ghost use Rattle.cc_things.specs.declared.text.Text.{Text};

/// What holds of linking whatever is linked; there is nothing to run.
pub fn laws()
    ensures one_program { (texts : List Text) (target : Target) (roles : Roles) (p q : Program) → Links texts target roles p → Links texts target roles q → p ≡ q }
    ensures one_cause { (texts : List Text) (roles : Roles) (e f : LinkFault) → Breaks texts roles e → Breaks texts roles f → e ≡ f }
    ensures not_both { (texts : List Text) (target : Target) (roles : Roles) (p : Program) (f : LinkFault) → Links texts target roles p → Breaks texts roles f → ⊥ }
{}
