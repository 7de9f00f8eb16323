ghost use Rattle.std.specs.Prelude.{◌≡◌, ℕ, List, Some, slice_get};
ghost use Rattle.cc_link.specs.Linked.{Links};
ghost use Rattle.cc_program.specs.CcNum.declared.target.Target.{Target};
ghost use Rattle.cc_program.specs.declared.program.Program.{Program};
ghost use Rattle.cc_program.specs.declared.program.Roles.{Roles};
ghost use Rattle.cc_relocated_units.specs.Units.{IsSoundUnit};
ghost use Rattle.cc_operands.specs.CcSyntax.Sound.{IsSound};
ghost use Rattle.cc_things.specs.declared.text.Text.{Text};
ghost use Rattle.cc_linked_programs.specs.Named.{AreFew, AreNamed, HasOwnMain};

/// Sound sources link to a sound program, where its names may stand together, there are fewer things than ids, and no source defines a `main` that is an intrinsic's name (C99 6.9). The call does nothing.
pub fn program_laws()
    ensures link_sound { (texts : List Text) (target : Target) (roles : Roles) (p : Program) → Links texts target roles p → ((t : ℕ) (x : Text) → slice_get texts t ≡ Some x → IsSoundUnit target x.unit) → ((t : ℕ) (x : Text) → slice_get texts t ≡ Some x → HasOwnMain roles x.unit) →
        AreNamed p → AreFew p → IsSound p }
{}
