ghost use Rattle.std.specs.Prelude.{◌≡◌, ℕ, List, Some, slice_get};
ghost use Rattle.cc_link.specs.Linked.{Links};
ghost use Rattle.cc_linked_programs.specs.Named.{HasOwnMain};
ghost use Rattle.cc_program.specs.CcNum.declared.target.Target.{Target};
ghost use Rattle.cc_program.specs.declared.program.Program.{Program};
ghost use Rattle.cc_program.specs.declared.program.Roles.{Roles};
ghost use Rattle.cc_linked_programs.specs.Few.{EachOfText, FewTexts};
ghost use Rattle.cc_relocated_units.specs.Units.{IsSoundUnit};
ghost use Rattle.cc_operands.specs.CcSyntax.Sound.{IsSound};
ghost use Rattle.cc_things.specs.declared.text.Text.{Text};

/// Sound sources, which have few things with names, link to a sound program, where none defines a `main` that is an intrinsic's name (C99 6.9). The call does nothing.
pub fn sound_program_laws()
    ensures link_sound { (texts : List Text) (target : Target) (roles : Roles) (p : Program) → Links texts target roles p → ((t : ℕ) (x : Text) → slice_get texts t ≡ Some x → IsSoundUnit target x.unit) →
        EachOfText texts → ((t : ℕ) (x : Text) → slice_get texts t ≡ Some x → HasOwnMain roles x.unit) → FewTexts texts → IsSound p }
{}
