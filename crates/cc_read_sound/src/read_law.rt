ghost use Rattle.std.specs.Prelude.{◌<◌, ◌^◌, ℕ, List, length, map};
ghost use Rattle.std.specs.List.{AllZip, sum};
ghost use Rattle.cc_program.specs.CcNum.declared.target.Target.{Target};
ghost use Rattle.cc_program.specs.declared.program.Program.{Program};
ghost use Rattle.cc_program.specs.declared.program.Roles.{Roles};
ghost use Rattle.cc_linked_programs.specs.Few.{FewTexts};
ghost use Rattle.cc_read.specs.Texts.{IsTypedText, Reads};
ghost use Rattle.cc_type.specs.CcSyntax.Sound.{IsSound};
ghost use Rattle.cc_things.specs.declared.text.Text.{Text};

/// What holds of texts that together have fewer than 2^32 bytes (C99 5.1.1.2, 6.9). The call does nothing.
pub fn read_laws()
    // What linking takes of them is few.
    ensures few { (target : Target) (roles : Roles) (texts : List (List ℕ)) (units : List Text) → AllZip (IsTypedText target roles) texts units → sum (map length texts) < 2 ^ 32 → FewTexts units }
    // The program that they are read as is sound.
    ensures sound { (texts : List (List ℕ)) (target : Target) (roles : Roles) (p : Program) → Reads texts target roles p → sum (map length texts) < 2 ^ 32 → IsSound p }
{}
