ghost use Rattle.std.specs.Prelude.{◌≡◌, ◌↔◌, true};
ghost use Rattle.std.specs.List.{list_all};
ghost use Rattle.cc_lower_numbers.specs.Numbered.{numbered};
ghost use Rattle.cc_lower_numbers_sound.specs.Devices.{AreDevicesInText};
ghost use Rattle.cc_lower_numbers_sound.specs.Names.{AreNamesApartButForTemporaries};
ghost use Rattle.cc_program.specs.declared.program.Program.{Program};
ghost use Rattle.cc_syntax.specs.Normal.{IsNormal, devices_in_order, is_normal_body};
ghost use Rattle.cc_syntax.specs.Sound.{AreNamesApart, IsSound, IsTypedProgram};

/// What numbering leaves of a program. The call does nothing.
pub fn numbered_laws()
    // It is typed where its source is.
    ensures typed { (p : Program) → IsTypedProgram p → IsTypedProgram (numbered p) }

    // Its names are apart where those of its source are, but for the temporaries (C99 6.2.1, 6.2.3); then it is sound.
    ensures apart { (p : Program) → IsTypedProgram p → AreNamesApartButForTemporaries p → AreNamesApart (numbered p) }
    ensures sound { (p : Program) → IsTypedProgram p → AreNamesApartButForTemporaries p → IsSound (numbered p) }

    // Its devices are in the order of the text exactly where each device without a name stands in the text of its source.
    ensures in_order { (p : Program) → IsTypedProgram p → (devices_in_order (numbered p) ≡ true) ↔ AreDevicesInText p }

    // Its bodies are in normal form exactly where those of its source are.
    ensures bodies { (p : Program) → list_all (λ f. is_normal_body p.target f) (numbered p).funcs ≡ list_all (λ f. is_normal_body p.target f) p.funcs }

    // So it is in normal form where its source is, but for the names of temporaries and for numbers.
    ensures normal { (p : Program) → IsTypedProgram p → AreNamesApartButForTemporaries p → AreDevicesInText p → list_all (λ f. is_normal_body p.target f) p.funcs ≡ true → IsNormal (numbered p) }
{}
