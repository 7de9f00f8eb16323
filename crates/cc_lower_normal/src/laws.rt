ghost use Rattle.std.specs.Prelude.{◌≡◌, true, All};
ghost use Rattle.cc_accessed_operands.specs.Accessed.{AreDevicesAccessed};
ghost use Rattle.cc_lower_continues.specs.Continues.{HasFewLocals};
ghost use Rattle.cc_lower_normal.specs.Lowered.{lowered_but_for_names};
ghost use Rattle.cc_lower_numbers.specs.Numbered.{numbered};
ghost use Rattle.cc_lower_numbers_sound.specs.Devices.{AreDevicesInText};
ghost use Rattle.cc_lower_numbers_sound.specs.Names.{AreNamesApartButForTemporaries};
ghost use Rattle.cc_lower_sound.specs.Folded.{has_folded_expressions};
ghost use Rattle.cc_lower_sound.specs.Normal.{IsNormalButForNames};
ghost use Rattle.cc_program.specs.declared.program.Program.{Program};
ghost use Rattle.cc_states.specs.CcSyntax.Normal.{IsNormal, devices_in_order};
ghost use Rattle.cc_states.specs.CcSyntax.Sound.{IsSound, IsTypedProgram};

/// What lowering leaves of a program, where no function has more locals than ids can number. The call does nothing.
pub fn lowered_laws()
    // Before temporaries have names it is typed where its source is, and its other names are apart (C99 6.2.1, 6.2.3).
    ensures typed { (p : Program) → IsTypedProgram p → All HasFewLocals (lowered_but_for_names p).funcs → IsTypedProgram (lowered_but_for_names p) }
    ensures names { (p : Program) → IsSound p → AreNamesApartButForTemporaries (lowered_but_for_names p) }

    // A sound program is sound when it is lowered.
    ensures sound { (p : Program) → IsSound p → All HasFewLocals (lowered_but_for_names p).funcs → IsSound (numbered (lowered_but_for_names p)) }

    // Each device without a name stands in its text where each is accessed by its source.
    ensures devices { (p : Program) → AreDevicesAccessed p → AreDevicesInText (lowered_but_for_names p) }

    // It is in normal form where the expressions of its source are folded, and access each device without a name.
    ensures normal { (p : Program) → IsSound p → has_folded_expressions p ≡ true → AreDevicesAccessed p → All HasFewLocals (lowered_but_for_names p).funcs → IsNormal (numbered (lowered_but_for_names p)) }

    // So it is where its devices are in order, which can be looked at.
    ensures ordered { (p : Program) → IsSound p → has_folded_expressions p ≡ true → All HasFewLocals (lowered_but_for_names p).funcs → devices_in_order (numbered (lowered_but_for_names p)) ≡ true →
        IsNormal (numbered (lowered_but_for_names p)) }

    // What is in normal form but for names and numbers is in normal form when it is numbered.
    ensures numbered_normal { (p : Program) → IsNormalButForNames p → AreNamesApartButForTemporaries p → AreDevicesInText p → IsNormal (numbered p) }
{}
