//! What holds of the unit that a program's text is.

ghost use Rattle.std.specs.Prelude.{◌≡◌, ℕ, List, [], ◌∷◌, length, true};
ghost use Rattle.cc_link.specs.Linked.{Links};
ghost use Rattle.cc_program.specs.declared.program.Program.{Program};
ghost use Rattle.cc_printed_programs.specs.Ascending.{Ascend};
ghost use Rattle.cc_printed_programs.specs.Units.{unit_shown};
ghost use Rattle.cc_type.specs.CcSyntax.Normal.{devices_in_order};
ghost use Rattle.cc_type.specs.CcSyntax.Sound.{IsSound};
ghost use Rattle.cc_things.specs.declared.text.Text.{Text};

/// What holds of the unit that a sound program's text is, where the offsets of the functions' definitions never fall and those
/// of the objects' do not: it links to the program, and to no other structure, device, object, function or name (C99 6.2.2,
/// 6.2.7, 6.9). The call does nothing.
pub fn shown_programs_link()
    ensures links { (p : Program) → IsSound p → devices_in_order p ≡ true → (function_at object_at : ℕ → ℕ) → Ascend (length p.funcs) function_at → Ascend (length p.objects) object_at → (identifiers : List (List ℕ)) →
        let text : Text = record { unit = unit_shown p function_at object_at; identifiers = identifiers } in Links (text ∷ []) p.target p.roles p }
{}
