ghost use Rattle.std.specs.Prelude.{◌≡◌, ◌≤◌, ◌<◌, ◌↔◌, ℕ, true, All, length, List, Some, slice_get};
ghost use Rattle.cc_lower_continues.specs.Continues.{HasFewLocals, flagged_program};
ghost use Rattle.cc_lower_expressions.specs.Programs.{lower_expressions_program, lower_func};
ghost use Rattle.cc_lower_sound.specs.Folded.{has_folded_expressions};
ghost use Rattle.cc_lower_sound.specs.Normal.{IsNormalButForNames};
ghost use Rattle.cc_lower_sound.specs.Statements.{has_plain_statements};
ghost use Rattle.cc_lower_statements.specs.Statements.{lower_program};
ghost use Rattle.cc_program.specs.declared.func.Func.{Func};
ghost use Rattle.cc_program.specs.declared.program.Program.{Program};
ghost use Rattle.cc_eval.specs.CcSyntax.Normal.{IsNormal, devices_in_order};
ghost use Rattle.cc_eval.specs.CcSyntax.Registers.{is_register};
ghost use Rattle.cc_eval.specs.CcSyntax.Sound.{AreNamesApart, IsTypedProgram};

/// What lowering the statements of a program leaves: it is typed where its source is, and each loop is `while (1)`, without blocks
/// and without empty statements (C99 6.8). The call does nothing.
pub fn lowered_statement_laws()
    ensures typed { (p : Program) → IsTypedProgram p → IsTypedProgram (lower_program p) }
    ensures plain { (p : Program) → has_plain_statements (lower_program p) ≡ true }

    // Its expressions are folded where those of its source are, and so they are where a `do` gets a flag.
    ensures folded { (p : Program) → has_folded_expressions p ≡ true → has_folded_expressions (lower_program p) ≡ true }
    ensures flagged_folded { (p : Program) → has_folded_expressions p ≡ true → has_folded_expressions (flagged_program p) ≡ true }
{}

/// What lowering the expressions of a program leaves, where each of its loops is `while (1)`, without blocks and without empty
/// statements. The call does nothing.
pub fn lowered_expression_laws()
    // It is typed where its source is, unless temporaries are more than ids can number.
    ensures typed { (p : Program) → IsTypedProgram p → has_plain_statements p ≡ true → All HasFewLocals (lower_expressions_program p).funcs → IsTypedProgram (lower_expressions_program p) }

    // It is in normal form, but for names and the numbers of devices, where the expressions of its source are folded.
    ensures normal { (p : Program) → IsTypedProgram p → has_plain_statements p ≡ true → has_folded_expressions p ≡ true → All HasFewLocals (lower_expressions_program p).funcs →
        IsNormalButForNames (lower_expressions_program p) }

    // A register stays one, and each temporary is one.
    ensures registers { (p : Program) → IsTypedProgram p → has_plain_statements p ≡ true → (i : ℕ) (f : Func) → slice_get p.funcs i ≡ Some f → (r : ℕ) → is_register f r ≡ true → is_register (lower_func p f) r ≡ true }
    ensures temporaries { (p : Program) → IsTypedProgram p → has_plain_statements p ≡ true → (i : ℕ) (f : Func) → slice_get p.funcs i ≡ Some f →
        (r : ℕ) → length f.locals ≤ r → r < length (lower_func p f).locals → is_register (lower_func p f) r ≡ true }

    // Normal form is that, and names that are apart, and devices in the order of the text.
    ensures whole { (p : Program) → IsNormal p ↔ (IsNormalButForNames p × AreNamesApart p × (devices_in_order p ≡ true)) }
{}

/// What is left where `do`s get flags, then statements are lowered, and then expressions: it is typed, and in normal form but for
/// names and the numbers of devices. The call does nothing.
pub fn lowered_program_laws()
    ensures typed { (p : Program) → IsTypedProgram (flagged_program p) → All HasFewLocals (lower_expressions_program (lower_program (flagged_program p))).funcs →
        IsTypedProgram (lower_expressions_program (lower_program (flagged_program p))) }
    ensures normal { (p : Program) → IsTypedProgram (flagged_program p) → has_folded_expressions p ≡ true → All HasFewLocals (lower_expressions_program (lower_program (flagged_program p))).funcs →
        IsNormalButForNames (lower_expressions_program (lower_program (flagged_program p))) }
{}
