ghost use Rattle.std.specs.Prelude.{ℕ, List};
ghost use Rattle.cc_program.specs.declared.program.Program.{Program};
ghost use Rattle.cc_rewrite_renamed.specs.Objects.{with_objects_ordered};
ghost use Rattle.cc_rewrite_renamed.specs.Orders.{IsOrderOf};
ghost use Rattle.cc_eval.specs.CcSyntax.Normal.{IsNormal};
ghost use Rattle.cc_eval.specs.CcSyntax.Sound.{AreNamesApart, IsSound, IsTypedProgram};

/// What is left of a program when its static objects stand in another order, without those that neither its functions nor the first values of the
/// others name. The call does nothing.
pub fn ordered_sound_laws()
    // It is typed where its source is, and its names are apart where those of its source are; so it is sound where that is.
    ensures typed { (order : List ℕ) (p : Program) → IsOrderOf order p → IsTypedProgram p → IsTypedProgram (with_objects_ordered order p) }
    ensures apart { (order : List ℕ) (p : Program) → IsOrderOf order p → AreNamesApart p → AreNamesApart (with_objects_ordered order p) }
    ensures sound { (order : List ℕ) (p : Program) → IsOrderOf order p → IsSound p → IsSound (with_objects_ordered order p) }

    // It is in normal form where its source is.
    ensures normal { (order : List ℕ) (p : Program) → IsOrderOf order p → IsNormal p → IsNormal (with_objects_ordered order p) }
{}
