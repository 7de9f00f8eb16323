//! What holds of the structures of a program in the unit that is left behind its text.

ghost use Rattle.std.specs.Prelude.{◌≡◌, ℕ, length, map, Some, slice_get};
ghost use Rattle.cc_type.specs.CcNumbering.Numbers.{numbers_of, order_of};
ghost use Rattle.cc_type.specs.CcNumbering.Structures.{structures_in};
ghost use Rattle.cc_program.specs.declared.program.Program.{Program};
ghost use Rattle.cc_program.specs.declared.types.Structure.{Structure};
ghost use Rattle.cc_shown_declarations.specs.Left.{structure_left};
ghost use Rattle.cc_shown_declarations.specs.Order.{appearance, structure_number};
ghost use Rattle.cc_shown_declarations.specs.States.{first_state, known_as};
ghost use Rattle.cc_type.specs.CcSyntax.Sound.{IsSound};

/// What holds of the structures of a sound program in the unit that its text leaves: there they have the program's order
/// and numbers, whatever the order in which the text names them first. The call does nothing.
pub fn structures_are_left()
    // From its number while the text is read each comes back to its own.
    ensures numbers { (p : Program) → IsSound p → (i : ℕ) (s : Structure) → slice_get p.structures i ≡ Some s →
        slice_get (numbers_of (first_state p (length p.structures) (appearance p))) (structure_number p i) ≡ Some i }
    // With these numbers they are the program's, in its order.
    ensures structures { (p : Program) → IsSound p →
        structures_in (numbers_of (first_state p (length p.structures) (appearance p))) (map (known_as p (length p.structures)) (appearance p)) (order_of (first_state p (length p.structures) (appearance p)))
        ≡ map structure_left p.structures }
{}
