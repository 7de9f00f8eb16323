//! What holds of the printed text of a program in normal form, where it is read.

ghost use Rattle.std.specs.Prelude.{◌≡◌, [], ◌∷◌};
ghost use Rattle.cc_print.specs.Printed.{text};
ghost use Rattle.cc_program.specs.declared.program.Program.{Program};
ghost use Rattle.cc_read.specs.Texts.{Reads};
ghost use Rattle.cc_type.specs.CcSyntax.Normal.{IsNormal};

use crate::link_law::shown_programs_link;
use cc_read::laws;
use cc_shown_names::units_are_typed;
use cc_unit_trees::programs_read_back;

/// The printed text of a program in normal form is read as that program (C99 5.1.1.2, 6.9), and as no other: with the
/// names, numbers and order of what it has, and with each statement. The call does nothing.
pub fn programs_read()
    ensures reads { (p : Program) → IsNormal p → Reads (text p ∷ []) p.target p.roles p }
    ensures alone { (p q : Program) → IsNormal p → Reads (text p ∷ []) p.target p.roles q → p ≡ q }
{
    programs_read_back();
    units_are_typed();
    shown_programs_link();
    laws();
}
