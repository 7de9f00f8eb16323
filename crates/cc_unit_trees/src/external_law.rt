//! What holds of the external declarations of a program's text.

ghost use Rattle.std.specs.Prelude.{◌≡◌, []};
ghost use Rattle.cc_unit_trees.specs.Externals.{externals, external_text};
ghost use Rattle.cc_print.specs.Printed.{printed};
ghost use Rattle.cc_print.specs.Units.{each};
ghost use Rattle.cc_program.specs.declared.program.Program.{Program};

/// The printed text of a program is that of its external declarations, one behind the other, and nothing else.
/// The call does nothing.
pub fn texts_are_of_externals()
    ensures text { (p : Program) → printed p ≡ each (external_text p) (externals p) [] }
{}
