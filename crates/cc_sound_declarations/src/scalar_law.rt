ghost use Rattle.std.specs.Prelude.{◌≡◌};
ghost use Rattle.cc_typed_bodies.specs.CcInitialisers.Contents.{Contents};
ghost use Rattle.cc_typed_bodies.specs.CcInitialisers.Initialisers.{here, initialised};
ghost use Rattle.cc_tree.specs.declared.at.At.{At};
ghost use Rattle.cc_tree.specs.declared.unit.Given.{Given};
ghost use Rattle.cc_sound_declarations.specs.Scalars.{AreUnbroken, scalars_of, steps_give};

/// What holds of the steps of an initialiser (C99 6.7.8, 19 to 21). The call does nothing.
pub fn scalar_laws()
    // Where none of them breaks a rule, they give each scalar of the object something, with its type and whether it is const, in the order of paths.
    ensures each { (c : Contents) (g : At Given) → AreUnbroken (initialised c (here g)) → steps_give (initialised c (here g)) ≡ scalars_of c }
{}
