ghost use Rattle.std.specs.Prelude.{◌≡◌, true, List, Ok};
ghost use Rattle.cc_sound_declarations.specs.Scalars.{scalars_of};
ghost use Rattle.cc_sound_declarations.specs.Values.{AreGiven, MayStand};
ghost use Rattle.cc_typed_bodies.specs.CcInitialisers.Contents.{Contents};
ghost use Rattle.cc_typed_bodies.specs.CcInitialisers.Initialisers.{here, initialised};
ghost use Rattle.cc_typed_bodies.specs.CcObjects.Values.{expr_given, no_expr};
ghost use Rattle.cc_program.proofs.Each.{Each};
ghost use Rattle.cc_program.specs.declared.expr.Expr.{Expr};
ghost use Rattle.cc_program.specs.declared.program.Roles.{Roles};
ghost use Rattle.cc_typed_bodies.specs.CcScopes.State.{State};
ghost use Rattle.cc_sound_declarations.specs.Ranges.{given_in_range};
ghost use Rattle.cc_sound_terms.specs.Behind.{Extends};
ghost use Rattle.cc_sound_terms.specs.Typing.{Knows};
ghost use Rattle.cc_typed_bodies.specs.CcSyntax.Types.{Named};
ghost use Rattle.cc_typed_bodies.specs.CcSyntax.Views.{View};
ghost use Rattle.cc_tree.specs.declared.at.At.{At};
ghost use Rattle.cc_tree.specs.declared.unit.Given.{Given};
ghost use Rattle.cc_typed_bodies.specs.Plans.{steps_done};

/// What an initialiser of an automatic object gives, over any view and any locals (C99 6.7.8, 11 and 20). The call does nothing.
pub fn value_laws()
    // Where the types of the object's scalars may stand, each of them is given an expression that may be assigned to it, in the order of paths, and none is const.
    ensures values { (v : View) (locals : List Named) (roles : Roles) (c : Contents) (g : At Given) → given_in_range g.node ≡ true → (s : State) (r : List Expr × State) →
        steps_done v.target roles Expr (expr_given v.target) no_expr (initialised c (here g)) s ≡ Ok r →
        Extends v s r.1 × (Knows v locals s r.1 → Each (MayStand v) (scalars_of c) → AreGiven v locals (scalars_of c) r.0) }
{}
