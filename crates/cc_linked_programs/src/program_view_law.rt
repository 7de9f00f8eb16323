ghost use Rattle.std.specs.Prelude.{◌≡◌, ℕ, true, List, None, Option, Some, slice_get};
ghost use Rattle.cc_causes.specs.Causes.{bad_handler};
ghost use Rattle.cc_causes.specs.Entries.{entry_at};
ghost use Rattle.cc_program.specs.CcNum.declared.target.Target.{Target};
ghost use Rattle.cc_program.specs.declared.program.Roles.{Roles};
ghost use Rattle.cc_relocated_units.specs.Units.{IsSoundUnit};
ghost use Rattle.cc_structures.proofs.Elements.{In};
ghost use Rattle.cc_things.specs.Mentions.{Mention, mentions};
ghost use Rattle.cc_things.specs.Things.{identities, identity_of, is_used, number_in, thing_of, things};
ghost use Rattle.cc_things.specs.declared.text.Text.{Text};

/// What holds of handlers of sound sources, whatever names things are given. The call does nothing.
pub fn program_view_laws()
    // Where no handler is a bad one, what is used is none.
    ensures handlers { (texts : List Text) (target : Target) → ((t : ℕ) (x : Text) → slice_get texts t ≡ Some x → IsSoundUnit target x.unit) → (roles : Roles) (name_of : ℕ → Option (List ℕ)) → bad_handler (things texts) roles name_of ≡ None →
        (m : Mention) → In m (mentions texts) → is_used (thing_of (mentions texts) (identity_of m)) ≡ true → entry_at (things texts) roles name_of (number_in (identities (mentions texts)) m) ≡ None }
{}
