ghost use Rattle.std.specs.Prelude.{◌≡◌, ◌⊎◌, ℕ, Bool, true, List, None, Some, slice_get};
ghost use Rattle.cc_causes.specs.Causes.{cause_of_things};
ghost use Rattle.cc_definitions.specs.Definitions.{thing_at};
ghost use Rattle.cc_link.specs.Linked.{all_ids, id_at, ids_in};
ghost use Rattle.cc_structures.proofs.Elements.{In};
ghost use Rattle.cc_structures.specs.Structures.{Numbering, type_in};
ghost use Rattle.cc_things.specs.Mentions.{Mention, mentions};
ghost use Rattle.cc_things.specs.Things.{Numbered, identities, identity_of, is_defined, is_device, number_in, thing_of, things};
ghost use Rattle.cc_things.specs.declared.text.Text.{Text};
ghost use Rattle.cc_unit.specs.declared.unit.UnitName.{UnitName};
ghost use Rattle.cc_linked_programs.specs.NamedThings.{IsNamed, mention_of};

/// What holds of the names of sources (C99 6.2.2, 6.2.7). The call does nothing.
pub fn thing_laws()
    // A name has the id of its thing, which is that of its identity.
    ensures ids { (texts : List Text) (numbering : Numbering) (t : ℕ) (x : Text) (i : ℕ) (n : UnitName) → slice_get texts t ≡ Some x → slice_get x.unit.names i ≡ Some n →
        slice_get (ids_in (all_ids texts numbering) t).names i ≡ Some (id_at (things texts) (number_in (identities (mentions texts)) (mention_of t x i n))) }
    ensures things { (texts : List Text) (m : Mention) → In m (mentions texts) → thing_at (things texts) (number_in (identities (mentions texts)) m) ≡ thing_of (mentions texts) (identity_of m) }

    // Where no cause stands against the things, what is used is defined, or a device; and what is one thing, but a device without a name, has one type in all sources.
    ensures used { (texts : List Text) → ((m : Mention) → In m (mentions texts) → IsNamed m) → (numbering : Numbering) → cause_of_things numbering (things texts) ≡ None → (m : Mention) → In m (mentions texts) → m.used ≡ true →
        (is_defined (thing_of (mentions texts) (identity_of m)) ≡ true) ⊎ (is_device (thing_of (mentions texts) (identity_of m)) ≡ true) }
    ensures types { (texts : List Text) → ((m : Mention) → In m (mentions texts) → IsNamed m) → (numbering : Numbering) → cause_of_things numbering (things texts) ≡ None → (m k : Mention) → In m (mentions texts) → In k (mentions texts) →
        identity_of k ≡ identity_of m → ((n i : ℕ) (c : Bool) → identity_of m ≡ Numbered n i c → ⊥) → type_in numbering k.text k.name.ctype ≡ type_in numbering m.text m.name.ctype }
{}
