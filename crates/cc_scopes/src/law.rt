ghost use Rattle.std.specs.Prelude.{◌≡◌, ℕ, List, Some, if◌then◌else◌};
ghost use Rattle.std.specs.Str.{bytes_eq};
ghost use Rattle.cc_scopes.specs.State.{find_name, with_name};
ghost use Rattle.cc_scopes.specs.declared.designated.Designated.{Designated};
ghost use Rattle.cc_scopes.specs.declared.designated.Tagged.{Tagged};

/// What the definition of a scope keeps: a name that is bound designates that, and no other name's meaning changes. The
/// call does nothing.
#[tactic(auto, using(crate::proofs::LinkedLemmas::of_laws))]
pub fn laws()
    ensures names { (x y : List ℕ) (d : Designated) (names : List (List ℕ × Designated)) →
        find_name x (with_name y d names) ≡ (if bytes_eq x y then Some d else find_name x names) }
    ensures tags { (x y : List ℕ) (t : Tagged) (tags : List (List ℕ × Tagged)) →
        find_name x (with_name y t tags) ≡ (if bytes_eq x y then Some t else find_name x tags) }
{}
