ghost use Rattle.std.specs.Prelude.{ℕ, ◌≡◌, ◌≢◌, ◌<◌, ◌≤◌, ◌⊎◌, List, false, length};
ghost use Rattle.cc_program.specs.declared.value.Address.{Address};
ghost use Rattle.cc_program.specs.declared.value.Address.TheVariants as address;
ghost use Rattle.cc_program.specs.declared.value.Part.{Part};
ghost use Rattle.cc_program.specs.declared.value.Root.{Root};
ghost use Rattle.cc_lattice.specs.Orders.{IsLeastUpperBound};
ghost use Rattle.cc_places.specs.declared.addrs.Addrs.{Addrs};
ghost use Rattle.cc_places.specs.Sets.{HasAddress, IsWithin, AreFew, IsSetOf, EitherHas, room_left};

/// What the definitions that this crate's contracts cite keep of sets of addresses. The call does nothing.
pub fn laws()
    // What addresses make is one set.
    ensures one_set { (x y : Addrs) → IsSetOf (HasAddress x) y → x ≡ y }

    // The least set that two lie in is that of the addresses of both.
    ensures join { (x y j : Addrs) → IsSetOf (EitherHas x y) j → IsLeastUpperBound (λ _ _. Unit {0}) IsWithin x y j }

    // A set that is not exact lies in no exact one.
    ensures coarser { (x y : Addrs) → IsWithin x y → x.is_exact ≡ false → y.is_exact ≡ false }

    // A set that another one lies in has less room, where sets that are not exact have at most so many members.
    ensures room { (most : ℕ) (x y : Addrs) → IsWithin x y → x ≢ y → (y.is_exact ≡ false → length y.members ≤ most) → room_left most y < room_left most x }

    // The set of the first 65 elements of an array of 80 has the last one.
    ensures elements { (o : Root) (p : List Part) (s : Addrs) → IsSetOf (λ a. (k : ℕ) × (k < 65) × (a ≡ address.At o p k 80)) s → HasAddress s (address.At o p 79 80) }
{}
