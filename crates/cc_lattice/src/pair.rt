ghost use Rattle.cc_lattice.specs.Pairs.{pairs_same};

use crate::Lattice;
use cc_num::NoMemory;
use std::alloc::Global;

/// Two values, each of a lattice. One pair is below another where each part is.
#[derive(Debug, Drop)]
pub struct Pair<A, B> {
    pub first: A,
    pub second: B,
}

impl<A: Lattice, B: Lattice> Lattice for Pair<A, B> {
    ghost AreAlike = { λ x y. A.AreAlike x.first y.first × B.AreAlike x.second y.second };

    ghost IsBelow = { λ x y. A.IsBelow x.first y.first × B.IsBelow x.second y.second };

    fn below(&self, other: &Pair<A, B>) -> bool {
        self.first.below(&other.first) && self.second.below(&other.second)
    }

    fn join(&self, alloc: Global, other: &Pair<A, B>) -> Result<Pair<A, B>, NoMemory> {
        let first = self.first.join(alloc, &other.first)?;
        let second = self.second.join(alloc, &other.second)?;
        Ok(Pair { first, second })
    }

    ghost alike_itself = { λ x y h. (A.alike_itself x.first y.first h.0, B.alike_itself x.second y.second h.1) };

    ghost alike_back = { λ x y h. (A.alike_back x.first y.first h.0, B.alike_back x.second y.second h.1) };

    ghost below_itself = { λ x h. (A.below_itself x.first h.0, B.below_itself x.second h.1) };

    ghost below_through = { λ x y z xy yz xz a b. (
      A.below_through x.first y.first z.first xy.0 yz.0 xz.0 a.0 b.0,
      B.below_through x.second y.second z.second xy.1 yz.1 xz.1 a.1 b.1,
    ) };

    ghost below_both_ways = { λ x y h a b. pairs_same x y
        (A.below_both_ways x.first y.first h.0 a.0 b.0)
        (B.below_both_ways x.second y.second h.1 a.1 b.1) };
}
