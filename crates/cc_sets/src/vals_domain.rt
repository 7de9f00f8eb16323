ghost use Rattle.std.specs.Prelude.{IsOkAnd};
ghost use Rattle.cc_lattice.specs.Orders.{IsLeastUpperBound};
ghost use Rattle.cc_sets.specs.Rungs.{ValsHas, ValsBelow, IsHull, vals_members, vals_ends, vals_room};
ghost use Rattle.cc_sets.specs.Results.{OpResult, OneResult, IsConverted, IsKept};
ghost use Rattle.cc_sets.specs.laws.Ends.{set_ends, set_none, set_reach};
ghost use Rattle.cc_sets.specs.laws.RungLaws.{sets_same, set_members_ascend, set_members_all, set_room, set_room_falls};
ghost use Rattle.cc_sets.specs.laws.SetLaws.{set_op_has, set_op_grows, set_one_has, set_one_grows, set_to_has, set_to_grows, set_keep_has, set_keep_below, set_keep_grows};
ghost use Rattle.cc_sets.specs.laws.ToldSets.{set_comparison_told, set_to_kept, set_least_alone, set_below_explicit, set_range_has};
ghost use Rattle.cc_sets.specs.laws.TypedSets.{set_op_typed, set_one_typed, set_to_typed, set_join_typed};

use crate::Vals;
use crate::image::{convert_few, image, image_of_one};
use crate::keep::{keep_few, keep_range};
use crate::make::{joined, one, whole};
use crate::range_rule::{convert_range, op_one_range, op_range};
use cc_explicit::{Explicit, MOST_MEMBERS};
use cc_lattice::{Concrete, IntDomain, Lattice};
use cc_num::{BinOp, IntType, NoMemory, Target, UnOp};
use std::alloc::Global;

impl Lattice for Vals {
    ghost AreAlike = { λ _ _. Unit {0} };

    ghost IsBelow = { ValsBelow };

    fn below(&self, other: &Vals) -> bool {
        match (self, other) {
            (Vals::Few(a), Vals::Few(b)) => a.is_within(b),
            (Vals::Few(a), Vals::Many(b)) => match a.ends() {
                Some((low, high)) => b.reaches(low, high),
                None => true,
            },
            (Vals::Many(_), Vals::Few(_)) => false,
            (Vals::Many(a), Vals::Many(b)) => b.reaches(a.low(), a.high()),
        }
    }

    fn join(&self, _alloc: Global, other: &Vals) -> Result<Vals, NoMemory>
        ensures { IsOkAnd result (λ both. IsLeastUpperBound (λ _ _. Unit {0}) ValsBelow self.now other.now both) }
    {
        Ok(joined(self, other))
    }

    ghost alike_itself = { λ _ _ _. tt };

    ghost alike_back = { λ _ _ _. tt };

    ghost below_itself = { λ _ _ _ h. h };

    ghost below_through = { λ _ _ _ _ _ _ a b v h. b v (a v h) };

    ghost below_both_ways = { λ x y _ a b. sets_same x y a b };
}

impl Concrete for Vals {
    ghost Has = { ValsHas };

    fn has(&self, v: i128) -> bool {
        self.contains(v)
    }
}

impl IntDomain for Vals {
    ghost OpGives = { λ o a b t c r. IsHull (OpResult o a b t c) r };

    ghost OpOneGives = { λ o a t c r. IsHull (OneResult o a t c) r };

    ghost ToGives = { λ a t c r. IsHull (IsConverted a t c) r };

    ghost KeepGives = { λ test a b r. IsHull (IsKept test a b) r };

    ghost members_of = { vals_members };

    ghost bounds_of = { vals_ends };

    ghost room_of = { vals_room };

    fn none(alloc: Global) -> Vals {
        Vals::Few(Explicit::none(alloc))
    }

    fn one(alloc: Global, v: i128) -> Vals {
        one(alloc, v)
    }

    fn whole(alloc: Global, t: IntType, target: &Target) -> Vals {
        whole(alloc, t, target)
    }

    fn op(op: BinOp, a: &Vals, b: &Vals, t: IntType, target: &Target) -> Vals {
        match (a, b) {
            (Vals::Few(a), Vals::Few(b)) => image(op, a, b, t, target),
            (Vals::Few(_), Vals::Many(_)) => op_range(op, a, b, t, target),
            (Vals::Many(_), _) => op_range(op, a, b, t, target),
        }
    }

    fn op_one(op: UnOp, a: &Vals, t: IntType, target: &Target) -> Vals {
        match a {
            Vals::Few(a) => image_of_one(op, a, t, target),
            Vals::Many(a) => op_one_range(op, a, t, target),
        }
    }

    fn to(&self, t: IntType, target: &Target) -> Vals {
        match self {
            Vals::Few(a) => convert_few(a, t, target),
            Vals::Many(a) => convert_range(a, t, target),
        }
    }

    fn keep(&self, test: BinOp, other: &Vals) -> Vals {
        match self {
            Vals::Few(a) => keep_few(test, a, other),
            Vals::Many(a) => keep_range(test, a, other),
        }
    }

    fn members(&self) -> Option<&[i128]> {
        match self {
            Vals::Few(few) => Some(few.members()),
            Vals::Many(_) => None,
        }
    }

    fn bounds(&self) -> Option<(i128, i128)> {
        self.ends()
    }

    fn room(&self) -> u128 {
        match self {
            Vals::Few(few) => (MOST_MEMBERS - few.members().len()) as u128 + 59,
            Vals::Many(range) => u128::from(65 - range.bits),
        }
    }

    ghost all_alike = { λ _ _. tt };

    ghost below_has = { λ x y h v. h v };

    ghost members_below = { λ _ _ h. h };

    ghost in_reach = { set_reach };

    ghost op_typed = { set_op_typed };

    ghost op_one_typed = { set_one_typed };

    ghost to_typed = { set_to_typed };

    ghost join_typed = { set_join_typed };

    ghost op_has = { set_op_has };

    ghost op_grows = { set_op_grows };

    ghost comparison_told = { set_comparison_told };

    ghost op_one_has = { set_one_has };

    ghost op_one_grows = { set_one_grows };

    ghost to_has = { set_to_has };

    ghost to_grows = { set_to_grows };

    ghost to_kept = { set_to_kept };

    ghost keep_has = { set_keep_has };

    ghost keep_below = { set_keep_below };

    ghost keep_grows = { set_keep_grows };

    ghost least_alone = { set_least_alone };

    ghost below_explicit = { set_below_explicit };

    ghost range_has = { set_range_has };

    ghost members_ascend = { set_members_ascend };

    ghost members_all = { set_members_all };

    ghost bounds_none = { set_none };

    ghost bounds_ends = { set_ends };

    ghost room_bound = { set_room };

    ghost room_falls = { set_room_falls };
}
