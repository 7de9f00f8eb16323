//! The constraints of a program by their numbers, as what is solved.

ghost use Rattle.std.specs.Prelude.{true, length, slice_get};
ghost use Rattle.cc_rules_asked.specs.CcRules.Constraints.{constraints};
ghost use Rattle.cc_rules_system.specs.laws.Again.{fitting, counts, again_itself as met_again, lists};
ghost use Rattle.cc_rules_system.specs.System.{IsReady, Fits, AsksAt, again_at};
ghost use Rattle.cc_state_limits.specs.Held.{most_members};
ghost use Rattle.cc_rules_asked.specs.CcStateOperators.Domains.{domain};
ghost use Rattle.cc_state_room.specs.Room.{room_of};

use cc_fix::System;
use cc_program::num::NoMemory;
use cc_rules_asked::lattice::IntDomain;
use cc_rules_asked::state_facts::Facts;
use cc_rules_constraints::asked;
use cc_rules_grow::laws as grow_laws;
use cc_rules_lacking::first_lacking_asked;
use cc_rules_made::Rules;
use cc_rules_numbered::{Rule, constraint_at, constraint_count};
use cc_rules_raised::raise_asked;
use cc_rules_readers::{Index, again};
use cc_rules_shaped::laws as shape_laws;
use cc_state_limits::{held, laws as limit_laws};
use cc_state_room::{laws as room_laws, room};
use cc_state_shape::{laws as kind_laws, lowest};
use std::alloc::Global;
use std::marker::PhantomData;

/// The constraints on facts about a program in normal form, over a domain of numbers.
#[derive(Drop)]
pub struct ConstraintSystem<'p, I> {
    pub(crate) alloc: Global,
    pub(crate) rules: Rules<'p>,
    pub(crate) index: Index,
    pub(crate) numbers: PhantomData<I>,
}

impl<'p, I: IntDomain> System for ConstraintSystem<'p, I> {
    type Facts = Facts<I>;

    ghost IsReady = { λ s. IsReady (domain I.Has I.IsBelow I.OpGives I.OpOneGives I.ToGives I.KeepGives I.members_of) s.rules s.index };

    ghost IsFitting = { λ s f. Fits (domain I.Has I.IsBelow I.OpGives I.OpOneGives I.ToGives I.KeepGives I.members_of) s.rules.program.now f };

    ghost count_of = { λ s. length (constraints s.rules.program.now) };

    ghost Asks = { λ s i f g. AsksAt (domain I.Has I.IsBelow I.OpGives I.OpOneGives I.ToGives I.KeepGives I.members_of) s.rules.program.now i f g };

    ghost room_of = { λ _ f. room_of most_members I.room_of f };

    ghost settles_of = { λ _ _. true };

    ghost again_of = { λ s i f. again_at s.rules.program.now f (slice_get (constraints s.rules.program.now) i) };

    fn lowest(&self, alloc: Global) -> Result<Facts<I>, NoMemory> {
        let facts = lowest(alloc, self.rules.program, self.rules.flow)?;
        held(&facts);
        Ok(facts)
    }

    fn count(&self) -> u32 {
        constraint_count(self.rules.flow.points.all().len() as u32)
    }

    fn met(&self, alloc: Global, index: u32, facts: &Facts<I>) -> Result<bool, NoMemory> {
        grow_laws::<I>();
        let cells = self.rules.tracked.all().len() as u32;
        let list = asked(alloc, &self.rules, facts, index)?;
        let lacking = first_lacking_asked(alloc, facts, cells, &list)?;
        Ok(lacking.is_none())
    }

    fn raise(&self, alloc: Global, index: u32, facts: &mut Facts<I>) -> Result<bool, NoMemory> {
        shape_laws::<I>();
        grow_laws::<I>();
        kind_laws::<I>();
        limit_laws::<I>();
        room_laws::<I>();
        let list = asked(alloc, &self.rules, facts, index)?;
        raise_asked(alloc, self.rules.program, self.rules.flow, facts, &list)
    }

    fn again(&self, index: u32, facts: &Facts<I>, list: &mut Vec<u32>) -> Result<(), NoMemory> {
        again(
            self.alloc,
            &self.rules,
            &self.index,
            facts,
            constraint_at(index),
            list,
        )
    }

    /// Each is asked again where it reads what it raised.
    fn settles(&self, _index: u32) -> bool {
        true
    }

    fn room(&self, facts: &Facts<I>) -> u128 {
        limit_laws::<I>();
        room(facts, u64::MAX)
    }

    /// Handlers enter, and cells are no longer known, only once nothing else flows on.
    fn waits(&self, index: u32) -> bool {
        matches!(constraint_at(index).rule, Rule::Handler | Rule::Stability)
    }

    ghost fitting_alike = { λ s f g h k. fitting (domain I.Has I.IsBelow I.OpGives I.OpOneGives I.ToGives I.KeepGives I.members_of) s.rules.program.now f g h k };

    ghost again_counts = { λ s i f _ _. counts s.rules.program.now i f };

    ghost again_itself = { λ s i f g _ few first second raised. met_again (domain I.Has I.IsBelow I.OpGives I.OpOneGives I.ToGives I.KeepGives I.members_of) I.AreAlike I.below_itself I.below_through I.below_both_ways I.all_alike s.rules.program.now i f g few first second raised };

    ghost again_lists = { λ s i j f g few small first second raised met. lists (domain I.Has I.IsBelow I.OpGives I.OpOneGives I.ToGives I.KeepGives I.members_of) I.AreAlike I.below_itself I.below_through I.below_both_ways I.all_alike s.rules.program.now i j f g few small first second raised met };
}
