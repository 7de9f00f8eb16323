ghost use Rattle.std.specs.Prelude.{◌≡◌, ◌<◌, ◌++◌, ℕ, map, length, All, IfOk, OnOk, Some, None};
ghost use Rattle.cc_program.specs.declared.expr.Place.{out-Place};
ghost use Rattle.cc_rules_flows.specs.Acts.{Sets, Reads, Writes, Saves, Turns, Restores};
ghost use Rattle.cc_rules_flows.specs.Flows.{tests_of};
ghost use Rattle.cc_rules_flows.specs.Here.{IsHere, IsRegister, MayDo, DoesFlow, IsAfter, IsWithFlags, KeepsShapeHere};
ghost use Rattle.cc_rules_flows.specs.Known.{Tells};
ghost use Rattle.cc_rules_flows.specs.View.{act_view};
ghost use Rattle.cc_rules_needs.specs.Flowing.{of_fact, with_flags};
ghost use Rattle.cc_state_reads.specs.CcStateFacts.declared.facts.PointFact.{PointFact};
ghost use Rattle.cc_state_reads.specs.CcStateKeys.Tracked.{register_number};
ghost use Rattle.cc_state_reads.specs.CcStateOperators.Domains.{domain};
ghost use Rattle.cc_state_reads.specs.Reads.{tracked_in};

use crate::acts::Act;
use crate::flag::flag_set;
use crate::known::{add_pair, set_cell, set_flags, set_local};
use cc_flow_sound::flow::Point;
use cc_program::num::NoMemory;
use cc_program::{Expr, Place};
use cc_state_reads::lattice::IntDomain;
use cc_state_reads::places::Abs;
use cc_state_reads::read_of;
use cc_state_reads::state_facts::{Facts, PointFact, copied_point};
use cc_state_reads::state_keys::number_in;
use cc_state_reads::state_operators::may_be;
use cc_state_reads::state_values::{Context, value_of};
use std::alloc::Global;

/// A point that is reached.
pub struct Here<'a, I> {
    /// Its function, with the sets of the registers there.
    pub context: Context<'a, I>,
    pub facts: &'a Facts<I>,
    /// The tracked cells.
    pub tracked: &'a [u32],
    /// Its number.
    pub number: u32,
    pub point: &'a Point,
    /// What is known there.
    pub fact: &'a PointFact<I>,
}

/// Puts a copy for each of some points.
fn put_copies<I: IntDomain>(
    alloc: Global,
    all: &mut Vec<(u32, PointFact<I>)>,
    next: &[u32],
    fact: &PointFact<I>,
) -> Result<(), NoMemory>
    ensures { OnOk result (all.new.items ≡ all.old.items ++ map (λ k. (k, fact.now)) next.now) }
{
    for k in next {
        all.push((*k, copied_point(alloc, fact)?))?;
    }
    Ok(())
}

/// The same to each of some points. Only those before the last get copies.
fn to_all<I: IntDomain>(
    alloc: Global,
    next: &[u32],
    fact: PointFact<I>,
) -> Result<Vec<(u32, PointFact<I>)>, NoMemory>
    ensures { IfOk result (λ all. all.items ≡ map (λ k. (k, fact)) next.now) }
{
    let mut all = Vec::new(alloc);
    match next {
        [] => Ok(all),
        [before @ .., last] => {
            put_copies(alloc, &mut all, before, &fact)?;
            all.push((*last, fact))?;
            Ok(all)
        }
    }
}

impl<'a, I: IntDomain> Here<'a, I> {
    /// The position of a register.
    fn register(&self, r: u32) -> u32
        requires here { IsHere (domain I.Has I.IsBelow I.OpGives I.OpOneGives I.ToGives I.KeepGives I.members_of) self.now }
        requires is { IsRegister (domain I.Has I.IsBelow I.OpGives I.OpOneGives I.ToGives I.KeepGives I.members_of) self.now r }
        ensures number { register_number self.now.context.func.now r ≡ Some result }
        ensures within { result < length self.now.fact.now.locals }
    {
        match number_in(self.context.registers, r) {
            None => unreachable!(),
            Some(number) => number as u32,
        }
    }

    /// Which tracked cell a place is, by position.
    fn cell(&self, a: &Place) -> Option<u32>
        requires { IsHere (domain I.Has I.IsBelow I.OpGives I.OpOneGives I.ToGives I.KeepGives I.members_of) self.now }
        ensures { result ≡ tracked_in self.now.context.program.now (out-Place a.now) }
    {
        match a {
            Place::Static(i) => Some(number_in(self.tracked, *i)? as u32),
            _ => None,
        }
    }

    /// A register gets an operand.
    fn sets(&self, alloc: Global, r: u32, e: &Expr) -> Result<PointFact<I>, NoMemory>
        requires here { IsHere (domain I.Has I.IsBelow I.OpGives I.OpOneGives I.ToGives I.KeepGives I.members_of) self.now }
        requires may { MayDo (domain I.Has I.IsBelow I.OpGives I.OpOneGives I.ToGives I.KeepGives I.members_of) self.now (Sets r e.now) }
        ensures { IfOk result (λ fact. IsAfter (domain I.Has I.IsBelow I.OpGives I.OpOneGives I.ToGives I.KeepGives I.members_of) self.now (Sets r e.now) (Some fact)) }
    {
        let set = value_of(alloc, &self.context, e)?;
        let mut fact = copied_point(alloc, self.fact)?;
        set_local(alloc, &mut fact, self.register(r), set)?;
        Ok(fact)
    }

    /// A register gets what a place holds, and equals it where that is a tracked cell.
    fn reads(&self, alloc: Global, r: u32, a: &Place) -> Result<PointFact<I>, NoMemory>
        requires here { IsHere (domain I.Has I.IsBelow I.OpGives I.OpOneGives I.ToGives I.KeepGives I.members_of) self.now }
        requires may { MayDo (domain I.Has I.IsBelow I.OpGives I.OpOneGives I.ToGives I.KeepGives I.members_of) self.now (Reads r a.now) }
        ensures { IfOk result (λ fact. IsAfter (domain I.Has I.IsBelow I.OpGives I.OpOneGives I.ToGives I.KeepGives I.members_of) self.now (Reads r a.now) (Some fact)) }
    {
        let set = read_of(
            alloc,
            &self.context,
            self.facts,
            self.number,
            self.tracked,
            a,
        )?;
        let number = self.register(r);
        let mut fact = copied_point(alloc, self.fact)?;
        set_local(alloc, &mut fact, number, set)?;
        add_pair(alloc, &mut fact, number, self.cell(a))?;
        Ok(fact)
    }

    /// A place gets an operand.
    fn writes(&self, alloc: Global, a: &Place, e: &Expr) -> Result<PointFact<I>, NoMemory>
        requires here { IsHere (domain I.Has I.IsBelow I.OpGives I.OpOneGives I.ToGives I.KeepGives I.members_of) self.now }
        requires may { MayDo (domain I.Has I.IsBelow I.OpGives I.OpOneGives I.ToGives I.KeepGives I.members_of) self.now (Writes a.now e.now) }
        ensures { IfOk result (λ fact. IsAfter (domain I.Has I.IsBelow I.OpGives I.OpOneGives I.ToGives I.KeepGives I.members_of) self.now (Writes a.now e.now) (Some fact)) }
    {
        let set = value_of(alloc, &self.context, e)?;
        let mut fact = copied_point(alloc, self.fact)?;
        set_cell(alloc, &mut fact, self.cell(a), set)?;
        Ok(fact)
    }

    /// The same where the flag may be so.
    fn with_flags(&self, alloc: Global, off: bool, on: bool) -> Result<PointFact<I>, NoMemory>
        ensures tells { IfOk result (λ fact. Tells fact (with_flags off on (of_fact self.now.fact.now))) }
        ensures kept { IfOk result (λ fact. KeepsShapeHere (domain I.Has I.IsBelow I.OpGives I.OpOneGives I.ToGives I.KeepGives I.members_of) self.now fact) }
    {
        let mut fact = copied_point(alloc, self.fact)?;
        set_flags(&mut fact, off, on);
        Ok(fact)
    }

    /// The same where the flag may be so. None where it can be neither.
    fn with_either(
        &self,
        alloc: Global,
        off: bool,
        on: bool,
    ) -> Result<Option<PointFact<I>>, NoMemory>
        ensures { IfOk result (λ fact. IsWithFlags (domain I.Has I.IsBelow I.OpGives I.OpOneGives I.ToGives I.KeepGives I.members_of) self.now off on fact) }
    {
        if off || on {
            Ok(Some(self.with_flags(alloc, off, on)?))
        } else {
            Ok(None)
        }
    }

    /// The flag is cleared, and a register gets what it was.
    fn saves_to(&self, alloc: Global, r: u32) -> Result<PointFact<I>, NoMemory>
        requires here { IsHere (domain I.Has I.IsBelow I.OpGives I.OpOneGives I.ToGives I.KeepGives I.members_of) self.now }
        requires may { MayDo (domain I.Has I.IsBelow I.OpGives I.OpOneGives I.ToGives I.KeepGives I.members_of) self.now (Saves (Some r)) }
        ensures { IfOk result (λ fact. IsAfter (domain I.Has I.IsBelow I.OpGives I.OpOneGives I.ToGives I.KeepGives I.members_of) self.now (Saves (Some r)) (Some fact)) }
    {
        let flag = flag_set(alloc, self.fact.off, self.fact.on)?;
        let mut fact = copied_point(alloc, self.fact)?;
        set_local(alloc, &mut fact, self.register(r), Abs::Ints(flag))?;
        set_flags(&mut fact, true, false);
        Ok(fact)
    }

    /// The flag is cleared.
    fn cleared(&self, alloc: Global) -> Result<PointFact<I>, NoMemory>
        ensures { IfOk result (λ fact. IsAfter (domain I.Has I.IsBelow I.OpGives I.OpOneGives I.ToGives I.KeepGives I.members_of) self.now (Saves None) (Some fact)) }
    {
        let fact = self.with_flags(alloc, true, false)?;
        Ok(fact)
    }

    /// The flag is cleared, and a register may get what it was.
    fn saves(&self, alloc: Global, r: Option<u32>) -> Result<PointFact<I>, NoMemory>
        requires here { IsHere (domain I.Has I.IsBelow I.OpGives I.OpOneGives I.ToGives I.KeepGives I.members_of) self.now }
        requires may { MayDo (domain I.Has I.IsBelow I.OpGives I.OpOneGives I.ToGives I.KeepGives I.members_of) self.now (Saves r) }
        ensures { IfOk result (λ fact. IsAfter (domain I.Has I.IsBelow I.OpGives I.OpOneGives I.ToGives I.KeepGives I.members_of) self.now (Saves r) (Some fact)) }
    {
        match r {
            None => self.cleared(alloc),
            Some(r) => self.saves_to(alloc, r),
        }
    }

    /// The flag is set where the operand is not 0, else it is cleared.
    fn restores(&self, alloc: Global, e: &Expr) -> Result<Option<PointFact<I>>, NoMemory>
        requires here { IsHere (domain I.Has I.IsBelow I.OpGives I.OpOneGives I.ToGives I.KeepGives I.members_of) self.now }
        requires may { MayDo (domain I.Has I.IsBelow I.OpGives I.OpOneGives I.ToGives I.KeepGives I.members_of) self.now (Restores e.now) }
        ensures { IfOk result (λ fact. IsAfter (domain I.Has I.IsBelow I.OpGives I.OpOneGives I.ToGives I.KeepGives I.members_of) self.now (Restores e.now) (fact)) }
    {
        let set = value_of(alloc, &self.context, e)?;
        self.with_either(alloc, may_be(false, &set), may_be(true, &set))
    }

    /// What each next point is told, where nothing is tested. None where nothing flows to these.
    fn fact_after(&self, alloc: Global, act: Act<'_>) -> Result<Option<PointFact<I>>, NoMemory>
        requires here { IsHere (domain I.Has I.IsBelow I.OpGives I.OpOneGives I.ToGives I.KeepGives I.members_of) self.now }
        requires may { MayDo (domain I.Has I.IsBelow I.OpGives I.OpOneGives I.ToGives I.KeepGives I.members_of) self.now (act_view act) }
        requires tests_none { tests_of self.now.number self.now.point.now.next (act_view act) ≡ None }
        ensures { IfOk result (λ fact. IsAfter (domain I.Has I.IsBelow I.OpGives I.OpOneGives I.ToGives I.KeepGives I.members_of) self.now (act_view act.entry) fact) }
    {
        match act {
            Act::Sets(r, e) => Ok(Some(self.sets(alloc, r, e)?)),
            Act::Reads(r, a) => Ok(Some(self.reads(alloc, r, a)?)),
            Act::Writes(a, e) => Ok(Some(self.writes(alloc, a, e)?)),
            Act::Turns(on) => Ok(Some(self.with_flags(alloc, !on, on)?)),
            Act::Saves(r) => Ok(Some(self.saves(alloc, r)?)),
            Act::Restores(e) => self.restores(alloc, e),
            Act::Calls(_, _, _) => Ok(None),
            Act::Returns(_) => Ok(Some(copied_point(alloc, self.fact)?)),
            Act::Passes => Ok(Some(copied_point(alloc, self.fact)?)),
            Act::Tests(_, _, _) => unreachable!(),
            Act::Chooses(_, _) => unreachable!(),
        }
    }

    /// What flows to the next points where nothing is tested: to each of these, by its number. A call lets nothing flow there.
    pub fn after(&self, alloc: Global, act: Act<'_>) -> Result<Vec<(u32, PointFact<I>)>, NoMemory>
        requires here { IsHere (domain I.Has I.IsBelow I.OpGives I.OpOneGives I.ToGives I.KeepGives I.members_of) self.now }
        requires may { MayDo (domain I.Has I.IsBelow I.OpGives I.OpOneGives I.ToGives I.KeepGives I.members_of) self.now (act_view act) }
        requires tests_none { tests_of self.now.number self.now.point.now.next (act_view act) ≡ None }
        ensures flows { IfOk result (λ told. DoesFlow (domain I.Has I.IsBelow I.OpGives I.OpOneGives I.ToGives I.KeepGives I.members_of) self.now (act_view act.entry) told.items) }
        ensures kept { IfOk result (λ told. All (λ (flow : ℕ × PointFact I). KeepsShapeHere (domain I.Has I.IsBelow I.OpGives I.OpOneGives I.ToGives I.KeepGives I.members_of) self.now flow.1) told.items) }
    {
        let known = self.fact_after(alloc, act)?;
        match known {
            None => Ok(Vec::new(alloc)),
            Some(fact) => to_all(alloc, self.point.next.all(), fact),
        }
    }
}
