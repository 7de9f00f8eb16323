//! What is asked where main is entered: that main reaches it, at level 0, with the flag off and with the first values of tracked cells.

ghost use Rattle.std.specs.Prelude.{◌≡◌, ◌≢◌, ◌<◌, ◌^◌, map, length, true, false, [], ◌∷◌, IfOk, Some};
ghost use Rattle.cc_rules_asked.specs.CcFlowSound.Moves.{entry};
ghost use Rattle.cc_rules_asked.specs.CcRules.Rules.{IsStarted};
ghost use Rattle.cc_rules_asked.specs.Asked.{all_needs};
ghost use Rattle.cc_rules_firsts.specs.Rows.{AreFirstRows};
ghost use Rattle.cc_rules_firsts.specs.Starts.{IsFirstFact};
ghost use Rattle.cc_rules_functions.specs.Functions.{IsFunctionOf};
ghost use Rattle.cc_rules_layout.specs.Raisable.{AreRaisable};
ghost use Rattle.cc_rules_grow.specs.CcState.Shape.{AreRows};
ghost use Rattle.cc_rules_asked.specs.CcStateFacts.declared.facts.Facts.{Facts as FactsOf};
ghost use Rattle.cc_rules_asked.specs.CcStateKeys.Tracked.{tracked as tracked_of};
ghost use Rattle.cc_rules_asked.specs.CcStateOperators.Domains.{domain};
ghost use Rattle.cc_rules_asked.specs.CcSteps.State.{first_values};
ghost use Rattle.cc_rules_asked.specs.CcSyntax.Normal.{IsNormal};

use crate::initial::all_first_values;
use crate::rows::first_rows;
use cc_program::Program;
use cc_program::num::{List, NoMemory};
use cc_rules_asked::lattice::IntDomain;
use cc_rules_asked::rules_needs::{Part, Slot};
use cc_rules_asked::state_facts::PointFact;
use cc_rules_asked::{Asked, only_level};
use cc_rules_functions::Function;
use std::alloc::Global;

/// What is known where main is entered.
fn first_fact<I: IntDomain>(
    alloc: Global,
    p: &Program,
    tracked: &[u32],
) -> Result<PointFact<I>, NoMemory>
    requires normal { IsNormal p.now }
    requires tracked { tracked.now ≡ tracked_of p.now }
    ensures firsts { IfOk result (λ fact. IsFirstFact I.Has I.IsBelow (map (first_values p.now) p.now.objects) tracked.now fact) }
    ensures laid_out { IfOk result (λ fact. AreRows (domain I.Has I.IsBelow I.OpGives I.OpOneGives I.ToGives I.KeepGives I.members_of) p.now (length tracked.now) fact.rows) }
{
    let values = all_first_values(alloc, p)?;
    let rows = first_rows(alloc, &values, tracked)?;
    Ok(PointFact {
        off: true,
        on: false,
        locals: List::of(Vec::new(alloc)),
        rows: List::of(rows),
        same: List::of(Vec::new(alloc)),
    })
}

/// How many registers a function has.
fn register_count(f: &Function<'_>) -> u32
    requires { length f.now.registers < 2 ^ 32 }
    ensures { result ≡ length f.now.registers }
{
    f.registers.all().len() as u32
}

/// What is asked of main and of its entry.
fn asked_of_main<I: IntDomain>(
    alloc: Global,
    p: &Program,
    number: u32,
    registers: u32,
    fact: PointFact<I>,
) -> Result<Vec<Asked<I>>, NoMemory>
    ensures { IfOk result (λ asked. asked.items ≡ Asked.Part (Slot.ByMain p.now.main) (Part.Mark true) ∷ Asked.Part (Slot.Levels p.now.main) (Part.LevelSet 1) ∷ Asked.Point number registers fact ∷ []) }
{
    let mut asked = Vec::new(alloc);
    asked.push(Asked::Part(Slot::ByMain(p.main), Part::Mark(true)))?;
    asked.push(Asked::Part(Slot::Levels(p.main), Part::LevelSet(only_level(0))))?;
    asked.push(Asked::Point {
        number,
        registers,
        flow: fact,
    })?;
    Ok(asked)
}

/// What is asked of a point by the rule of the start: nothing where it is not the entry of main, which is this function. The
/// only error is want of memory.
pub fn asked_by_start<I: IntDomain>(
    alloc: Global,
    p: &Program,
    main: &Function<'_>,
    tracked: &[u32],
    number: u32,
) -> Result<Vec<Asked<I>>, NoMemory>
    requires normal { IsNormal p.now }
    requires main { IsFunctionOf p.now p.now.main main.now }
    requires tracked { tracked.now ≡ tracked_of p.now }
    ensures asked { IfOk result (λ asked. (facts : FactsOf I) → IsStarted (domain I.Has I.IsBelow I.OpGives I.OpOneGives I.ToGives I.KeepGives I.members_of) p.now facts number (all_needs p.now asked.items)) }
    ensures raisable { IfOk result (λ asked. (facts : FactsOf I) → AreRaisable (domain I.Has I.IsBelow I.OpGives I.OpOneGives I.ToGives I.KeepGives I.members_of) p.now facts asked.items) }
{
    let entry = main.entry;
    if number != entry {
        return Ok(Vec::new(alloc));
    }
    let fact = first_fact(alloc, p, tracked)?;
    asked_of_main(alloc, p, number, register_count(main), fact)
}
