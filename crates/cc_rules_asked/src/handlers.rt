//! What is asked where the flag may be on of each handler that may enter: that it is reached, at its level, and that its entry has what
//! is known of the cells at the point.

ghost use Rattle.std.specs.Prelude.{◌≡◌, ◌≤◌, ◌++◌, All, IfOk, OnOk, if◌then◌else◌, []};
ghost use Rattle.cc_rules.specs.Constraints.{Handler as HandlerRule};
ghost use Rattle.cc_rules_asked.specs.Asks.{AsksHere};
ghost use Rattle.cc_rules_asked.specs.Handlers.{AreHandlersOf, fact_entered, levels_entered as levels_entered_of, asked_of, asked_of_all};
ghost use Rattle.cc_rules.specs.CcRulesFlows.Acts.{Act as ActOf};
ghost use Rattle.cc_rules.specs.CcRulesFlows.Here.{IsHere};
ghost use Rattle.cc_rules.specs.CcStateOperators.Domains.{domain};

use crate::asked::Asked;
use crate::marks::{levels, only_level};
use cc_program::num::{List, NoMemory};
use cc_rules::lattice::IntDomain;
use cc_rules::rules_flows::Here;
use cc_rules::rules_needs::{Part, Slot};
use cc_rules::state_facts::{PointFact, may_enter};
use cc_rules::state_shared::share_all;
use std::alloc::Global;

/// A function that is a handler.
#[derive(Clone, Copy)]
pub struct Handler {
    /// Its id.
    pub function: u32,
    /// Its level, from 0 to 7.
    pub level: u8,
    /// The number of its first point.
    pub entry: u32,
    /// How many registers it has.
    pub registers: u32,
}

/// What is known where a handler is entered from a point. The rows are shared.
fn entered<I: IntDomain>(alloc: Global, fact: &PointFact<I>) -> Result<PointFact<I>, NoMemory>
    ensures { IfOk result (λ made. made ≡ fact_entered fact.now) }
{
    let rows = share_all(alloc, fact.rows.all())?;
    Ok(PointFact {
        off: true,
        on: false,
        locals: List::of(Vec::new(alloc)),
        rows: List::of(rows),
        same: List::of(Vec::new(alloc)),
    })
}

/// The levels at which it runs: its own, or at level 0 those of the function.
fn levels_entered<I: IntDomain>(here: &Here<'_, I>, level: u8) -> u8
    requires { level ≤ 7 }
    ensures { result ≡ levels_entered_of here.now level }
{
    if level == 0 {
        levels(here.facts.levels.all(), here.context.id as usize)
    } else {
        only_level(level)
    }
}

/// What is asked of a handler that may enter.
fn put_handler<I: IntDomain>(
    alloc: Global,
    asked: &mut Vec<Asked<I>>,
    here: &Here<'_, I>,
    handler: Handler,
) -> Result<(), NoMemory>
    requires { handler.level ≤ 7 }
    ensures { OnOk result (asked.new.items ≡ asked.old.items ++ asked_of here.now handler) }
{
    let running = levels_entered(here, handler.level);
    let from = only_level(handler.level);
    let flow = entered(alloc, here.fact)?;
    asked.push(Asked::Part(Slot::ByHandler(handler.function), Part::Mark(true)))?;
    asked.push(Asked::Part(Slot::Levels(handler.function), Part::LevelSet(running)))?;
    asked.push(Asked::Part(Slot::From(handler.function), Part::LevelSet(from)))?;
    asked.push(Asked::Point {
        number: handler.entry,
        registers: handler.registers,
        flow,
    })?;
    Ok(())
}

/// What is asked of the handlers that may enter.
fn asked_of_handlers<I: IntDomain>(
    alloc: Global,
    here: &Here<'_, I>,
    handlers: &[Handler],
) -> Result<Vec<Asked<I>>, NoMemory>
    requires { All (λ h. h.level ≤ 7) handlers.now }
    ensures { IfOk result (λ asked. asked.items ≡ asked_of_all here.now handlers.now) }
{
    let running = levels(here.facts.levels.all(), here.context.id as usize);
    let mut asked = Vec::new(alloc);
    for handler in handlers {
        if may_enter(running, handler.level) {
            put_handler(alloc, &mut asked, here, *handler)?;
        }
    }
    Ok(asked)
}

/// The same where the flag may be on.
fn asked_if_on<I: IntDomain>(
    alloc: Global,
    here: &Here<'_, I>,
    handlers: &[Handler],
) -> Result<Vec<Asked<I>>, NoMemory>
    requires { All (λ h. h.level ≤ 7) handlers.now }
    ensures { IfOk result (λ asked. asked.items ≡ (if here.now.fact.now.on then asked_of_all here.now handlers.now else [])) }
{
    if here.fact.on {
        asked_of_handlers(alloc, here, handlers)
    } else {
        Ok(Vec::new(alloc))
    }
}

/// What is asked by the rule of handlers, of which these are those of the program.
pub fn asked_by_handlers<I: IntDomain>(
    alloc: Global,
    here: &Here<'_, I>,
    handlers: &[Handler],
) -> Result<Vec<Asked<I>>, NoMemory>
    requires here { IsHere (domain I.Has I.IsBelow I.OpGives I.OpOneGives I.ToGives I.KeepGives I.members_of) here.now }
    requires handlers { AreHandlersOf here.now.context.program.now handlers.now }
    ensures is { IfOk result (λ asked. asked.items ≡ (if here.now.fact.now.on then asked_of_all here.now handlers.now else [])) }
    ensures asked { IfOk result (λ asked. (act : ActOf) → AsksHere (domain I.Has I.IsBelow I.OpGives I.OpOneGives I.ToGives I.KeepGives I.members_of) here.now HandlerRule act asked.items) }
{
    asked_if_on(alloc, here, handlers)
}
