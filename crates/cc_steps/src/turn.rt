//! Turns of a run: a step of the program, or the entry of a handler.

ghost use Rattle.std.specs.Prelude.{◌≡◌, ◌<◌, ◌≤◌, ◌+◌, ◌-◌, ◌^◌, max, IfOk, OnOk, OnErr, None, option_map, slice_get, if◌then◌else◌};
ghost use Rattle.std.specs.Option.{option_copied};
ghost use Rattle.std.specs.Str.{bytes_eq};
ghost use Rattle.cc_eval.specs.CcSyntax.Sizes.{AreSized};
ghost use Rattle.cc_eval.specs.CcSyntax.Sound.{IsSound};
ghost use Rattle.cc_steps.specs.Turn.{is_going as is_going_of, named_level as named_level_of, level_in as level_in_of, level_of as level_of_func, running_level as running_level_of, only_handler as only_handler_of, may_enter as may_enter_of, entering as entering_of, entered, turn_by, turn as turn_of, took as took_of};
ghost use Rattle.cc_steps.specs.declared.event.Took.TheVariants.{Stepped, Ended};
ghost use Rattle.cc_steps.specs.View.{actives_of, state_of, entry_view};

use crate::activation::Activation;
use crate::calls::activation;
use crate::event::{End, Event, Took};
use crate::run::Run;
use cc_program::num::{Name, NoMemory, at};
use cc_program::{Func, Program};
use std::alloc::Global;

/// Whether a run goes on.
pub fn is_going(end: End) -> bool
    ensures { result ≡ is_going_of end }
{
    matches!(end, End::Going)
}

fn same(name: &[u8], other: &[u8]) -> bool
    ensures { result ≡ bytes_eq name.now other.now }
{
    name == other
}

/// The level that the roles give to a name, else 0.
fn named_level(levels: &[(Name, u8)], name: &Name) -> u8
    ensures { result ≡ named_level_of levels.now name.now }
{
    match levels {
        [] => 0,
        [level, others @ ..] => {
            if same(name.all(), level.0.all()) {
                level.1
            } else {
                named_level(others, name)
            }
        }
    }
}

fn level_in(p: &Program, f: Option<&Func>) -> u8
    ensures { result ≡ level_in_of p.now (option_copied f.entry) }
{
    match f {
        None => 0,
        Some(f) => named_level(p.roles.levels.all(), &f.name),
    }
}

fn level_of(p: &Program, func: u32) -> u8
    ensures { result ≡ level_of_func p.now func }
{
    level_in(p, at(p.funcs.all(), func as usize))
}

fn greater(a: u8, b: u8) -> u8
    ensures { result ≡ max a b }
{
    if a < b { b } else { a }
}

/// The greatest level of some handlers, and of one more activation.
fn level_over(p: &Program, a: &Activation, level: u8) -> u8
    ensures { result ≡ (if a.now.handler then max (level_of_func p.now a.now.func) level else level) }
{
    if a.handler {
        greater(level_of(p, a.func), level)
    } else {
        level
    }
}

/// The greatest level of the handlers that have not returned; 0 where there is none.
#[tactic(auto, using(crate::proofs::TurnLemmas::of_levels))]
fn running_level(p: &Program, stack: &[Activation]) -> u8
    ensures { result ≡ running_level_of p.now (actives_of stack.now) }
{
    let mut level = 0;
    for a in stack {
        level = level_over(p, a, level);
    }
    level
}

fn only_handler(f: Option<&Func>) -> Option<&Func>
    ensures { option_copied result ≡ only_handler_of (option_copied f.entry) }
{
    match f {
        None => None,
        Some(f) => { if f.entry.is_some() { Some(f) } else { None } }
    }
}

/// The handler of the program that has this id, with it.
fn handler_at(p: &Program, h: u32) -> Option<(u32, &Func)>
    ensures { option_map entry_view result ≡ option_map (λ f. (h, f)) (only_handler_of (slice_get p.now.funcs h)) }
{
    match only_handler(at(p.funcs.all(), h as usize)) {
        None => None,
        Some(f) => Some((h, f)),
    }
}

impl<'p> Run<'p> {
    /// Whether handlers may enter now that have the level of this function.
    fn may_enter(&self, h: u32) -> bool
        ensures { result ≡ may_enter_of self.now.program.now (state_of self.now) h }
    {
        let level = level_of(self.program, h);
        let running = running_level(self.program, &self.stack);
        self.flag && (level == 0 || running < level)
    }

    /// The handler that an arrival makes enter, if it makes one.
    fn entering(&self, arrival: Option<u32>) -> Option<(u32, &'p Func)>
        ensures { option_map entry_view result ≡ entering_of self.now.program.now (state_of self.now) arrival }
    {
        match arrival {
            None => None,
            Some(h) => {
                if is_going(self.end) && self.may_enter(h) {
                    handler_at(self.program, h)
                } else {
                    None
                }
            }
        }
    }

    /// A handler enters: the flag goes off.
    #[tactic(auto, using(crate::proofs::StackLemmas::of_push))]
    fn enter(&mut self, alloc: Global, h: u32, f: &'p Func) -> Result<(), NoMemory>
        requires sized { AreSized self.old.program.now.structures self.old.program.now.target }
        requires few { self.old.opened < 2 ^ 64 - 1 }
        ensures program { self.new.program ≡ self.old.program }
        ensures ok { OnOk result (state_of self.new ≡ entered self.old.program.now (state_of self.old) (h, f.now)) }
        ensures err { OnErr result (state_of self.new ≡ state_of self.old) }
    {
        let a = activation(alloc, self.program, self.opened, h, true, &[], f)?;
        self.trace.reserve(1)?;
        self.stack.push(a)?;
        self.trace.push(Event::Enter(h))?;
        self.flag = false;
        self.opened += 1;
        Ok(())
    }

    /// A turn in which nothing enters.
    fn go_on(&mut self, alloc: Global) -> Result<Took, NoMemory>
        requires sized { AreSized self.old.program.now.structures self.old.program.now.target }
        requires few { self.old.opened < 2 ^ 64 - 1 }
        ensures program { self.new.program ≡ self.old.program }
        ensures turn { OnOk result (state_of self.new ≡ turn_by self.old.program.now (state_of self.old) None) }
        ensures took { IfOk result (λ t. t ≡ (if is_going_of self.old.end then Stepped else Ended)) }
        ensures ended { IfOk result (λ t. t ≡ Ended → state_of self.new ≡ state_of self.old) }
        ensures err { OnErr result (state_of self.new ≡ state_of self.old) }
    {
        if !is_going(self.end) {
            return Ok(Took::Ended);
        }
        self.proceed(alloc)?;
        Ok(Took::Stepped)
    }

    /// One turn: the handler that the arrival names enters if it may; else the arrival is ignored, and the program makes a
    /// step. Once the run has ended, turns change nothing. After want of memory the state is as before.
    ///
    /// The address of an array of one element and that of its element are one value; an access tells which cell it means by
    /// the type that is pointed to.
    #[tactic(auto, using(crate::proofs::TurnLemmas::of_turns))]
    pub fn step(&mut self, alloc: Global, arrival: Option<u32>) -> Result<Took, NoMemory>
        requires sound { IsSound self.old.program.now }
        requires few { self.old.opened < 2 ^ 64 - 1 }
        ensures program { self.new.program ≡ self.old.program }
        ensures turn { OnOk result (state_of self.new ≡ turn_of self.old.program.now (state_of self.old) arrival) }
        ensures took { IfOk result (λ t. t ≡ took_of self.old.program.now (state_of self.old) arrival) }
        ensures ended { IfOk result (λ t. t ≡ Ended → state_of self.new ≡ state_of self.old) }
        ensures opened { OnOk result ((state_of self.new).opened ≤ (state_of self.old).opened + 1) }
        ensures err { OnErr result (state_of self.new ≡ state_of self.old) }
    {
        match self.entering(arrival) {
            Some((h, f)) => {
                self.enter(alloc, h, f)?;
                Ok(Took::Entered)
            }
            None => self.go_on(alloc),
        }
    }
}
