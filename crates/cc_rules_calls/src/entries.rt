//! What a call asks of each function that it may call: that it is reached as the caller is, and that its entry has the flag and the cells
//! of the point, with the arguments.

ghost use Rattle.std.specs.Prelude.{◌≡◌, ◌<◌, ◌^◌, ◌++◌, All, length, slice_get, is_some, true, IfOk, OnOk};
ghost use Rattle.std.specs.Option.{option_copied, option_to_list};
ghost use Rattle.cc_rules_asked.specs.CcRules.Constraints.{Call as CallRule};
ghost use Rattle.cc_rules_asked.specs.Asks.{AsksHere, ArePureHere};
ghost use Rattle.cc_rules_calls.specs.Called.{sets_of as sets_of_of};
ghost use Rattle.cc_rules_functions.specs.Functions.{AreFunctionsOf};
ghost use Rattle.cc_rules_calls.specs.Here.{MayCallHere, part_whole, parts_whole, marks_called, asked_entered, asked_of_one, asked_of_all, AreEntries};
ghost use Rattle.cc_state_points.specs.CcRulesFlows.Acts.{Calls};
ghost use Rattle.cc_state_points.specs.CcRulesFlows.Here.{IsHere};
ghost use Rattle.cc_state_points.specs.CcRulesFlows.View.{act_view};
ghost use Rattle.cc_state_points.specs.CcStateKeys.Keys.{keys_of, key_number as key_number_of};
ghost use Rattle.cc_state_points.specs.CcStateOperators.Domains.{domain};

use crate::call::{Call, called};
use crate::called::{called_here, values_here};
use crate::known::with_locals;
use cc_program::Program;
use cc_program::num::{NoMemory, at};
use cc_rules_asked::{Asked, copied_set, levels, mark};
use cc_rules_functions::Function;
use cc_state_points::lattice::IntDomain;
use cc_state_points::places::Abs;
use cc_state_points::rules_flows::{Act, Here};
use cc_state_points::rules_needs::{Part, Slot};
use cc_state_points::state_facts::{Key, Shared};
use cc_state_points::state_keys::key_number;
use std::alloc::Global;

/// Puts a set behind others, with one more owner, where there is one.
fn put_set<I: IntDomain>(
    sets: &mut Vec<Shared<Abs<I>>>,
    set: Option<&Shared<Abs<I>>>,
) -> Result<(), NoMemory>
    ensures { OnOk result (sets.new.items ≡ sets.old.items ++ option_to_list (option_copied set.entry)) }
{
    match set {
        None => Ok(()),
        Some(set) => Ok(sets.push(set.share()?)?),
    }
}

/// The sets of the arguments, of those registers that are parameters.
fn sets_of<I: IntDomain>(
    alloc: Global,
    sets: &[Shared<Abs<I>>],
    registers: &[u32],
) -> Result<Vec<Shared<Abs<I>>>, NoMemory>
    ensures { IfOk result (λ locals. locals.items ≡ sets_of_of sets.now registers.now) }
{
    let mut locals = Vec::new(alloc);
    for register in registers {
        put_set(&mut locals, at(sets, *register as usize))?;
    }
    Ok(locals)
}

/// The number of a key of a program, where it is one.
fn number_of(p: &Program, keys: &[Key], key: Key) -> Option<u32>
    requires keys { keys.now ≡ keys_of p.now }
    requires few { length keys.now < 2 ^ 32 }
    ensures { result ≡ key_number_of p.now key }
{
    match key_number(keys, key) {
        None => None,
        Some(number) => Some(number as u32),
    }
}

/// The number of the key of a parameter, where it has one.
fn parameter_key(p: &Program, keys: &[Key], function: u32, parameter: usize) -> Option<u32>
    requires keys { keys.now ≡ keys_of p.now }
    requires few { length keys.now < 2 ^ 32 }
    requires few_locals { All (λ f. length f.locals < 2 ^ 32) p.now.funcs }
    ensures { result ≡ key_number_of p.now (Key.Local function parameter) }
{
    match u32::try_from(parameter) {
        Err(_) => None,
        Ok(local) => number_of(p, keys, Key::Local(function, local)),
    }
}

/// A parameter that has a key.
fn put_whole<I: IntDomain>(
    alloc: Global,
    asked: &mut Vec<Asked<I>>,
    key: Option<u32>,
    set: &Abs<I>,
) -> Result<(), NoMemory>
    ensures { OnOk result (asked.new.items ≡ asked.old.items ++ part_whole key set.now) }
{
    match key {
        None => Ok(()),
        Some(key) => {
            let set = copied_set(alloc, set)?;
            Ok(asked.push(Asked::Part(Slot::Whole(key), Part::Values(Some(set))))?)
        }
    }
}

/// The parameters that are no registers.
fn put_parameters<I: IntDomain>(
    alloc: Global,
    asked: &mut Vec<Asked<I>>,
    p: &Program,
    keys: &[Key],
    function: u32,
    sets: &[Shared<Abs<I>>],
) -> Result<(), NoMemory>
    requires keys { keys.now ≡ keys_of p.now }
    requires few { length keys.now < 2 ^ 32 }
    requires few_locals { All (λ f. length f.locals < 2 ^ 32) p.now.funcs }
    ensures { OnOk result (asked.new.items ≡ asked.old.items ++ parts_whole p.now function 0 sets.now) }
{
    for (r, set) in sets.iter().enumerate() {
        let number = parameter_key(p, keys, function, r);
        put_whole(alloc, asked, number, set.get())?;
    }
    Ok(())
}

/// That a function is reached as the caller is.
fn put_marks<I: IntDomain>(
    asked: &mut Vec<Asked<I>>,
    here: &Here<'_, I>,
    function: u32,
) -> Result<(), NoMemory>
    ensures { OnOk result (asked.new.items ≡ asked.old.items ++ marks_called here.now function) }
{
    let caller = here.context.id as usize;
    let facts = here.facts;
    let by_main = mark(facts.by_main.all(), caller);
    asked.push(Asked::Part(Slot::ByMain(function), Part::Mark(by_main)))?;
    let by_handler = mark(facts.by_handler.all(), caller);
    asked.push(Asked::Part(Slot::ByHandler(function), Part::Mark(by_handler)))?;
    let running = levels(facts.levels.all(), caller);
    asked.push(Asked::Part(Slot::Levels(function), Part::LevelSet(running)))?;
    let from = levels(facts.from.all(), caller);
    asked.push(Asked::Part(Slot::From(function), Part::LevelSet(from)))?;
    Ok(())
}

/// What is asked of a function that is called with these sets.
fn put_entered<I: IntDomain>(
    alloc: Global,
    asked: &mut Vec<Asked<I>>,
    here: &Here<'_, I>,
    id: u32,
    function: &Function<'_>,
    sets: &[Shared<Abs<I>>],
) -> Result<(), NoMemory>
    requires keys { here.now.facts.now.keys ≡ keys_of here.now.context.program.now }
    requires few_keys { length here.now.facts.now.keys < 2 ^ 32 }
    requires few_locals { All (λ f. length f.locals < 2 ^ 32) here.now.context.program.now.funcs }
    requires few_registers { length function.now.registers < 2 ^ 32 }
    ensures { OnOk result (asked.new.items ≡ asked.old.items ++ asked_entered here.now id function.now sets.now) }
{
    put_marks(asked, here, id)?;
    let registers = function.registers.all();
    let locals = sets_of(alloc, sets, registers)?;
    let flow = with_locals(alloc, here.fact, locals)?;
    asked.push(Asked::Point {
        number: function.entry,
        registers: registers.len() as u32,
        flow,
    })?;
    put_parameters(
        alloc,
        asked,
        here.context.program,
        here.facts.keys.all(),
        id,
        sets,
    )?;
    Ok(())
}

/// The same of a function by its id.
fn put_called<I: IntDomain>(
    alloc: Global,
    asked: &mut Vec<Asked<I>>,
    here: &Here<'_, I>,
    functions: &[Function<'_>],
    id: u32,
    sets: &[Shared<Abs<I>>],
) -> Result<(), NoMemory>
    requires keys { here.now.facts.now.keys ≡ keys_of here.now.context.program.now }
    requires few_keys { length here.now.facts.now.keys < 2 ^ 32 }
    requires few_locals { All (λ f. length f.locals < 2 ^ 32) here.now.context.program.now.funcs }
    requires functions { AreFunctionsOf here.now.context.program.now functions.now }
    requires there { is_some (slice_get functions.now id) ≡ true }
    ensures { OnOk result (asked.new.items ≡ asked.old.items ++ asked_of_one here.now id (slice_get functions.now id) sets.now) }
{
    match at(functions, id as usize) {
        None => unreachable!(),
        Some(function) => put_entered(alloc, asked, here, id, function, sets),
    }
}

/// What is asked of each function that may be called.
fn asked_of_functions<I: IntDomain>(
    alloc: Global,
    here: &Here<'_, I>,
    functions: &[Function<'_>],
    ids: &[u32],
    sets: &[Shared<Abs<I>>],
) -> Result<Vec<Asked<I>>, NoMemory>
    requires keys { here.now.facts.now.keys ≡ keys_of here.now.context.program.now }
    requires few_keys { length here.now.facts.now.keys < 2 ^ 32 }
    requires few_locals { All (λ f. length f.locals < 2 ^ 32) here.now.context.program.now.funcs }
    requires functions { AreFunctionsOf here.now.context.program.now functions.now }
    requires there { All (λ h. is_some (slice_get functions.now h) ≡ true) ids.now }
    ensures { IfOk result (λ asked. asked.items ≡ asked_of_all here.now functions.now ids.now sets.now) }
{
    let mut asked = Vec::new(alloc);
    for id in ids {
        put_called(alloc, &mut asked, here, functions, *id, sets)?;
    }
    Ok(asked)
}

/// What is asked of the entries of the functions that a call calls.
fn asked_of_call<I: IntDomain>(
    alloc: Global,
    here: &Here<'_, I>,
    functions: &[Function<'_>],
    call: Call<'_>,
) -> Result<Vec<Asked<I>>, NoMemory>
    requires here { IsHere (domain I.Has I.IsBelow I.OpGives I.OpOneGives I.ToGives I.KeepGives I.members_of) here.now }
    requires functions { AreFunctionsOf here.now.context.program.now functions.now }
    requires pure { ArePureHere (domain I.Has I.IsBelow I.OpGives I.OpOneGives I.ToGives I.KeepGives I.members_of) here.now (Calls call.result call.function.now call.args.now) }
    requires calls { MayCallHere (domain I.Has I.IsBelow I.OpGives I.OpOneGives I.ToGives I.KeepGives I.members_of) here.now (Calls call.result call.function.now call.args.now) }
    requires few_keys { length here.now.facts.now.keys < 2 ^ 32 }
    requires few_locals { All (λ f. length f.locals < 2 ^ 32) here.now.context.program.now.funcs }
    ensures asked { IfOk result (λ asked. AsksHere (domain I.Has I.IsBelow I.OpGives I.OpOneGives I.ToGives I.KeepGives I.members_of) here.now CallRule (Calls call.entry.result call.entry.function.now call.entry.args.now) asked.items) }
    ensures entries { IfOk result (λ asked. AreEntries here.now functions.now asked.items) }
{
    let found = called_here(alloc, here, call.function)?;
    let given = values_here(alloc, here, call.args)?;
    let ids = found.as_slice();
    let sets = given.as_slice();
    asked_of_functions(alloc, here, functions, ids, sets)
}

/// What is asked of the entries of the functions that a call may call. These are the functions of the program.
pub fn asked_by_call<I: IntDomain>(
    alloc: Global,
    here: &Here<'_, I>,
    functions: &[Function<'_>],
    act: Act<'_>,
) -> Result<Vec<Asked<I>>, NoMemory>
    requires here { IsHere (domain I.Has I.IsBelow I.OpGives I.OpOneGives I.ToGives I.KeepGives I.members_of) here.now }
    requires functions { AreFunctionsOf here.now.context.program.now functions.now }
    requires pure { ArePureHere (domain I.Has I.IsBelow I.OpGives I.OpOneGives I.ToGives I.KeepGives I.members_of) here.now (act_view act) }
    requires calls { MayCallHere (domain I.Has I.IsBelow I.OpGives I.OpOneGives I.ToGives I.KeepGives I.members_of) here.now (act_view act) }
    requires few_keys { length here.now.facts.now.keys < 2 ^ 32 }
    requires few_locals { All (λ f. length f.locals < 2 ^ 32) here.now.context.program.now.funcs }
    ensures asked { IfOk result (λ asked. AsksHere (domain I.Has I.IsBelow I.OpGives I.OpOneGives I.ToGives I.KeepGives I.members_of) here.now CallRule (act_view act.entry) asked.items) }
    ensures entries { IfOk result (λ asked. AreEntries here.now functions.now asked.items) }
{
    match called(act) {
        None => Ok(Vec::new(alloc)),
        Some(call) => asked_of_call(alloc, here, functions, call),
    }
}
