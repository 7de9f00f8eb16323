//! What a call asks behind it, of each function that it may call: the flag and the cells of its exit, where that is reached, and the
//! result. No register is known to equal a cell.

ghost use Rattle.std.specs.Prelude.{◌≡◌, ◌<◌, ◌^◌, ◌++◌, ℕ, All, length, slice_get, is_some, true, Some, IfOk, IfSome, OnOk};
ghost use Rattle.std.specs.Option.{option_copied};
ghost use Rattle.cc_state_points.specs.CcPlaces.declared.abs.Abs.{Abs};
ghost use Rattle.cc_state_points.specs.CcPlaces.Abstract.{AreOfOneKind};
ghost use Rattle.cc_rules_asked.specs.CcRules.Constraints.{Back as BackRule};
ghost use Rattle.cc_rules_asked.specs.Asks.{AsksHere, ArePureHere};
ghost use Rattle.cc_rules_calls.specs.Backs.{with_given, fact_behind, points_behind, IsWithZero, gets, IsResultHere, IsGivenHere, IsBehind, AskMore, AskMoreOf, EachReturns, MayGetHere};
ghost use Rattle.cc_rules_functions.specs.Functions.{IsFunctionOf, AreFunctionsOf};
ghost use Rattle.cc_rules_calls.specs.Here.{MayCallHere};
ghost use Rattle.cc_state_points.specs.CcRulesFlows.Acts.{Calls};
ghost use Rattle.cc_state_points.specs.CcRulesFlows.Here.{IsHere};
ghost use Rattle.cc_state_points.specs.CcRulesFlows.View.{act_view};
ghost use Rattle.cc_rules_functions.specs.declared.functions.Function.{Function as FunctionOf};
ghost use Rattle.cc_state_points.specs.CcStateFacts.Facts.{fact_at};
ghost use Rattle.cc_state_points.specs.CcStateKeys.Tracked.{registers as registers_of, register_number};
ghost use Rattle.cc_state_points.specs.CcStateOperators.Domains.{domain};

use crate::call::{Call, called};
use crate::called::called_here;
use crate::known::with_locals;
use cc_program::num::{NoMemory, at};
use cc_rules_asked::{Asked, copied_set};
use cc_rules_functions::Function;
use cc_state_points::lattice::{IntDomain, Lattice};
use cc_state_points::places::Abs;
use cc_state_points::rules_flows::{Act, Here};
use cc_state_points::state_facts::{Facts, PointFact, Shared, copied_point};
use cc_state_points::state_keys::number_in;
use cc_state_points::state_shared::share_all;
use std::alloc::Global;

/// A set with 0 too.
fn with_zero<I: IntDomain>(alloc: Global, set: &Abs<I>) -> Result<Abs<I>, NoMemory>
    requires { (u : I) → AreOfOneKind set.now (Abs.Ints u) }
    ensures { IfOk result (λ both. IsWithZero (domain I.Has I.IsBelow I.OpGives I.OpOneGives I.ToGives I.KeepGives I.members_of) set.now both) }
{
    let zero = Abs::Ints(I::one(alloc, 0));
    set.join(alloc, &zero)
}

/// What a function may give: what facts say, and 0 where it gives that at its end (C99 5.1.2.2.3).
fn result_of<I: IntDomain>(
    alloc: Global,
    here: &Here<'_, I>,
    id: u32,
    function: &Function<'_>,
) -> Result<Abs<I>, NoMemory>
    requires function { IsFunctionOf here.now.context.program.now id function.now }
    requires there { is_some (slice_get here.now.facts.now.results id) ≡ true }
    requires kind { (y : Abs I) → function.now.gives_zero ≡ true → slice_get here.now.facts.now.results id ≡ Some y → (u : I) → AreOfOneKind y (Abs.Ints u) }
    ensures { IfOk result (λ y. IsResultHere (domain I.Has I.IsBelow I.OpGives I.OpOneGives I.ToGives I.KeepGives I.members_of) here.now id function.now.func.now y) }
{
    match at(here.facts.results.all(), id as usize) {
        None => unreachable!(),
        Some(set) => {
            if function.gives_zero {
                with_zero(alloc, set)
            } else {
                copied_set(alloc, set)
            }
        }
    }
}

/// The position of a register of the function.
fn register_of<I>(here: &Here<'_, I>, r: u32) -> u32
    requires registers { here.now.context.registers.now ≡ registers_of here.now.context.func.now }
    requires few { length here.now.context.registers.now < 2 ^ 32 }
    requires is { is_some (register_number here.now.context.func.now r) ≡ true }
    ensures number { register_number here.now.context.func.now r ≡ Some result }
    ensures within { result < length here.now.context.registers.now }
{
    match number_in(here.context.registers, r) {
        None => unreachable!(),
        Some(number) => number as u32,
    }
}

/// What a register gets of a function, where one gets its result.
fn given_by<I: IntDomain>(
    alloc: Global,
    here: &Here<'_, I>,
    register: Option<u32>,
    id: u32,
    function: &Function<'_>,
) -> Result<Option<(u32, Abs<I>)>, NoMemory>
    requires registers { here.now.context.registers.now ≡ registers_of here.now.context.func.now }
    requires few { length here.now.context.registers.now < 2 ^ 32 }
    requires function { IsFunctionOf here.now.context.program.now id function.now }
    requires gets { MayGetHere (domain I.Has I.IsBelow I.OpGives I.OpOneGives I.ToGives I.KeepGives I.members_of) here.now register id function.now }
    ensures { IfOk result (λ given. IsGivenHere (domain I.Has I.IsBelow I.OpGives I.OpOneGives I.ToGives I.KeepGives I.members_of) here.now register id function.now.func.now given) }
{
    match register {
        None => Ok(None),
        Some(r) => {
            let set = result_of(alloc, here, id, function)?;
            Ok(Some((register_of(here, r), set)))
        }
    }
}

/// The sets of registers, where one may get another. The others are shared.
fn locals_behind<I: IntDomain>(
    alloc: Global,
    sets: &[Shared<Abs<I>>],
    given: Option<(u32, Abs<I>)>,
) -> Result<Vec<Shared<Abs<I>>>, NoMemory>
    requires { IfSome given (λ g. g.0 < length sets.now) }
    ensures { IfOk result (λ locals. locals.items ≡ with_given given sets.now) }
{
    let mut locals = share_all(alloc, sets)?;
    match given {
        None => Ok(locals),
        Some((register, set)) => {
            let local = Shared::new(alloc, set)?;
            locals[register as usize] = local;
            Ok(locals)
        }
    }
}

/// What is known behind a call, by what is known at the exit of what is called.
fn behind<I: IntDomain>(
    alloc: Global,
    fact: &PointFact<I>,
    exit: &PointFact<I>,
    given: Option<(u32, Abs<I>)>,
) -> Result<PointFact<I>, NoMemory>
    requires { IfSome given (λ g. g.0 < length fact.now.locals) }
    ensures { IfOk result (λ made. made ≡ fact_behind fact.now exit.now given) }
{
    let locals = locals_behind(alloc, fact.locals.all(), given)?;
    with_locals(alloc, exit, locals)
}

/// The same of each next point.
fn put_points<I: IntDomain>(
    alloc: Global,
    asked: &mut Vec<Asked<I>>,
    next: &[u32],
    registers: u32,
    flow: &PointFact<I>,
) -> Result<(), NoMemory>
    ensures { OnOk result (asked.new.items ≡ asked.old.items ++ points_behind next.now registers flow.now) }
{
    for k in next {
        let flow = copied_point(alloc, flow)?;
        asked.push(Asked::Point {
            number: *k,
            registers,
            flow,
        })?;
    }
    Ok(())
}

/// What is known at a point.
fn fact_of<I>(facts: &Facts<I>, number: u32) -> Option<&PointFact<I>>
    ensures { option_copied result ≡ fact_at facts.now number }
{
    at(facts.at.all(), number as usize)?.as_ref()
}

/// What is asked behind a call of a function, by what is known at its exit.
fn put_exit<I: IntDomain>(
    alloc: Global,
    asked: &mut Vec<Asked<I>>,
    here: &Here<'_, I>,
    register: Option<u32>,
    id: u32,
    function: &Function<'_>,
    exit: &PointFact<I>,
) -> Result<(), NoMemory>
    requires here { IsHere (domain I.Has I.IsBelow I.OpGives I.OpOneGives I.ToGives I.KeepGives I.members_of) here.now }
    requires function { IsFunctionOf here.now.context.program.now id function.now }
    requires gets { MayGetHere (domain I.Has I.IsBelow I.OpGives I.OpOneGives I.ToGives I.KeepGives I.members_of) here.now register id function.now }
    requires exit { fact_at here.now.facts.now function.now.exit ≡ Some exit.now }
    ensures { OnOk result (AskMore (domain I.Has I.IsBelow I.OpGives I.OpOneGives I.ToGives I.KeepGives I.members_of) here.now register id function.now asked.old.items asked.new.items) }
{
    let given = given_by(alloc, here, register, id, function)?;
    let flow = behind(alloc, here.fact, exit, given)?;
    let registers = here.context.registers.len() as u32;
    put_points(alloc, asked, here.point.next.all(), registers, &flow)?;
    Ok(())
}

/// What is asked behind a call of a function.
fn put_back<I: IntDomain>(
    alloc: Global,
    asked: &mut Vec<Asked<I>>,
    here: &Here<'_, I>,
    register: Option<u32>,
    id: u32,
    function: &Function<'_>,
) -> Result<(), NoMemory>
    requires here { IsHere (domain I.Has I.IsBelow I.OpGives I.OpOneGives I.ToGives I.KeepGives I.members_of) here.now }
    requires function { IsFunctionOf here.now.context.program.now id function.now }
    requires gets { MayGetHere (domain I.Has I.IsBelow I.OpGives I.OpOneGives I.ToGives I.KeepGives I.members_of) here.now register id function.now }
    ensures { OnOk result (AskMore (domain I.Has I.IsBelow I.OpGives I.OpOneGives I.ToGives I.KeepGives I.members_of) here.now register id function.now asked.old.items asked.new.items) }
{
    match fact_of(here.facts, function.exit) {
        None => Ok(()),
        Some(exit) => put_exit(alloc, asked, here, register, id, function, exit),
    }
}

/// The same of a function by its id.
fn put_called_back<I: IntDomain>(
    alloc: Global,
    asked: &mut Vec<Asked<I>>,
    here: &Here<'_, I>,
    functions: &[Function<'_>],
    register: Option<u32>,
    id: u32,
) -> Result<(), NoMemory>
    requires here { IsHere (domain I.Has I.IsBelow I.OpGives I.OpOneGives I.ToGives I.KeepGives I.members_of) here.now }
    requires functions { AreFunctionsOf here.now.context.program.now functions.now }
    requires gets { (h : ℕ) (f : FunctionOf) → slice_get functions.now h ≡ Some f → MayGetHere (domain I.Has I.IsBelow I.OpGives I.OpOneGives I.ToGives I.KeepGives I.members_of) here.now register h f }
    requires there { is_some (slice_get functions.now id) ≡ true }
    ensures { OnOk result (AskMoreOf (domain I.Has I.IsBelow I.OpGives I.OpOneGives I.ToGives I.KeepGives I.members_of) here.now register id (slice_get functions.now id) asked.old.items asked.new.items) }
{
    match at(functions, id as usize) {
        None => unreachable!(),
        Some(function) => put_back(alloc, asked, here, register, id, function),
    }
}

/// What is asked behind the call of each function that may be called.
fn asked_of_functions<I: IntDomain>(
    alloc: Global,
    here: &Here<'_, I>,
    functions: &[Function<'_>],
    register: Option<u32>,
    ids: &[u32],
) -> Result<Vec<Asked<I>>, NoMemory>
    requires here { IsHere (domain I.Has I.IsBelow I.OpGives I.OpOneGives I.ToGives I.KeepGives I.members_of) here.now }
    requires functions { AreFunctionsOf here.now.context.program.now functions.now }
    requires gets { (h : ℕ) (f : FunctionOf) → slice_get functions.now h ≡ Some f → MayGetHere (domain I.Has I.IsBelow I.OpGives I.OpOneGives I.ToGives I.KeepGives I.members_of) here.now register h f }
    requires there { All (λ h. is_some (slice_get functions.now h) ≡ true) ids.now }
    ensures each { IfOk result (λ asked. EachReturns (domain I.Has I.IsBelow I.OpGives I.OpOneGives I.ToGives I.KeepGives I.members_of) here.now register ids.now asked.items) }
    ensures behind { IfOk result (λ asked. All (IsBehind (domain I.Has I.IsBelow I.OpGives I.OpOneGives I.ToGives I.KeepGives I.members_of) here.now) asked.items) }
{
    let mut asked = Vec::new(alloc);
    for id in ids {
        put_called_back(alloc, &mut asked, here, functions, register, *id)?;
    }
    Ok(asked)
}

/// What is asked behind a call.
fn asked_of_call<I: IntDomain>(
    alloc: Global,
    here: &Here<'_, I>,
    functions: &[Function<'_>],
    call: Call<'_>,
) -> Result<Vec<Asked<I>>, NoMemory>
    requires here { IsHere (domain I.Has I.IsBelow I.OpGives I.OpOneGives I.ToGives I.KeepGives I.members_of) here.now }
    requires functions { AreFunctionsOf here.now.context.program.now functions.now }
    requires pure { ArePureHere (domain I.Has I.IsBelow I.OpGives I.OpOneGives I.ToGives I.KeepGives I.members_of) here.now (Calls call.result call.function.now call.args.now) }
    requires calls { MayCallHere (domain I.Has I.IsBelow I.OpGives I.OpOneGives I.ToGives I.KeepGives I.members_of) here.now (Calls call.result call.function.now call.args.now) }
    requires gets { (h : ℕ) (f : FunctionOf) → slice_get functions.now h ≡ Some f → MayGetHere (domain I.Has I.IsBelow I.OpGives I.OpOneGives I.ToGives I.KeepGives I.members_of) here.now call.result h f }
    ensures asked { IfOk result (λ asked. AsksHere (domain I.Has I.IsBelow I.OpGives I.OpOneGives I.ToGives I.KeepGives I.members_of) here.now BackRule (Calls call.entry.result call.entry.function.now call.entry.args.now) asked.items) }
    ensures behind { IfOk result (λ asked. All (IsBehind (domain I.Has I.IsBelow I.OpGives I.OpOneGives I.ToGives I.KeepGives I.members_of) here.now) asked.items) }
{
    let found = called_here(alloc, here, call.function)?;
    asked_of_functions(alloc, here, functions, call.result, found.as_slice())
}

/// What is asked behind a call by the exits of the functions that it may call. These are the functions of the program.
pub fn asked_by_back<I: IntDomain>(
    alloc: Global,
    here: &Here<'_, I>,
    functions: &[Function<'_>],
    act: Act<'_>,
) -> Result<Vec<Asked<I>>, NoMemory>
    requires here { IsHere (domain I.Has I.IsBelow I.OpGives I.OpOneGives I.ToGives I.KeepGives I.members_of) here.now }
    requires functions { AreFunctionsOf here.now.context.program.now functions.now }
    requires pure { ArePureHere (domain I.Has I.IsBelow I.OpGives I.OpOneGives I.ToGives I.KeepGives I.members_of) here.now (act_view act) }
    requires calls { MayCallHere (domain I.Has I.IsBelow I.OpGives I.OpOneGives I.ToGives I.KeepGives I.members_of) here.now (act_view act) }
    requires gets { (h : ℕ) (f : FunctionOf) → slice_get functions.now h ≡ Some f → MayGetHere (domain I.Has I.IsBelow I.OpGives I.OpOneGives I.ToGives I.KeepGives I.members_of) here.now (gets (act_view act)) h f }
    ensures asked { IfOk result (λ asked. AsksHere (domain I.Has I.IsBelow I.OpGives I.OpOneGives I.ToGives I.KeepGives I.members_of) here.now BackRule (act_view act.entry) asked.items) }
    ensures behind { IfOk result (λ asked. All (IsBehind (domain I.Has I.IsBelow I.OpGives I.OpOneGives I.ToGives I.KeepGives I.members_of) here.now) asked.items) }
{
    match called(act) {
        None => Ok(Vec::new(alloc)),
        Some(call) => asked_of_call(alloc, here, functions, call),
    }
}
