//! The lowest facts of a program.

ghost use Rattle.std.specs.Prelude.{◌≡◌, false, None, length, replicate, IfOk};
ghost use Rattle.std.specs.List.{AllZip};
ghost use Rattle.std.specs.Option.{option_copied};
ghost use Rattle.cc_state_reads.specs.CcFlow.Points.{count_of, flow_of};
ghost use Rattle.cc_state.specs.Shape.{ctype_of, HaveShape};
ghost use Rattle.cc_state_reads.specs.CcStateFacts.declared.facts.Facts.{Facts as FactsOf};
ghost use Rattle.cc_state_reads.specs.CcStateFacts.Orders.{IsBelow};
ghost use Rattle.cc_state_reads.specs.CcStateKeys.Keys.{keys_of};
ghost use Rattle.cc_state_reads.specs.CcStateOperators.Domains.{domain};
ghost use Rattle.cc_state_shape.specs.Lowest.{key_addresses, IsNoneOfKey, IsNoneOfResult, AreLowest};
ghost use Rattle.cc_state_reads.specs.CcSyntax.Normal.{IsNormal};
ghost use Rattle.cc_state_reads.specs.CcSyntax.Sound.{IsTypedProgram};

use crate::empty::{holds_addresses, none_of};
use cc_program::num::{List, NoMemory, at};
use cc_program::{CType, Func, Program};
use cc_state_reads::flow::Flow;
use cc_state_reads::lattice::IntDomain;
use cc_state_reads::places::Abs;
use cc_state_reads::state_facts::{Facts, Key, PointFact};
use cc_state_reads::state_keys::keys;
use std::alloc::Global;

/// The declared type of a static object.
fn object_type(p: &Program, i: u32) -> Option<&CType>
    ensures { option_copied result ≡ ctype_of p.now (Key.Object i) }
{
    match at(p.objects.all(), i as usize) {
        None => None,
        Some(object) => Some(&object.ctype),
    }
}

/// That of a local.
fn local_type(p: &Program, f: u32, r: u32) -> Option<&CType>
    ensures { option_copied result ≡ ctype_of p.now (Key.Local f r) }
{
    match at(p.funcs.all(), f as usize) {
        None => None,
        Some(func) => match at(func.locals.all(), r as usize) {
            None => None,
            Some(local) => Some(&local.1),
        },
    }
}

/// That of a member.
fn member_type(p: &Program, s: u32, m: u32) -> Option<&CType>
    ensures { option_copied result ≡ ctype_of p.now (Key.Member s m) }
{
    match at(p.structures.all(), s as usize) {
        None => None,
        Some(structure) => match at(structure.members.all(), m as usize) {
            None => None,
            Some(member) => Some(&member.1),
        },
    }
}

/// Whether the cells of a key hold addresses.
fn key_addresses_of(p: &Program, key: Key) -> bool
    ensures { result ≡ key_addresses p.now key }
{
    let declared = match key {
        Key::Object(i) => object_type(p, i),
        Key::Local(f, r) => local_type(p, f, r),
        Key::Member(s, m) => member_type(p, s, m),
    };
    match declared {
        None => false,
        Some(t) => holds_addresses(t),
    }
}

/// Of each key the empty set.
fn no_values<I: IntDomain>(
    alloc: Global,
    p: &Program,
    keys: &[Key],
) -> Result<Vec<Abs<I>>, NoMemory>
    ensures { IfOk result (λ sets. AllZip (IsNoneOfKey I.Has p.now) keys.now sets.items) }
{
    let mut sets = Vec::new(alloc);
    for key in keys {
        sets.push(none_of(alloc, key_addresses_of(p, *key)))?;
    }
    Ok(sets)
}

/// Of each function that gives nothing else.
fn no_results<I: IntDomain>(alloc: Global, funcs: &[Func]) -> Result<Vec<Abs<I>>, NoMemory>
    ensures { IfOk result (λ sets. AllZip (IsNoneOfResult I.Has) funcs.now sets.items) }
{
    let mut sets = Vec::new(alloc);
    for func in funcs {
        sets.push(none_of(alloc, holds_addresses(&func.sig.result)))?;
    }
    Ok(sets)
}

/// Twice so many marks, none of which is set.
fn unmarked(alloc: Global, count: usize) -> Result<(List<bool>, List<bool>), NoMemory>
    ensures { IfOk result (λ marks. (marks.0 ≡ replicate count false) × (marks.1 ≡ replicate count false)) }
{
    let first = vec![in alloc; false; count]?;
    let second = vec![in alloc; false; count]?;
    Ok((List::of(first), List::of(second)))
}

/// Twice so many sets of no levels.
fn no_levels(alloc: Global, count: usize) -> Result<(List<u8>, List<u8>), NoMemory>
    ensures { IfOk result (λ sets. (sets.0 ≡ replicate count 0) × (sets.1 ≡ replicate count 0)) }
{
    let first = vec![in alloc; 0; count]?;
    let second = vec![in alloc; 0; count]?;
    Ok((List::of(first), List::of(second)))
}

/// So many points, none of which is reached.
fn unreached<I: IntDomain>(
    alloc: Global,
    count: usize,
) -> Result<Vec<Option<PointFact<I>>>, NoMemory>
    ensures { IfOk result (λ at. at.items ≡ replicate count None) }
{
    let mut at = Vec::new(alloc);
    for point in 0..count {
        at.push(None)?;
    }
    Ok(at)
}

/// The lowest facts, of these keys: there are `count`, and `whole` is of each the empty set. So are `results` of the functions, and `at` of
/// the points.
fn lowest_of<I: IntDomain>(
    alloc: Global,
    p: &Program,
    keys: List<Key>,
    count: usize,
    whole: Vec<Abs<I>>,
    results: Vec<Abs<I>>,
    at: Vec<Option<PointFact<I>>>,
) -> Result<Facts<I>, NoMemory>
    requires keys { keys ≡ keys_of p.now }
    requires count { count ≡ length (keys_of p.now) }
    requires whole { AllZip (IsNoneOfKey I.Has p.now) (keys_of p.now) whole.items }
    requires results { AllZip (IsNoneOfResult I.Has) p.now.funcs results.items }
    requires at { at.items ≡ replicate (count_of p.now) None }
    ensures { IfOk result (λ facts. AreLowest I.Has p.now facts) }
{
    let funcs = p.funcs.all().len();
    let (by_main, by_handler) = unmarked(alloc, funcs)?;
    let (levels, from) = no_levels(alloc, funcs)?;
    let (handler_reads, handler_writes) = unmarked(alloc, count)?;
    let (read_levels, write_levels) = no_levels(alloc, count)?;
    Ok(Facts {
        keys,
        whole: List::of(whole),
        results: List::of(results),
        by_main,
        by_handler,
        levels,
        from,
        handler_reads,
        handler_writes,
        read_levels,
        write_levels,
        at: List::of(at),
    })
}

/// The same, of the keys of the program.
fn lowest_by<I: IntDomain>(alloc: Global, p: &Program, flow: &Flow) -> Result<Facts<I>, NoMemory>
    requires typed { IsTypedProgram p.now }
    requires flow { flow.now ≡ flow_of p.now }
    ensures { IfOk result (λ facts. AreLowest I.Has p.now facts) }
{
    let points = flow.points.all().len();
    let results = no_results(alloc, p.funcs.all())?;
    let at = unreached(alloc, points)?;
    let keys = keys(alloc, p)?;
    let listed = List::of(keys);
    let whole = no_values(alloc, p, listed.all())?;
    let count = listed.all().len();
    lowest_of(alloc, p, listed, count, whole, results, at)
}

/// The lowest facts of a program's shape, of which these are the points: nothing is reached or marked, and each set is empty. The only
/// error is want of memory.
pub fn lowest<I: IntDomain>(alloc: Global, p: &Program, flow: &Flow) -> Result<Facts<I>, NoMemory>
    requires normal { IsNormal p.now }
    requires flow { flow.now ≡ flow_of p.now }
    ensures shape { IfOk result (λ facts. HaveShape (domain I.Has I.IsBelow I.OpGives I.OpOneGives I.ToGives I.KeepGives I.members_of) p.now facts) }
    ensures least { IfOk result (λ facts. (others : FactsOf I) → HaveShape (domain I.Has I.IsBelow I.OpGives I.OpOneGives I.ToGives I.KeepGives I.members_of) p.now others → IsBelow I.IsBelow facts others) }
{
    lowest_by(alloc, p, flow)
}
