//! The functions that a call may call, and the sets of its arguments.

ghost use Rattle.std.specs.Prelude.{◌≡◌, ◌++◌, All, IfOk, OnOk};
ghost use Rattle.std.specs.List.{AllZip};
ghost use Rattle.cc_rules_calls.specs.Called.{function_at, functions_among as functions_among_of, functions_in as functions_in_of};
ghost use Rattle.cc_rules_calls.specs.Here.{AreFunctionsIn};
ghost use Rattle.cc_state_points.specs.CcStateOperators.Domains.{domain};
ghost use Rattle.cc_state_points.specs.CcStateValues.Contexts.{HaveSetsIn, IsPureIn, IsValIn};
ghost use Rattle.cc_state_points.specs.CcSyntax.Sizes.{AreSized};

use cc_program::num::NoMemory;
use cc_program::{Address, Expr};
use cc_state_points::lattice::IntDomain;
use cc_state_points::places::Abs;
use cc_state_points::rules_flows::Here;
use cc_state_points::state_facts::Shared;
use cc_state_points::state_values::value_of;
use std::alloc::Global;

/// Puts the function of which an address is behind others.
fn put_function(functions: &mut Vec<u32>, a: &Address) -> Result<(), NoMemory>
    ensures { OnOk result (functions.new.items ≡ functions.old.items ++ function_at a.now) }
{
    match a {
        Address::Null => Ok(()),
        Address::Func(h) => Ok(functions.push(*h)?),
        Address::At { .. } => Ok(()),
    }
}

/// The functions of which some addresses are.
fn functions_among(alloc: Global, members: &[Address]) -> Result<Vec<u32>, NoMemory>
    ensures { IfOk result (λ functions. functions.items ≡ functions_among_of members.now) }
{
    let mut functions = Vec::new(alloc);
    for member in members {
        put_function(&mut functions, member)?;
    }
    Ok(functions)
}

/// The functions whose addresses a set has.
fn functions_in<I>(alloc: Global, set: &Abs<I>) -> Result<Vec<u32>, NoMemory>
    ensures { IfOk result (λ functions. functions.items ≡ functions_in_of set.now) }
{
    match set {
        Abs::Ints(_) => Ok(Vec::new(alloc)),
        Abs::Addrs(s) => functions_among(alloc, s.members.all()),
    }
}

/// The functions that an operand may be the address of, ascending.
pub(crate) fn called_here<I: IntDomain>(
    alloc: Global,
    here: &Here<'_, I>,
    g: &Expr,
) -> Result<Vec<u32>, NoMemory>
    requires sized { AreSized here.now.context.program.now.structures here.now.context.program.now.target }
    requires sets { HaveSetsIn (domain I.Has I.IsBelow I.OpGives I.OpOneGives I.ToGives I.KeepGives I.members_of) here.now.context }
    requires pure { IsPureIn (domain I.Has I.IsBelow I.OpGives I.OpOneGives I.ToGives I.KeepGives I.members_of) here.now.context g.now }
    ensures { IfOk result (λ functions. AreFunctionsIn (domain I.Has I.IsBelow I.OpGives I.OpOneGives I.ToGives I.KeepGives I.members_of) here.now g.now functions.items) }
{
    let set = value_of(alloc, &here.context, g)?;
    functions_in(alloc, &set)
}

/// What each of some expressions may give. The entries of the functions that are called share these sets.
pub(crate) fn values_here<I: IntDomain>(
    alloc: Global,
    here: &Here<'_, I>,
    args: &[Expr],
) -> Result<Vec<Shared<Abs<I>>>, NoMemory>
    requires sized { AreSized here.now.context.program.now.structures here.now.context.program.now.target }
    requires sets { HaveSetsIn (domain I.Has I.IsBelow I.OpGives I.OpOneGives I.ToGives I.KeepGives I.members_of) here.now.context }
    requires pure { All (IsPureIn (domain I.Has I.IsBelow I.OpGives I.OpOneGives I.ToGives I.KeepGives I.members_of) here.now.context) args.now }
    ensures { IfOk result (λ sets. AllZip (IsValIn (domain I.Has I.IsBelow I.OpGives I.OpOneGives I.ToGives I.KeepGives I.members_of) here.now.context) args.now sets.items) }
{
    let mut sets = Vec::new(alloc);
    for e in args {
        let value = value_of(alloc, &here.context, e)?;
        let set = Shared::new(alloc, value)?;
        sets.push(set)?;
    }
    Ok(sets)
}
