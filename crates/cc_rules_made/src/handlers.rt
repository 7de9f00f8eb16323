//! The handlers of a program, with their levels.

ghost use Rattle.std.specs.List.{AllZip};
ghost use Rattle.std.specs.Prelude.{◌≡◌, ◌<◌, ◌^◌, ◌++◌, ℕ, List, length, Some, IfOk, OnOk};
ghost use Rattle.std.specs.Str.{bytes_eq};
ghost use Rattle.cc_rules_asked.specs.Handlers.{IsHandlerOf, AreHandlersOf};
ghost use Rattle.cc_rules_functions.specs.Functions.{IsFunctionOf, AreFunctionsOf};
ghost use Rattle.cc_rules_asked.specs.CcStateKeys.Lists.{only_if};
ghost use Rattle.cc_rules_asked.specs.CcSteps.Turn.{named_level as named_level_of, level_in};
ghost use Rattle.cc_rules_asked.specs.CcSyntax.Operators.{is_handler as is_handler_of};

use cc_program::num::{Name, NoMemory};
use cc_program::{Func, Program};
use cc_rules_asked::Handler;
use cc_rules_functions::Function;
use std::alloc::Global;

fn is_handler(f: &Func) -> bool
    ensures { result ≡ is_handler_of f.now }
{
    f.entry.is_some()
}

fn same(name: &[u8], other: &[u8]) -> bool
    ensures { result ≡ bytes_eq name.now other.now }
{
    name == other
}

/// The level that the roles give to a name, else 0.
fn named_level(levels: &[(Name, u8)], name: &[u8]) -> u8
    ensures { result ≡ named_level_of levels.now name.now }
{
    match levels {
        [] => 0,
        [level, others @ ..] => {
            if same(name, level.0.all()) {
                level.1
            } else {
                named_level(others, name)
            }
        }
    }
}

/// The level of a function.
fn level_of(p: &Program, f: &Func) -> u8
    ensures { result ≡ level_in p.now (Some f.now) }
{
    named_level(p.roles.levels.all(), f.name.all())
}

/// How many registers a function has.
fn register_count(f: &Function<'_>) -> u32
    requires { length f.now.registers < 2 ^ 32 }
    ensures { result ≡ length f.now.registers }
{
    f.registers.all().len() as u32
}

/// A function as a handler.
fn handler_of(p: &Program, id: u32, f: &Function<'_>) -> Handler
    requires { IsFunctionOf p.now id f.now }
    ensures { IsHandlerOf p.now result id }
{
    Handler {
        function: id,
        level: level_of(p, f.func),
        entry: f.entry,
        registers: register_count(f),
    }
}

/// Puts a function behind handlers, where it is one.
fn put_handler(
    handlers: &mut Vec<Handler>,
    p: &Program,
    id: u32,
    f: &Function<'_>,
) -> Result<(), NoMemory>
    requires { IsFunctionOf p.now id f.now }
    ensures { OnOk result ((ids : List ℕ) → AllZip (IsHandlerOf p.now) handlers.old.items ids → AllZip (IsHandlerOf p.now) handlers.new.items (ids ++ only_if (is_handler_of f.now.func.now) id)) }
{
    if !is_handler(f.func) {
        return Ok(());
    }
    handlers.push(handler_of(p, id, f))?;
    Ok(())
}

/// The handlers among the functions of a program.
pub(crate) fn handlers_of(
    alloc: Global,
    p: &Program,
    functions: &[Function<'_>],
) -> Result<Vec<Handler>, NoMemory>
    requires functions { AreFunctionsOf p.now functions.now }
    requires few { length functions.now < 2 ^ 32 }
    ensures { IfOk result (λ handlers. AreHandlersOf p.now handlers.items) }
{
    let mut handlers = Vec::new(alloc);
    for (id, f) in functions.iter().enumerate() {
        put_handler(&mut handlers, p, id as u32, f)?;
    }
    Ok(handlers)
}
