//! What is done for an initialiser, step by step (C99 6.7.8).

ghost use Rattle.std.specs.Prelude.{◌≡◌, ◌++◌, ◌∷◌, [], OnOk};
ghost use Rattle.std.specs.Option.{option_copied};
ghost use Rattle.cc_initialisers.specs.Initialisers.{Give, Zero, char_or_zero, breaks};
ghost use Rattle.cc_initialisers.specs.View.{step_view, steps_of};
ghost use Rattle.cc_operands.specs.CcTyped.View.{value_view};

use cc_operands::typed_crate::ValueType;
use cc_operands::{OperandType, Rule, owned};
use cc_program::num::NoMemory;
use cc_tree::{At, Tree};
use std::alloc::Global;

/// One thing that is done for an initialiser (C99 6.7.8).
#[derive(Drop)]
pub enum Step<'p> {
    /// A scalar of this type, which may be const, is given the expression.
    Give(bool, OperandType, &'p At<Tree>),
    /// A scalar is given a character of the string that begins at this byte of the text.
    Character(u32, bool, OperandType, u8),
    /// A scalar is given zero, or null, in the list or the string that begins at this byte of the text.
    Zero(u32, bool, OperandType),
    /// The expression is taken as a value, for nothing.
    Visit(&'p At<Tree>),
    /// The construct that begins at this byte of the text breaks the rule. Nothing is done behind it.
    Breaks(u32, Rule),
}

/// One step more.
#[tactic(auto, using(crate::proofs::Steps::of_steps), unfolding(crate::specs::View::steps_of))]
pub fn put<'p>(step: Step<'p>, out: &mut Vec<Step<'p>>) -> Result<(), NoMemory>
    ensures { OnOk result (steps_of out.new ≡ steps_of out.old ++ step_view step.entry ∷ []) }
{
    out.push(step)?;
    Ok(())
}

/// A scalar is given an expression.
pub fn put_given<'p>(
    alloc: Global,
    constant: bool,
    t: ValueType,
    e: &'p At<Tree>,
    out: &mut Vec<Step<'p>>,
) -> Result<(), NoMemory>
    ensures { OnOk result (steps_of out.new ≡ steps_of out.old ++ Give constant (value_view t.entry) e.now ∷ []) }
{
    let t = owned(alloc, t)?;
    put(Step::Give(constant, t, e), out)
}

/// A scalar is given zero.
pub fn put_zero<'p>(
    alloc: Global,
    at: u32,
    constant: bool,
    t: ValueType,
    out: &mut Vec<Step<'p>>,
) -> Result<(), NoMemory>
    ensures { OnOk result (steps_of out.new ≡ steps_of out.old ++ Zero at constant (value_view t.entry) ∷ []) }
{
    let t = owned(alloc, t)?;
    put(Step::Zero(at, constant, t), out)
}

/// A scalar is given a character of a string, or zero behind its end.
pub fn put_character<'p>(
    alloc: Global,
    at: u32,
    constant: bool,
    t: ValueType,
    byte: Option<&u8>,
    out: &mut Vec<Step<'p>>,
) -> Result<(), NoMemory>
    ensures { OnOk result (steps_of out.new ≡ steps_of out.old ++ char_or_zero at constant (value_view t.entry) (option_copied byte.entry) ∷ []) }
{
    match byte {
        None => put_zero(alloc, at, constant, t, out),
        Some(byte) => {
            let t = owned(alloc, t)?;
            put(Step::Character(at, constant, t, *byte), out)
        }
    }
}

/// A rule is broken.
pub fn put_breach<'p>(at: u32, broken: Rule, out: &mut Vec<Step<'p>>) -> Result<(), NoMemory>
    ensures { OnOk result (steps_of out.new ≡ steps_of out.old ++ breaks at broken) }
{
    put(Step::Breaks(at, broken), out)
}
