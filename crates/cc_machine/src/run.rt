//! The turns from the first one to the last.

ghost use Rattle.std.specs.Prelude.{◌≡◌, [], IfOk, IfErr};
ghost use Rattle.cc_tree.specs.declared.state.Control.TheVariants as control;
ghost use Rattle.cc_tree.specs.Height.{greatest_height};
ghost use Rattle.cc_tree.specs.Machine.{height_of as height_of_control, Reads, Refuses, Exceeds, IfWrong, IfDeep};

use crate::machine::Machine;
use cc_lex::Token;
use cc_num::{Boxed, NoMemory};
use cc_tree::Unit;
use cc_tree::state::{Control, Items, Tall};
use cc_tree::stop::Stop;
use cc_turns::turns::{discard, empty};
use std::alloc::Global;

/// Up to this height a sentence is read.
const GREATEST_HEIGHT: usize = 128;

/// The height of what has just been read.
fn height_of(control: &Control) -> usize
    ensures { result ≡ height_of_control control.now }
{
    match control {
        Control::Postfix(tree) => tree.height,
        Control::Operators(_, _, tree) => tree.height,
        Control::Tree(_, tree) => tree.height,
        Control::Suffix(declr) => declr.height,
        Control::HaveDeclr(declr) => declr.height,
        Control::HaveValue(value) => value.height,
        Control::HaveLine(line) => line.height,
        Control::Done(unit) => unit.height,
        _ => 0,
    }
}

/// What is to be done first.
fn first(alloc: Global) -> Result<Boxed<Control>, NoMemory>
    ensures { IfOk result (λ c. c ≡ control.Items (record { items = []; height = 0 })) }
{
    let items = Items {
        items: empty(alloc),
        height: 0,
    };
    Boxed::new(alloc, Control::Items(items))
}

/// Goes from the first turn to the last, as long as the nodes that wait and what has just been read are together no
/// higher than the greatest height.
#[tactic(auto, using(crate::proofs::Turned::of_leading, crate::proofs::Turned::falls_here))]
pub fn run(alloc: Global, tokens: &[Token]) -> Result<Tall<Unit>, Stop>
    ensures read { IfOk result (Reads greatest_height tokens.now) }
    ensures refused { IfErr result (IfWrong (Refuses greatest_height tokens.now)) }
    ensures exceeded { IfErr result (IfDeep (Exceeds greatest_height tokens.now)) }
{
    let mut machine = Machine::new(alloc);
    let mut rest = tokens;
    let mut control = first(alloc)?;
    'turns: loop {
        match control.into_inner() {
            Control::Done(unit) => return Ok(unit),
            other => match machine.turn(alloc, other, rest) {
                Err(Stop::Wrong(ahead)) => return Err(Stop::Wrong(ahead)),
                Err(_) => return Err(Stop::NoMemory),
                Ok((next, behind)) => {
                    let height = machine.frames.depth().saturating_add(height_of(next.get()));
                    if height > GREATEST_HEIGHT {
                        discard(next);
                        return Err(Stop::Deep(rest.len()));
                    }
                    control = next;
                    rest = behind;
                }
            },
        }
    }
}

/// Lets a tree go. What that takes is proved once, here.
pub fn discard_unit(_unit: Unit) {}
