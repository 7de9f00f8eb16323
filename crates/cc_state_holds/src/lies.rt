//! Whether the state of a machine lies in facts.

ghost use Rattle.std.specs.Prelude.{◌≡◌, ◌↔◌, ◌<◌, ◌-◌, ◌∷◌, length, take, IsTrue, IfOk};
ghost use Rattle.cc_cells.specs.Cells.{cells_of};
ghost use Rattle.cc_flow_sound.specs.CcFlow.Points.{flow_of};
ghost use Rattle.cc_meaning.specs.View.{state_of};
ghost use Rattle.cc_proof_covers.specs.Covers.{under};
ghost use Rattle.cc_state.specs.Shape.{HaveShape};
ghost use Rattle.cc_state.specs.View.{Lies};
ghost use Rattle.cc_state_holds.specs.Basis.{IsBasis};
ghost use Rattle.cc_state_holds.specs.Parts.{counted_flag, IsStackIn};
ghost use Rattle.cc_state_reads.specs.CcStateOperators.Domains.{domain};
ghost use Rattle.cc_steps.specs.State.{Memory};
ghost use Rattle.cc_steps.specs.View.{active_of, actives_of};
ghost use Rattle.cc_state_reads.specs.CcSyntax.Normal.{IsNormal};

use crate::activations::{Around, is_activation_in};
use crate::basis::Basis;
use crate::objects::are_statics_in;
use cc_flow_sound::flow::Flow;
use cc_meaning::{Activation, Machine};
use cc_program::num::NoMemory;
use cc_state_reads::lattice::IntDomain;
use cc_state_reads::state_facts::Facts;
use cc_state_reads::state_keys::tracked;
use cc_state_scalars::static_keys;
use std::alloc::Global;

/// The flag as it counts for the activation below one: as on if that has interrupted it, and none if it waits.
fn flag_under(a: &Activation) -> Option<bool>
    ensures { (m : Memory) → result ≡ counted_flag (under (active_of a.now)) m }
{
    if a.handler { Some(true) } else { None }
}

/// The last activation of a stack.
#[tactic(auto, using(cc_steps::proofs::StackLemmas::of_last))]
fn last<'a, 'p>(stack: &'a [Activation<'p>]) -> &'a Activation<'p>
    requires { 0 < length stack.now }
    ensures { actives_of stack.now ≡ active_of result.now ∷ actives_of (take (length stack.now - 1) stack.now) }
{
    &stack[stack.len() - 1]
}

/// Whether a stack lies in the facts, where the flag counts so for its last activation.
fn is_stack_in<I: IntDomain>(
    alloc: Global,
    b: &Basis<I>,
    stack: &[Activation],
    around: &Around<'_>,
) -> Result<bool, NoMemory>
    requires { IsBasis (domain I.Has I.IsBelow I.OpGives I.OpOneGives I.ToGives I.KeepGives I.members_of) b.now }
    ensures { IfOk result (λ yes. (m : Memory) → m.statics ≡ cells_of around.now.statics.now → IsTrue yes ↔ IsStackIn (domain I.Has I.IsBelow I.OpGives I.OpOneGives I.ToGives I.KeepGives I.members_of) b.now.program.now b.now.facts.now around.now.flag m (actives_of stack.now)) }
{
    let n = stack.len();
    if n == 0 {
        return Ok(true);
    }
    let a = last(stack);
    let fits = is_activation_in(alloc, b, stack, a, around)?;
    if !fits {
        return Ok(false);
    }
    let under = Around {
        statics: around.statics,
        flag: flag_under(a),
    };
    is_stack_in(alloc, b, &stack[..n - 1], &under)
}

/// Whether the state of a machine lies in facts of its program's shape. The only error is want of memory.
pub fn holds<I: IntDomain>(
    alloc: Global,
    facts: &Facts<I>,
    flow: &Flow,
    m: &Machine<'_>,
) -> Result<bool, NoMemory>
    requires normal { IsNormal m.now.program.now }
    requires flow { flow.now ≡ flow_of m.now.program.now }
    requires shape { HaveShape (domain I.Has I.IsBelow I.OpGives I.OpOneGives I.ToGives I.KeepGives I.members_of) m.now.program.now facts.now }
    ensures { IfOk result (λ yes. IsTrue yes ↔ Lies (domain I.Has I.IsBelow I.OpGives I.OpOneGives I.ToGives I.KeepGives I.members_of) m.now.program.now facts.now (state_of m.now)) }
{
    let program = m.program;
    let tracked = tracked(alloc, program)?;
    let objects = static_keys(alloc, program)?;
    let b = Basis {
        program,
        flow,
        facts,
        tracked: &tracked,
        objects: objects.all(),
    };
    if !are_statics_in(&b, &m.statics) {
        return Ok(false);
    }
    let around = Around {
        statics: &m.statics,
        flag: Some(m.flag),
    };
    is_stack_in(alloc, &b, &m.stack, &around)
}
