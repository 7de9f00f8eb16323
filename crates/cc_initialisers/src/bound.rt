//! The bound that an initialiser gives to an array (C99 6.7.8, 22).

ghost use Rattle.std.specs.Prelude.{◌≡◌, false, length, IfOk, map};
ghost use Rattle.cc_initialisers.specs.Contents.{contents};
ghost use Rattle.cc_initialisers.specs.Initialisers.{bound_given as bound_given_of, elements_of, here};
ghost use Rattle.cc_initialisers.specs.View.{content_view};

use crate::content::{Content, Part};
use crate::given::text;
use crate::walk::started;
use cc_operands::syntax::{CType, Structure};
use cc_program::num::NoMemory;
use cc_tree::{At, Given};
use std::alloc::Global;

/// How many elements of such contents a list has something for.
fn elements_given(alloc: Global, of: Content, gs: &[At<Given>]) -> Result<usize, NoMemory>
    ensures { IfOk result (λ n. n ≡ elements_of (length gs.now) (content_view of.entry) (map here gs.now)) }
{
    let mut rest = gs;
    let mut steps = Vec::new(alloc);
    for n in 0..gs.len() {
        if rest.is_empty() {
            return Ok(n);
        }
        rest = started(alloc, of, 0, rest, &mut steps)?;
        steps.clear();
    }
    Ok(gs.len())
}

/// How many elements an initialiser gives to an array of elements of the type: as many as it has something for.
#[tactic(auto, using(crate::proofs::Layers::of_layers))]
pub fn bound_given(
    alloc: Global,
    structures: &[Structure],
    t: &CType,
    g: &Given,
) -> Result<u64, NoMemory>
    ensures { IfOk result (λ n. n ≡ bound_given_of (contents structures.now t.now false) g.now) }
{
    let of = Part::whole(structures, t).content();
    if of.is_character() {
        if let Some(bytes) = text(g) {
            return Ok(bytes.len() as u64 + 1);
        }
    }
    match g {
        Given::One(_) => Ok(1),
        Given::Many(gs) => Ok(elements_given(alloc, of, gs.all())? as u64),
    }
}
