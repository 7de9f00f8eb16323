//! Structures and those that they have or point to.

ghost use Rattle.std.specs.Prelude.{◌≡◌, ◌++◌, ◌∷◌, [], IfOk, OnOk, map};
ghost use Rattle.cc_structures.specs.Looks.{look_of as look_of_known, node_of};
ghost use Rattle.cc_structures.specs.View.{known_of, knowns_of, looks_of, nodes_of};

use crate::known::Known;
use crate::looks::{Look, look_of};
use cc_program::num::NoMemory;
use std::alloc::Global;

/// A structure, and those that it has or points to, by their positions in its source.
#[derive(Drop)]
pub struct Node<'t> {
    pub known: Known<'t>,
    pub parts: Vec<u32>,
}

/// What structures look like, and their nodes.
#[derive(Drop)]
pub struct Described<'t> {
    pub looks: Vec<Look<'t>>,
    pub nodes: Vec<Node<'t>>,
}

/// Puts what a structure looks like and its node behind others.
#[tactic(auto, using(crate::proofs::Behind::of_described))]
fn put_described<'t>(
    alloc: Global,
    s: &Known<'t>,
    looks: &mut Vec<Look<'t>>,
    nodes: &mut Vec<Node<'t>>,
) -> Result<(), NoMemory>
    ensures looks { OnOk result (looks_of looks.new.items ≡ looks_of looks.old.items ++ look_of_known (known_of s.now) ∷ []) }
    ensures nodes { OnOk result (nodes_of nodes.new.items ≡ nodes_of nodes.old.items ++ node_of (known_of s.now) ∷ []) }
{
    let (look, node) = look_of(alloc, s)?;
    looks.push(look)?;
    nodes.push(node)?;
    Ok(())
}

/// Puts what structures look like and their nodes, where there are none so far.
fn put_all<'t>(
    alloc: Global,
    knowns: &[Known<'t>],
    looks: &mut Vec<Look<'t>>,
    nodes: &mut Vec<Node<'t>>,
) -> Result<(), NoMemory>
    requires looks { looks.old.items ≡ [] }
    requires nodes { nodes.old.items ≡ [] }
    ensures looks { OnOk result (looks_of looks.new.items ≡ map look_of_known (knowns_of knowns.now)) }
    ensures nodes { OnOk result (nodes_of nodes.new.items ≡ map node_of (knowns_of knowns.now)) }
{
    for s in knowns {
        put_described(alloc, s, looks, nodes)?;
    }
    Ok(())
}

/// What each structure looks like, and its node.
pub fn describe<'t>(alloc: Global, knowns: &[Known<'t>]) -> Result<Described<'t>, NoMemory>
    ensures looks { IfOk result (λ r. looks_of r.looks.items ≡ map look_of_known (knowns_of knowns.now)) }
    ensures nodes { IfOk result (λ r. nodes_of r.nodes.items ≡ map node_of (knowns_of knowns.now)) }
{
    let mut looks = Vec::new(alloc);
    let mut nodes = Vec::new(alloc);
    put_all(alloc, knowns, &mut looks, &mut nodes)?;
    Ok(Described { looks, nodes })
}
