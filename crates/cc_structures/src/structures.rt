//! The structures of the program.

ghost use Rattle.std.specs.Prelude.{◌≡◌, IfOk};
ghost use Rattle.cc_structures.specs.Ordered.{positions_of};
ghost use Rattle.cc_structures.specs.Refined.{by_source as by_source_of, AreTypes};
ghost use Rattle.cc_structures.specs.Structures.{AreNumbered, structures};
ghost use Rattle.cc_structures.specs.View.{knowns_of, units_of};

use crate::firsts::first_keys;
use crate::known::{Known, knowns};
use crate::nodes::{Described, describe};
use crate::ordered::{Firsts, firsts_in_order, positions};
use crate::refined::{by_lists, by_looks, by_source, refined};
use cc_program::num::{List, NoMemory};
use cc_things::Text;
use indexmap::IndexSet;
use std::alloc::Global;

/// Which structures of the sources are one type.
#[derive(Drop)]
pub struct Structures<'t> {
    /// For each source the numbers of its structures in the program.
    pub numbers: Vec<List<u32>>,
    /// The structures of the program: of each type the first, in the program's order.
    pub firsts: Vec<Known<'t>>,
}

/// The numbers of types, where two structures that are one type have one number, and no others have.
fn types_of(alloc: Global, texts: &[Text], knowns: &[Known<'_>]) -> Result<Vec<List<u32>>, NoMemory>
    requires { knowns_of knowns.now ≡ structures (units_of texts.now) }
    ensures { IfOk result (λ r. AreTypes (units_of texts.now) r.items) }
{
    let Described { looks, nodes } = describe(alloc, knowns)?;
    let start = by_looks(alloc, texts, looks)?;
    let alike = refined(alloc, texts, nodes.as_slice(), start)?;
    let keys = first_keys(alloc, knowns, alike.as_slice())?;
    let start = by_lists(alloc, texts, keys)?;
    refined(alloc, texts, nodes.as_slice(), start)
}

/// The numbers of all structures in the program, source by source.
fn numbers_in(
    alloc: Global,
    texts: &[Text],
    found: &IndexSet<u32>,
    knowns: &[Known<'_>],
    types: &[List<u32>],
) -> Result<Vec<List<u32>>, NoMemory>
    ensures { IfOk result (λ r. r.items ≡ by_source_of (units_of texts.now) (positions_of types.now found.now.keys (knowns_of knowns.now))) }
{
    let positions = positions(alloc, found, knowns, types)?;
    by_source(alloc, texts, positions.as_slice())
}

/// The structures of the program by their types.
fn numbered<'t>(
    alloc: Global,
    texts: &[Text],
    knowns: &[Known<'t>],
    types: &[List<u32>],
) -> Result<Structures<'t>, NoMemory>
    requires knowns { knowns_of knowns.now ≡ structures (units_of texts.now) }
    requires types { AreTypes (units_of texts.now) types.now }
    ensures { IfOk result (λ r. AreNumbered (units_of texts.now) r.numbers.items (knowns_of r.firsts.items)) }
{
    let Firsts { found, firsts } = firsts_in_order(alloc, knowns, types)?;
    let numbers = numbers_in(alloc, texts, &found, knowns, types)?;
    Ok(Structures { numbers, firsts })
}

/// The structures of the program: which of the sources' are one type, and in what order they stand.
pub fn structures_of<'t>(alloc: Global, texts: &'t [Text]) -> Result<Structures<'t>, NoMemory>
    ensures { IfOk result (λ r. AreNumbered (units_of texts.now) r.numbers.items (knowns_of r.firsts.items)) }
{
    let knowns = knowns(alloc, texts)?;
    let types = types_of(alloc, texts, knowns.as_slice())?;
    numbered(alloc, texts, knowns.as_slice(), types.as_slice())
}
