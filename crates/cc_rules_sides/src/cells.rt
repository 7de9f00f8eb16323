//! What a test leaves of the sets of tracked cells that equal registers.

ghost use Rattle.std.specs.Prelude.{◌≡◌, ◌<◌, ◌+◌, ◌*◌, ◌^◌, length, true, IfOk};
ghost use Rattle.cc_rules_sides.specs.Refined.{AreCellsLeft, AreNumbered, AreRegisters, AreRowsLeft, IsCellLeft, IsLeftMore, IsNumbered, equal_from, has_pairs_in as has_pairs_of};
ghost use Rattle.cc_rules_tests.specs.Tested.{IsTested};
ghost use Rattle.cc_rules_tests.specs.Trials.{IsTrialOf};
ghost use Rattle.cc_rules_flows.specs.CcStateFacts.Facts.{row_length};
ghost use Rattle.cc_rules_flows.specs.CcStateOperators.Domains.{domain};
ghost use Rattle.cc_rules_flows.specs.CcSyntax.Registers.{is_register};

use cc_program::num::{List, NoMemory};
use cc_rules_flows::lattice::IntDomain;
use cc_rules_flows::places::Abs;
use cc_rules_flows::state_facts::{PointFact, Row, Shared, is_pair};
use cc_rules_tests::{Tested, Trial};
use std::alloc::Global;

/// How many tracked cells a row has, where it is not the last.
const ROW_LENGTH: usize = 16;

/// A set of a cell as one register more leaves it, where that equals the cell.
fn left_more<I: IntDomain>(
    alloc: Global,
    tested: &Tested<'_, I>,
    trial: &mut Trial<I>,
    is_equal: bool,
    r: u32,
    set: Shared<Abs<I>>,
) -> Result<Shared<Abs<I>>, NoMemory>
    requires tested { IsTested (domain I.Has I.IsBelow I.OpGives I.OpOneGives I.ToGives I.KeepGives I.members_of) tested.now }
    requires trial { IsTrialOf (domain I.Has I.IsBelow I.OpGives I.OpOneGives I.ToGives I.KeepGives I.members_of) tested.now.context.now tested.now.expression.now trial.old }
    requires register { is_register tested.now.context.now.func.now r ≡ true }
    ensures trial { IsTrialOf (domain I.Has I.IsBelow I.OpGives I.OpOneGives I.ToGives I.KeepGives I.members_of) tested.now.context.now tested.now.expression.now trial.new }
    ensures left { IfOk result (λ z. IsLeftMore (domain I.Has I.IsBelow I.OpGives I.OpOneGives I.ToGives I.KeepGives I.members_of) tested.now is_equal r set z) }
{
    if is_equal {
        tested.left_alike(alloc, trial, r, &set)
    } else {
        Ok(set)
    }
}

/// A set of a cell as the registers that equal it leave it, one after the other.
fn left_cell<I: IntDomain>(
    alloc: Global,
    tested: &Tested<'_, I>,
    trial: &mut Trial<I>,
    fact: &PointFact<I>,
    cell: u32,
    set: &Shared<Abs<I>>,
) -> Result<Shared<Abs<I>>, NoMemory>
    requires tested { IsTested (domain I.Has I.IsBelow I.OpGives I.OpOneGives I.ToGives I.KeepGives I.members_of) tested.now }
    requires trial { IsTrialOf (domain I.Has I.IsBelow I.OpGives I.OpOneGives I.ToGives I.KeepGives I.members_of) tested.now.context.now tested.now.expression.now trial.old }
    requires registers { AreRegisters tested.now.context.now }
    requires few { length tested.now.context.now.registers.now < 2 ^ 32 }
    ensures trial { IsTrialOf (domain I.Has I.IsBelow I.OpGives I.OpOneGives I.ToGives I.KeepGives I.members_of) tested.now.context.now tested.now.expression.now trial.new }
    ensures left { IfOk result (λ z. IsCellLeft (domain I.Has I.IsBelow I.OpGives I.OpOneGives I.ToGives I.KeepGives I.members_of) tested.now (equal_from fact.now cell 0 tested.now.context.now.registers.now) set.now z) }
{
    let registers = tested.context.registers;
    let mut left = set.share()?;
    for number in 0..registers.len() {
        let is_equal = is_pair(fact, number as u32, cell);
        left = left_more(alloc, tested, trial, is_equal, registers[number], left)?;
    }
    Ok(left)
}

/// The number of a cell of a row.
fn number_of(row: usize, at: usize) -> u32
    requires { row_length * row + at < 2 ^ 32 }
    ensures { result ≡ row_length * row + at }
{
    (ROW_LENGTH * row + at) as u32
}

/// The sets of a row's cells, each as the registers that equal it leave it.
fn left_cells<I: IntDomain>(
    alloc: Global,
    tested: &Tested<'_, I>,
    trial: &mut Trial<I>,
    fact: &PointFact<I>,
    row: usize,
    sets: &[Shared<Abs<I>>],
) -> Result<Vec<Shared<Abs<I>>>, NoMemory>
    requires tested { IsTested (domain I.Has I.IsBelow I.OpGives I.OpOneGives I.ToGives I.KeepGives I.members_of) tested.now }
    requires trial { IsTrialOf (domain I.Has I.IsBelow I.OpGives I.OpOneGives I.ToGives I.KeepGives I.members_of) tested.now.context.now tested.now.expression.now trial.old }
    requires registers { AreRegisters tested.now.context.now }
    requires few { length tested.now.context.now.registers.now < 2 ^ 32 }
    requires cells { IsNumbered row sets.now }
    ensures trial { IsTrialOf (domain I.Has I.IsBelow I.OpGives I.OpOneGives I.ToGives I.KeepGives I.members_of) tested.now.context.now tested.now.expression.now trial.new }
    ensures left { IfOk result (λ left. AreCellsLeft (domain I.Has I.IsBelow I.OpGives I.OpOneGives I.ToGives I.KeepGives I.members_of) tested.now fact.now row sets.now left.items) }
{
    let mut left = Vec::new(alloc);
    for at in 0..sets.len() {
        let cell = number_of(row, at);
        let set = left_cell(alloc, tested, trial, fact, cell, &sets[at])?;
        left.push(set)?;
    }
    Ok(left)
}

/// Whether a cell of a row equals a register.
fn has_pairs_in(pairs: &[(u32, u32)], row: usize) -> bool
    ensures { result ≡ has_pairs_of pairs.now row }
{
    for pair in pairs {
        if pair.1 as usize / ROW_LENGTH == row {
            return true;
        }
    }
    false
}

/// A row with each set as the test leaves it. It stays shared where no register equals a cell of it.
fn left_row<I: IntDomain>(
    alloc: Global,
    tested: &Tested<'_, I>,
    trial: &mut Trial<I>,
    fact: &PointFact<I>,
    number: usize,
    row: &Shared<Row<I>>,
) -> Result<Shared<Row<I>>, NoMemory>
    requires tested { IsTested (domain I.Has I.IsBelow I.OpGives I.OpOneGives I.ToGives I.KeepGives I.members_of) tested.now }
    requires trial { IsTrialOf (domain I.Has I.IsBelow I.OpGives I.OpOneGives I.ToGives I.KeepGives I.members_of) tested.now.context.now tested.now.expression.now trial.old }
    requires registers { AreRegisters tested.now.context.now }
    requires few { length tested.now.context.now.registers.now < 2 ^ 32 }
    requires cells { IsNumbered number row.now.cells }
    ensures trial { IsTrialOf (domain I.Has I.IsBelow I.OpGives I.OpOneGives I.ToGives I.KeepGives I.members_of) tested.now.context.now tested.now.expression.now trial.new }
    ensures left { IfOk result (λ made. AreCellsLeft (domain I.Has I.IsBelow I.OpGives I.OpOneGives I.ToGives I.KeepGives I.members_of) tested.now fact.now number row.now.cells made.cells) }
{
    if !has_pairs_in(fact.same.all(), number) {
        return row.share();
    }
    let cells = left_cells(alloc, tested, trial, fact, number, row.get().cells.all())?;
    let cells = List::of(cells);
    Shared::new(alloc, Row { cells })
}

/// The rows of the tracked cells, each set as the test leaves it.
pub fn left_rows<I: IntDomain>(
    alloc: Global,
    tested: &Tested<'_, I>,
    trial: &mut Trial<I>,
    fact: &PointFact<I>,
) -> Result<Vec<Shared<Row<I>>>, NoMemory>
    requires tested { IsTested (domain I.Has I.IsBelow I.OpGives I.OpOneGives I.ToGives I.KeepGives I.members_of) tested.now }
    requires trial { IsTrialOf (domain I.Has I.IsBelow I.OpGives I.OpOneGives I.ToGives I.KeepGives I.members_of) tested.now.context.now tested.now.expression.now trial.old }
    requires registers { AreRegisters tested.now.context.now }
    requires few { length tested.now.context.now.registers.now < 2 ^ 32 }
    requires cells { AreNumbered fact.now }
    ensures trial { IsTrialOf (domain I.Has I.IsBelow I.OpGives I.OpOneGives I.ToGives I.KeepGives I.members_of) tested.now.context.now tested.now.expression.now trial.new }
    ensures left { IfOk result (λ left. AreRowsLeft (domain I.Has I.IsBelow I.OpGives I.OpOneGives I.ToGives I.KeepGives I.members_of) tested.now fact.now fact.now.rows left.items) }
{
    let rows = fact.rows.all();
    let mut left = Vec::new(alloc);
    for number in 0..rows.len() {
        let row = left_row(alloc, tested, trial, fact, number, &rows[number])?;
        left.push(row)?;
    }
    Ok(left)
}
