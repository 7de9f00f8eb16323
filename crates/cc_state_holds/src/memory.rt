//! Tracked cells, and registers that are equal to tracked cells, at a point.

ghost use Rattle.std.specs.Prelude.{◌≡◌, ◌↔◌, ◌==◌, ℕ, Some, IsTrue, position};
ghost use Rattle.std.specs.Option.{option_copied};
ghost use Rattle.cc_cells.specs.Cells.{cells_of};
ghost use Rattle.cc_program.specs.declared.func.Func.{Func as FuncOf};
ghost use Rattle.cc_program.specs.declared.value.Value.{Value as ValueOf};
ghost use Rattle.cc_proof_covers.specs.Pending.{value_in as value_in_of};
ghost use Rattle.cc_state_reads.specs.CcStateFacts.Facts.{cell_of};
ghost use Rattle.cc_state_holds.specs.Parts.{IsInCellSet, IsCellHeld, AreCellsHeld, IsAtCell, IsPairHeld, ArePairsHeld};
ghost use Rattle.cc_state_reads.specs.CcStateKeys.Tracked.{registers as registers_of, tracked as tracked_of};
ghost use Rattle.cc_state_reads.specs.CcStateOperators.Domains.{domain};
ghost use Rattle.cc_steps.specs.View.{active_of};

use crate::basis::Basis;
use crate::pending::value_in;
use crate::sets::has;
use cc_cells::read_scalar;
use cc_meaning::Activation;
use cc_program::Value;
use cc_program::num::at;
use cc_state_reads::lattice::IntDomain;
use cc_state_reads::places::Abs;
use cc_state_reads::state_facts::PointFact;
use cc_state_reads::state_keys::number_in;

/// How many tracked cells a row has, where it is not the last.
const ROW_LENGTH: usize = 16;

/// The set of a tracked cell at a point.
pub fn cell<I>(fact: &PointFact<I>, number: usize) -> Option<&Abs<I>>
    ensures { option_copied result ≡ cell_of fact.now number }
{
    let row = at(fact.rows.all(), number / ROW_LENGTH)?;
    let set = at(row.get().cells.all(), number % ROW_LENGTH)?;
    Some(set.get())
}

/// Whether a value is in the set of a tracked object.
pub fn is_in_cell_set<I: IntDomain>(
    b: &Basis<I>,
    fact: &PointFact<I>,
    i: u32,
    value: &Value,
) -> bool
    requires { b.now.tracked.now ≡ tracked_of b.now.program.now }
    ensures { IsTrue result ↔ IsInCellSet (domain I.Has I.IsBelow I.OpGives I.OpOneGives I.ToGives I.KeepGives I.members_of) b.now.program.now fact.now i value.now }
{
    match number_in(b.tracked, i) {
        None => false,
        Some(number) => has(cell(fact, number), value),
    }
}

/// Whether what a tracked object holds is in its set.
fn is_cell_held<I: IntDomain>(
    b: &Basis<I>,
    fact: &PointFact<I>,
    i: u32,
    held: Option<&Value>,
) -> bool
    requires { b.now.tracked.now ≡ tracked_of b.now.program.now }
    ensures { IsTrue result ↔ IsCellHeld (domain I.Has I.IsBelow I.OpGives I.OpOneGives I.ToGives I.KeepGives I.members_of) b.now.program.now fact.now i (option_copied held.entry) }
{
    match held {
        None => true,
        Some(value) => is_in_cell_set(b, fact, i, value),
    }
}

/// Whether what each tracked object holds is.
pub fn are_cells_held<I: IntDomain>(
    b: &Basis<I>,
    fact: &PointFact<I>,
    statics: &[Vec<Value>],
) -> bool
    requires { b.now.tracked.now ≡ tracked_of b.now.program.now }
    ensures { IsTrue result ↔ AreCellsHeld (domain I.Has I.IsBelow I.OpGives I.OpOneGives I.ToGives I.KeepGives I.members_of) b.now.program.now fact.now b.now.tracked.now (cells_of statics.now) }
{
    for i in b.tracked {
        if !is_cell_held(b, fact, *i, read_scalar(statics, *i, 0)) {
            return false;
        }
    }
    true
}

/// Whether a number has this position among some.
fn has_position(numbers: &[u32], number: u32, n: u32) -> bool
    ensures { IsTrue result ↔ (position (λ m. m == number) numbers.now ≡ Some n) }
{
    match number_in(numbers, number) {
        None => false,
        Some(found) => found == n as usize,
    }
}

/// The number that has this position among some.
fn number_at(numbers: &[u32], n: u32) -> Option<u32>
    ensures { (r : ℕ) → (position (λ m. m == r) numbers.now ≡ Some n) ↔ (result ≡ Some r) }
{
    match at(numbers, n as usize) {
        None => None,
        Some(number) => {
            if has_position(numbers, *number, n) {
                Some(*number)
            } else {
                None
            }
        }
    }
}

fn is_same(a: &Value, b: &Value) -> bool
    ensures { IsTrue result ↔ (a.now ≡ b.now) }
{
    match a {
        Value::Int(v) => match b {
            Value::Int(w) => *v == *w,
            Value::Place(_) => false,
        },
        Value::Place(a) => match b {
            Value::Int(_) => false,
            Value::Place(b) => a.same(b),
        },
    }
}

/// Whether a value is the one that is held.
fn is_held(value: &Value, held: Option<&Value>) -> bool
    ensures { IsTrue result ↔ (option_copied held.entry ≡ Some value.now) }
{
    match held {
        None => false,
        Some(held) => is_same(held, value),
    }
}

/// Whether what the one holds, if it is written, is held by the other.
fn is_equal(held: Option<&Value>, other: Option<&Value>) -> bool
    ensures { IsTrue result ↔ ((x : ValueOf) → option_copied held.entry ≡ Some x → option_copied other.entry ≡ Some x) }
{
    match held {
        None => true,
        Some(value) => is_held(value, other),
    }
}

/// Whether what is held, if it is written, is what the tracked object of a position holds.
fn is_at_cell<I>(b: &Basis<I>, n: u32, held: Option<&Value>, statics: &[Vec<Value>]) -> bool
    requires { b.now.tracked.now ≡ tracked_of b.now.program.now }
    ensures { IsTrue result ↔ IsAtCell b.now.program.now n (option_copied held.entry) (cells_of statics.now) }
{
    match number_at(b.tracked, n) {
        None => true,
        Some(i) => is_equal(held, read_scalar(statics, i, 0)),
    }
}

/// Whether a register that was written is the same as a tracked object, where their positions are this pair.
fn is_pair_held<'a, I>(
    b: &Basis<I>,
    registers: &[u32],
    pair: (u32, u32),
    a: &'a Activation,
    pending: Option<&'a (u32, Value)>,
    statics: &[Vec<Value>],
) -> bool
    requires { b.now.tracked.now ≡ tracked_of b.now.program.now }
    ensures { (f : FuncOf) → registers.now ≡ registers_of f → IsTrue result ↔ IsPairHeld b.now.program.now f pair (value_in_of (option_copied pending.entry) (active_of a.now)) (cells_of statics.now) }
{
    match number_at(registers, pair.0) {
        None => true,
        Some(r) => is_at_cell(b, pair.1, value_in(pending, a, r), statics),
    }
}

/// Whether this is so of each of some pairs.
pub fn are_pairs_held<'a, I>(
    b: &Basis<I>,
    registers: &[u32],
    pairs: &[(u32, u32)],
    a: &'a Activation,
    pending: Option<&'a (u32, Value)>,
    statics: &[Vec<Value>],
) -> bool
    requires { b.now.tracked.now ≡ tracked_of b.now.program.now }
    ensures { (f : FuncOf) → registers.now ≡ registers_of f → IsTrue result ↔ ArePairsHeld b.now.program.now f pairs.now (value_in_of (option_copied pending.entry) (active_of a.now)) (cells_of statics.now) }
{
    for pair in pairs {
        if !is_pair_held(b, registers, *pair, a, pending, statics) {
            return false;
        }
    }
    true
}
