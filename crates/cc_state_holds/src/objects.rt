//! The scalars of static objects, by the keys of their positions.

ghost use Rattle.std.specs.Prelude.{◌≡◌, ◌↔◌, IsTrue, option_map};
ghost use Rattle.std.specs.Option.{option_copied};
ghost use Rattle.cc_cells.specs.Cells.{cells_of};
ghost use Rattle.cc_proof_covers.specs.Covers.{AreStaticsIn};
ghost use Rattle.cc_state.specs.View.{view};
ghost use Rattle.cc_state_holds.specs.Parts.{AreScalarsIn, IsObjectIn, AreObjectsIn};
ghost use Rattle.cc_state_reads.specs.CcStateKeys.Keys.{keys_of};
ghost use Rattle.cc_state_reads.specs.CcStateOperators.Domains.{domain};
ghost use Rattle.cc_state_scalars.specs.Listed.{AreStaticKeys};

use crate::basis::Basis;
use crate::sets::is_scalar_in;
use cc_program::Value;
use cc_program::num::at;
use cc_state_reads::lattice::IntDomain;
use cc_state_reads::state_facts::Key;

/// Whether each scalar of an object is in the whole-run set of its key.
fn are_scalars_in<I: IntDomain>(b: &Basis<I>, keys: &[Key], values: &[Value]) -> bool
    requires { b.now.facts.now.keys ≡ keys_of b.now.program.now }
    ensures { IsTrue result ↔ AreScalarsIn (domain I.Has I.IsBelow I.OpGives I.OpOneGives I.ToGives I.KeepGives I.members_of) b.now.program.now b.now.facts.now keys.now values.now }
{
    for (n, key) in keys.iter().enumerate() {
        if !is_scalar_in(b, *key, at(values, n)) {
            return false;
        }
    }
    true
}

fn is_object_in<I: IntDomain>(b: &Basis<I>, keys: &[Key], held: Option<&Vec<Value>>) -> bool
    requires { b.now.facts.now.keys ≡ keys_of b.now.program.now }
    ensures { IsTrue result ↔ IsObjectIn (domain I.Has I.IsBelow I.OpGives I.OpOneGives I.ToGives I.KeepGives I.members_of) b.now.program.now b.now.facts.now keys.now (option_map (λ v. v.items) (option_copied held.entry)) }
{
    match held {
        None => true,
        Some(values) => are_scalars_in(b, keys, values.as_slice()),
    }
}

/// Whether each scalar of each static object is.
fn are_objects_in<I: IntDomain>(b: &Basis<I>, statics: &[Vec<Value>]) -> bool
    requires { b.now.facts.now.keys ≡ keys_of b.now.program.now }
    ensures { IsTrue result ↔ AreObjectsIn (domain I.Has I.IsBelow I.OpGives I.OpOneGives I.ToGives I.KeepGives I.members_of) b.now.program.now b.now.facts.now b.now.objects.now (cells_of statics.now) }
{
    for (i, keys) in b.objects.iter().enumerate() {
        if !is_object_in(b, keys.all(), at(statics, i)) {
            return false;
        }
    }
    true
}

/// Whether static objects that hold these values lie in the facts.
pub fn are_statics_in<I: IntDomain>(b: &Basis<I>, statics: &[Vec<Value>]) -> bool
    requires keys { b.now.facts.now.keys ≡ keys_of b.now.program.now }
    requires objects { AreStaticKeys b.now.program.now b.now.program.now.objects b.now.objects.now }
    ensures { IsTrue result ↔ AreStaticsIn b.now.program.now (view (domain I.Has I.IsBelow I.OpGives I.OpOneGives I.ToGives I.KeepGives I.members_of) b.now.program.now b.now.facts.now) (cells_of statics.now) }
{
    are_objects_in(b, statics)
}
