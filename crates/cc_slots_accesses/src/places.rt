//! What the place of an access says: the key that it names by its form, and whether it is volatile or may lie outside its array.

ghost use Rattle.std.specs.Prelude.{◌≡◌, ◌↔◌, IsTrue, IfOk, option_map, option_and_then};
ghost use Rattle.cc_program.specs.declared.expr.Expr.TheOpen as layer;
ghost use Rattle.cc_slots_accesses.specs.Arrays.{array_length as array_length_of};
ghost use Rattle.cc_slots_accesses.specs.Outside.{HasOutside, MayBeOutsideIn};
ghost use Rattle.cc_rules_flows.specs.CcStateFacts.declared.facts.Key.{Key as KeyOf};
ghost use Rattle.cc_state_keys.specs.Addressed.{in_place};
ghost use Rattle.cc_rules_flows.specs.CcStateOperators.Domains.{domain};
ghost use Rattle.cc_rules_flows.specs.CcStateValues.Contexts.{HaveSetsIn, IsPurePlaceIn};
ghost use Rattle.cc_rules_flows.specs.CcSyntax.Sizes.{AreSized};
ghost use Rattle.cc_rules_flows.specs.CcTyped.View.{place_view};

use crate::arrays::array_length;
use cc_program::Place;
use cc_program::num::NoMemory;
use cc_rules_flows::lattice::IntDomain;
use cc_rules_flows::places::Abs;
use cc_rules_flows::state_facts::Key;
use cc_rules_flows::state_values::{Context, value_of};
use cc_rules_flows::typed::{PlaceType, Scope};
use cc_state_keys::member_key;
use std::alloc::Global;

/// The type of a place.
#[tactic(auto, using(crate::proofs::Owns::of_types))]
pub(crate) fn place_type<'a, 'p: 'a, I>(c: &Context<'p, I>, a: &'a Place) -> Option<PlaceType<'a>>
    requires { AreSized c.now.program.now.structures c.now.program.now.target }
    ensures { option_map place_view result ≡ (in_place c.now.program.now c.now.id c.now.func.now a.now).ctype }
{
    let scope = Scope {
        program: c.program,
        locals: c.func.locals.all(),
    };
    scope.place_type(a)
}

/// The key that a place names by its form, not through a pointer.
#[tactic(auto, unfolding(cc_state_keys::specs::Addressed::in_place))]
pub(crate) fn own_key<I>(c: &Context<'_, I>, a: &Place) -> Option<Key>
    requires { AreSized c.now.program.now.structures c.now.program.now.target }
    ensures { result ≡ (in_place c.now.program.now c.now.id c.now.func.now a.now).own }
{
    match a {
        Place::Local(r) => Some(Key::Local(c.id, *r)),
        Place::Static(i) => Some(Key::Object(*i)),
        Place::Element(a, _) => own_key(c, a.get()),
        Place::Member(a, m) => member_key(place_type(c, a.get()), *m),
        Place::Device(_) | Place::Deref(_) => None,
    }
}

/// Whether some values have a number that is no subscript of an array of so many elements.
fn has_outside<I: IntDomain>(values: &Abs<I>, count: u32) -> bool
    ensures { IsTrue result ↔ HasOutside (domain I.Has I.IsBelow I.OpGives I.OpOneGives I.ToGives I.KeepGives I.members_of) values.now count }
{
    match values {
        Abs::Ints(numbers) => match numbers.bounds() {
            None => false,
            Some((low, high)) => low < 0 || i128::from(count) <= high,
        },
        Abs::Addrs(_) => false,
    }
}

/// How many elements the array has that a place names by its form.
fn length_in<I>(c: &Context<'_, I>, array: &Place) -> Option<u32>
    requires { AreSized c.now.program.now.structures c.now.program.now.target }
    ensures { result ≡ option_and_then (array_length_of c.now.program.now) (in_place c.now.program.now c.now.id c.now.func.now array.now).own }
{
    array_length(c.program, own_key(c, array)?)
}

/// Whether a place is an element of an array with a key that may lie outside it.
pub(crate) fn may_be_outside<I: IntDomain>(
    alloc: Global,
    c: &Context<'_, I>,
    a: &Place,
) -> Result<bool, NoMemory>
    requires sized { AreSized c.now.program.now.structures c.now.program.now.target }
    requires sets { HaveSetsIn (domain I.Has I.IsBelow I.OpGives I.OpOneGives I.ToGives I.KeepGives I.members_of) c.now }
    requires pure { IsPurePlaceIn (domain I.Has I.IsBelow I.OpGives I.OpOneGives I.ToGives I.KeepGives I.members_of) c.now a.now }
    ensures { IfOk result (λ may. IsTrue may ↔ ((k : KeyOf) × MayBeOutsideIn (domain I.Has I.IsBelow I.OpGives I.OpOneGives I.ToGives I.KeepGives I.members_of) c.now a.now k)) }
{
    match a {
        Place::Element(array, subscript) => match length_in(c, array.get()) {
            None => Ok(false),
            Some(count) => {
                let values = value_of(alloc, c, subscript.get())?;
                Ok(has_outside(&values, count))
            }
        },
        _ => Ok(false),
    }
}
