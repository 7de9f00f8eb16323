//! Names and things that were met, each found at once.

ghost use Rattle.std.specs.Prelude.{◌≡◌, ◌++◌, ◌∷◌, [], not, IfOk, if◌then◌else◌};
ghost use Rattle.std.specs.List.{list_any};
ghost use Rattle.std.specs.Str.{bytes_eq};
ghost use Rattle.cc_cost.specs.Settings.{thing_of, same_thing};
ghost use Rattle.cc_cost.specs.Sets.{names_of, things_of};

use crate::field::second_of;
use crate::setting::Setting;
use cc_program::num::NoMemory;
use indexmap::IndexSet;

/// Names, in the order in which they were added.
pub type Names<'t> = IndexSet<&'t [u8]>;

/// What settings are for: the key, and where it is given once for each second field, that field.
pub type Things<'t> = IndexSet<(&'t [u8], &'t [u8])>;

/// Adds a name, and tells whether it was not there.
#[tactic(auto, using(crate::proofs::SetLemmas::of_names))]
pub fn add_name<'t>(names: &mut Names<'t>, name: &'t [u8]) -> Result<bool, NoMemory>
    ensures added { IfOk result (λ r. r ≡ not (list_any (bytes_eq name.now) (names_of names.old))) }
    ensures names { IfOk result (λ r. names_of names.new ≡ (if r then names_of names.old ++ name.now ∷ [] else names_of names.old)) }
{
    Ok(names.insert(name)?)
}

/// Adds what a setting is for, and tells whether it was not there.
#[tactic(auto, using(crate::proofs::SetLemmas::of_things))]
pub fn add_thing<'t>(things: &mut Things<'t>, setting: &'t Setting) -> Result<bool, NoMemory>
    ensures added { IfOk result (λ r. r ≡ not (list_any (same_thing (thing_of setting.now)) (things_of things.old))) }
    ensures things { IfOk result (λ r. things_of things.new ≡ (if r then things_of things.old ++ thing_of setting.now ∷ [] else things_of things.old)) }
{
    let thing = (setting.key.spelling().as_bytes(), second_of(setting));
    Ok(things.insert(thing)?)
}
