//! What names are wished for.

ghost use Rattle.std.specs.Prelude.{◌≡◌, IfOk, Some, codes, map};
ghost use Rattle.std.specs.Option.{option_copied};
ghost use Rattle.cc_definitions.specs.Definitions.{function_of as function_of_thing, thing_at as thing_of_number, thing_or_none};
ghost use Rattle.cc_linked_names.specs.Given.{wish_or as wish_or_of, tag_wish as tag_wish_of, thing_wish as thing_wish_of, local_wishes as local_wishes_of, local_wishes_in};
ghost use Rattle.cc_names.specs.View.{wish_of, wishes_of};
ghost use Rattle.cc_structures.specs.View.{known_of, knowns_of};
ghost use Rattle.cc_things.specs.Things.{own_name as own_name_of};
ghost use Rattle.cc_things.specs.View.{thing_view};

use cc_definitions::{function_of, own_name, thing_at};
use cc_names::Wish;
use cc_program::Func;
use cc_program::num::{Name, NoMemory};
use cc_structures::Known;
use cc_things::Thing;
use std::alloc::Global;

fn wish_or<'t>(base: &'t [u8], name: Option<&'t Name>) -> Wish<'t>
    ensures { wish_of result ≡ wish_or_of base.now (option_copied name.entry) }
{
    match name {
        Some(name) => Wish::Own(name.all()),
        None => Wish::Numbered(base),
    }
}

/// The name of a structure: its tag, or the first name of its typedef.
fn tag_wish<'t>(known: &Known<'t>) -> Wish<'t>
    ensures { wish_of result ≡ tag_wish_of (known_of known.now) }
{
    let structure = known.structure;
    let name = match &structure.tag {
        Some(tag) => Some(tag),
        None => structure.alias.as_ref(),
    };
    wish_or("anon".as_bytes(), name)
}

#[tactic(auto, using(crate::proofs::Giving::of_wishes))]
pub fn tag_wishes<'t>(alloc: Global, firsts: &[Known<'t>]) -> Result<Vec<Wish<'t>>, NoMemory>
    ensures { IfOk result (λ wishes. wishes_of wishes.items ≡ map tag_wish_of (knowns_of firsts.now)) }
{
    let mut wishes = Vec::new(alloc);
    for known in firsts {
        wishes.push(tag_wish(known))?;
    }
    Ok(wishes)
}

fn own_name_there<'t>(t: Option<&Thing<'t>>) -> Option<&'t Name>
    ensures { option_copied result ≡ own_name_of (thing_or_none (option_copied t.entry)) }
{
    match t {
        None => None,
        Some(t) => own_name(t),
    }
}

/// A string has no name of its own.
fn own_or_text<'t>(name: Option<&'t Name>) -> Wish<'t>
    ensures { wish_of result ≡ wish_or_of (codes "text") (option_copied name.entry) }
{
    wish_or("text".as_bytes(), name)
}

/// The name of the thing of a number.
fn thing_wish<'t>(things: &[Thing<'t>], number: usize) -> Wish<'t>
    ensures { wish_of result ≡ thing_wish_of (thing_of_number (map thing_view things.now) number) }
{
    own_or_text(own_name_there(thing_at(things, number)))
}

#[tactic(auto, using(crate::proofs::Giving::of_wishes))]
pub fn thing_wishes<'t>(
    alloc: Global,
    things: &[Thing<'t>],
    named: &[usize],
) -> Result<Vec<Wish<'t>>, NoMemory>
    ensures { IfOk result (λ wishes. wishes_of wishes.items ≡ map (λ k. thing_wish_of (thing_of_number (map thing_view things.now) k)) named.now) }
{
    let mut wishes = Vec::new(alloc);
    for number in named {
        wishes.push(thing_wish(things, *number))?;
    }
    Ok(wishes)
}

/// The names of the locals of a function.
#[tactic(auto, using(crate::proofs::Giving::of_wishes))]
fn wishes_in<'t>(alloc: Global, function: &'t Func) -> Result<Vec<Wish<'t>>, NoMemory>
    ensures { IfOk result (λ wishes. wishes_of wishes.items ≡ local_wishes_in (Some function.now)) }
{
    let mut wishes = Vec::new(alloc);
    for local in function.locals.all() {
        wishes.push(Wish::Own(local.0.all()))?;
    }
    Ok(wishes)
}

fn function_there<'t>(t: Option<&Thing<'t>>) -> Option<&'t Func>
    ensures { option_copied result ≡ function_of_thing (thing_or_none (option_copied t.entry)) }
{
    match t {
        None => None,
        Some(t) => function_of(t),
    }
}

#[tactic(auto, using(crate::proofs::Giving::of_wishes))]
fn wishes_for<'t>(alloc: Global, f: Option<&'t Func>) -> Result<Vec<Wish<'t>>, NoMemory>
    ensures { IfOk result (λ wishes. wishes_of wishes.items ≡ local_wishes_in (option_copied f.entry)) }
{
    match f {
        None => Ok(Vec::new(alloc)),
        Some(function) => wishes_in(alloc, function),
    }
}

/// The names of the locals of the function of a number.
pub fn local_wishes<'t>(
    alloc: Global,
    things: &[Thing<'t>],
    number: usize,
) -> Result<Vec<Wish<'t>>, NoMemory>
    ensures { IfOk result (λ wishes. wishes_of wishes.items ≡ local_wishes_of (thing_of_number (map thing_view things.now) number)) }
{
    wishes_for(alloc, function_there(thing_at(things, number)))
}
