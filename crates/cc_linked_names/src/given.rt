//! The names that linking gives.

ghost use Rattle.std.specs.Prelude.{◌≡◌, ◌++◌, ℕ, List, [], None, IfOk, OnOk, map, nat_eq, position, slice_index_or};
ghost use Rattle.std.specs.Option.{option_copied};
ghost use Rattle.cc_definitions.specs.Definitions.{functions as functions_of, named as named_of, thing_at as thing_at_of};
ghost use Rattle.cc_linked_names.specs.Given.{tags as tags_of, local_names as local_names_of, locals_for, tag_wish as tag_wish_of, thing_wish as thing_wish_of, given_name, name_at as name_at_of, reserved_names};
ghost use Rattle.cc_names.specs.Holds.{Holds};
ghost use Rattle.cc_names.specs.Names.{names_for as names_for_wishes};
ghost use Rattle.cc_names.specs.View.{HaveSame};
ghost use Rattle.cc_structures.specs.View.{knowns_of};
ghost use Rattle.cc_typed.specs.CcSyntax.Names.{intrinsic_names};
ghost use Rattle.cc_things.specs.View.{thing_view};

use crate::reserved::reserve;
use crate::wishes::{local_wishes, tag_wishes, thing_wishes};
use cc_definitions::named;
use cc_names::{Names, Taken, inner_names_for, names_for};
use cc_order::first_positions;
use cc_program::Roles;
use cc_program::num::{List as ListOf, Name, NoMemory, at};
use cc_structures::Known;
use cc_things::{Text, Thing};
use std::alloc::Global;

/// The names of functions, objects and devices.
#[derive(Drop)]
pub struct FileNames {
    /// All names of their space, those of the intrinsics too.
    pub space: Names,
    /// Those of what has a name, in the order in which names are given.
    pub names: Vec<Name>,
    /// For each thing the position of its name among them.
    pub positions: Vec<Option<u32>>,
}

/// The names of a program.
#[derive(Drop)]
pub struct Given {
    /// Those of the structures, in order.
    pub tags: Vec<Name>,
    pub file: FileNames,
    /// The functions in order, by their numbers as things, each with those of its locals.
    pub locals: Vec<(usize, ListOf<Name>)>,
}

/// The position that is told for a number, where there is one.
pub fn position_at(positions: &[Option<u32>], number: usize) -> Option<u32>
    ensures { result ≡ slice_index_or positions.now number None }
{
    match at(positions, number) {
        None => None,
        Some(position) => *position,
    }
}

impl Given {
    /// The name of the thing of a number, where it has one in the program.
    pub fn name_of(&self, number: usize) -> Option<&Name>
        ensures { option_copied result ≡ given_name self.now number }
    {
        match position_at(self.file.positions.as_slice(), number) {
            None => None,
            Some(position) => at(self.file.names.as_slice(), position as usize),
        }
    }
}

/// Adds the names of the intrinsics to a space that has none.
fn add_intrinsics(alloc: Global, space: &mut Names, roles: &Roles) -> Result<(), NoMemory>
    requires { space.old ≡ [] }
    ensures { OnOk result (HaveSame space.new (intrinsic_names roles.now)) }
{
    space.add(alloc, roles.off.all())?;
    space.add(alloc, roles.on.all())?;
    space.add(alloc, roles.save.all())?;
    space.add(alloc, roles.restore.all())?;
    Ok(())
}

/// The names of the locals of functions, one function after the other.
fn locals(
    alloc: Global,
    taken: &mut Taken,
    file: &Names,
    things: &[Thing<'_>],
    functions: &[usize],
) -> Result<Vec<(usize, ListOf<Name>)>, NoMemory>
    ensures { IfOk result (λ locals. (reserved given had : List (List ℕ)) → Holds taken.old reserved given → HaveSame file.now had → locals.items ≡ locals_for (map thing_view things.now) reserved had given functions.now) }
{
    let mut locals = Vec::new(alloc);
    for number in functions {
        let wishes = local_wishes(alloc, things, *number)?;
        let names = inner_names_for(alloc, taken, file, wishes.as_slice())?;
        locals.push((*number, ListOf::of(names)))?;
    }
    Ok(locals)
}

/// The names of structures, in a space of their own.
fn tag_names(alloc: Global, taken: &mut Taken, firsts: &[Known<'_>]) -> Result<Vec<Name>, NoMemory>
    ensures names { IfOk result (λ tags. (reserved given : List (List ℕ)) → Holds taken.old reserved given → tags.items ≡ names_for_wishes reserved given [] (map tag_wish_of (knowns_of firsts.now))) }
    ensures taken { IfOk result (λ tags. (reserved given : List (List ℕ)) → Holds taken.old reserved given → Holds taken.new reserved (given ++ tags.items)) }
{
    let wishes = tag_wishes(alloc, firsts)?;
    let mut space = Names::new(alloc);
    names_for(alloc, taken, &mut space, wishes.as_slice())
}

/// The names of things, in a space with those of the intrinsics that has none before.
fn thing_names(
    alloc: Global,
    taken: &mut Taken,
    space: &mut Names,
    roles: &Roles,
    things: &[Thing<'_>],
    named: &[usize],
) -> Result<Vec<Name>, NoMemory>
    requires { space.old ≡ [] }
    ensures names { IfOk result (λ names. (reserved given : List (List ℕ)) → Holds taken.old reserved given → names.items ≡ names_for_wishes reserved given (intrinsic_names roles.now) (map (λ k. thing_wish_of (thing_at_of (map thing_view things.now) k)) named.now)) }
    ensures taken { IfOk result (λ names. (reserved given : List (List ℕ)) → Holds taken.old reserved given → Holds taken.new reserved (given ++ names.items)) }
    ensures space { IfOk result (λ names. HaveSame space.new (intrinsic_names roles.now ++ names.items)) }
{
    add_intrinsics(alloc, space, roles)?;
    let wishes = thing_wishes(alloc, things, named)?;
    names_for(alloc, taken, space, wishes.as_slice())
}

/// The names of functions, objects and devices, in one space with the intrinsics.
fn file_names(
    alloc: Global,
    taken: &mut Taken,
    roles: &Roles,
    things: &[Thing<'_>],
) -> Result<FileNames, NoMemory>
    ensures names { IfOk result (λ file. (reserved given : List (List ℕ)) → Holds taken.old reserved given → file.names.items ≡ names_for_wishes reserved given (intrinsic_names roles.now) (map (λ k. thing_wish_of (thing_at_of (map thing_view things.now) k)) (named_of (map thing_view things.now)))) }
    ensures taken { IfOk result (λ file. (reserved given : List (List ℕ)) → Holds taken.old reserved given → Holds taken.new reserved (given ++ file.names.items)) }
    ensures space { IfOk result (λ file. HaveSame file.space (intrinsic_names roles.now ++ file.names.items)) }
    ensures positions { IfOk result (λ file. (k : ℕ) → slice_index_or file.positions.items k None ≡ position (nat_eq k) (named_of (map thing_view things.now))) }
{
    let named = named(alloc, things)?;
    let positions = first_positions(alloc, things.len(), named.as_slice())?;
    let mut space = Names::new(alloc);
    let names = thing_names(alloc, taken, &mut space, roles, things, named.as_slice())?;
    Ok(FileNames {
        space,
        names,
        positions,
    })
}

/// All names of a program of these things, structures and functions, where none is taken before.
fn give_all(
    alloc: Global,
    taken: &mut Taken,
    texts: &[Text],
    roles: &Roles,
    things: &[Thing<'_>],
    firsts: &[Known<'_>],
    functions: &[usize],
) -> Result<Given, NoMemory>
    requires { Holds taken.old [] [] }
    ensures tags { IfOk result (λ given. given.tags.items ≡ tags_of (map thing_view things.now) (reserved_names texts.now roles.now) roles.now (knowns_of firsts.now)) }
    ensures names { IfOk result (λ given. (k : ℕ) → given_name given k ≡ name_at_of (map thing_view things.now) (reserved_names texts.now roles.now) roles.now (knowns_of firsts.now) k) }
    ensures locals { IfOk result (λ given. functions.now ≡ functions_of (map thing_view things.now) → given.locals.items ≡ local_names_of (map thing_view things.now) (reserved_names texts.now roles.now) roles.now (knowns_of firsts.now)) }
{
    reserve(alloc, taken, texts, roles)?;
    let tags = tag_names(alloc, taken, firsts)?;
    let file = file_names(alloc, taken, roles, things)?;
    let locals = locals(alloc, taken, &file.space, things, functions)?;
    Ok(Given { tags, file, locals })
}

/// All names of a program of these things, structures and functions.
pub fn given_names(
    alloc: Global,
    texts: &[Text],
    roles: &Roles,
    things: &[Thing<'_>],
    firsts: &[Known<'_>],
    functions: &[usize],
) -> Result<Given, NoMemory>
    ensures tags { IfOk result (λ given. given.tags.items ≡ tags_of (map thing_view things.now) (reserved_names texts.now roles.now) roles.now (knowns_of firsts.now)) }
    ensures names { IfOk result (λ given. (k : ℕ) → given_name given k ≡ name_at_of (map thing_view things.now) (reserved_names texts.now roles.now) roles.now (knowns_of firsts.now) k) }
    ensures locals { IfOk result (λ given. functions.now ≡ functions_of (map thing_view things.now) → given.locals.items ≡ local_names_of (map thing_view things.now) (reserved_names texts.now roles.now) roles.now (knowns_of firsts.now)) }
{
    let mut taken = Taken::new(alloc);
    give_all(alloc, &mut taken, texts, roles, things, firsts, functions)
}
