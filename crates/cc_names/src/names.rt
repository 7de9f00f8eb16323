//! Names for wishes, one after the other.

ghost use Rattle.std.specs.Prelude.{◌≡◌, ◌++◌, ◌||◌, ℕ, List, [], ◌∷◌, IfOk};
ghost use Rattle.cc_names.specs.Holds.{Holds};
ghost use Rattle.cc_names.specs.Names.{name_for as name_for_wish, names_for as names_for_wishes};
ghost use Rattle.cc_names.specs.View.{HaveSame, has_wished as has_wished_name, with_name, wish_of, wishes_of};

use crate::taken::{Names, Taken};
use crate::wish::Wish;
use cc_num::{List as ListOf, Name, NoMemory};
use std::alloc::Global;

/// Whether a set has the name that is wished for.
fn has_wished(space: &Names, wish: Wish<'_>) -> bool
    ensures { result ≡ has_wished_name space.now (wish_of wish.entry) }
{
    match wish {
        Wish::Own(name) => space.has(name),
        Wish::Numbered(_) => false,
    }
}

/// Whether one of two sets has the name that is wished for.
fn either_has_wished(outer: &Names, inner: &Names, wish: Wish<'_>) -> bool
    ensures { result ≡ (has_wished_name outer.now (wish_of wish.entry) || has_wished_name inner.now (wish_of wish.entry)) }
{
    has_wished(outer, wish) || has_wished(inner, wish)
}

/// The name for a wish, which is taken from now on, where its space has it already or not.
fn name_for(
    alloc: Global,
    taken: &mut Taken,
    is_there: bool,
    wish: Wish<'_>,
) -> Result<Vec<u8>, NoMemory>
    ensures name { IfOk result (λ name. (reserved given names : List (List ℕ)) → Holds taken.old reserved given → is_there ≡ has_wished_name names (wish_of wish.entry) → name.items ≡ name_for_wish reserved given names (wish_of wish.entry)) }
    ensures taken { IfOk result (λ name. (reserved given : List (List ℕ)) → Holds taken.old reserved given → Holds taken.new reserved (given ++ name.items ∷ [])) }
{
    match wish {
        Wish::Own(name) => {
            if is_there {
                return taken.rename(alloc, name);
            }
            taken.give(alloc, name)?;
            Ok(Vec::from_slice(alloc, name)?)
        }
        Wish::Numbered(base) => taken.number(alloc, base),
    }
}

/// The next name, which is taken and in its space from now on, where the one that is wished for is there already or not.
fn next_name(
    alloc: Global,
    taken: &mut Taken,
    space: &mut Names,
    is_there: bool,
    wish: Wish<'_>,
) -> Result<Name, NoMemory>
    ensures name { IfOk result (λ name. (reserved given names : List (List ℕ)) → Holds taken.old reserved given → is_there ≡ has_wished_name names (wish_of wish.entry) → name ≡ name_for_wish reserved given names (wish_of wish.entry)) }
    ensures taken { IfOk result (λ name. (reserved given : List (List ℕ)) → Holds taken.old reserved given → Holds taken.new reserved (given ++ name ∷ [])) }
    ensures space { IfOk result (λ name. space.new ≡ with_name space.old name) }
{
    let name = name_for(alloc, taken, is_there, wish)?;
    space.add(alloc, name.as_slice())?;
    Ok(ListOf::of(name))
}

/// The names for wishes, one after the other, in a space that has some names.
pub fn names_for(
    alloc: Global,
    taken: &mut Taken,
    space: &mut Names,
    wishes: &[Wish<'_>],
) -> Result<Vec<Name>, NoMemory>
    ensures names { IfOk result (λ names. (reserved given had : List (List ℕ)) → Holds taken.old reserved given → HaveSame space.old had → names.items ≡ names_for_wishes reserved given had (wishes_of wishes.now)) }
    ensures taken { IfOk result (λ names. (reserved given : List (List ℕ)) → Holds taken.old reserved given → Holds taken.new reserved (given ++ names.items)) }
    ensures space { IfOk result (λ names. (had : List (List ℕ)) → HaveSame space.old had → HaveSame space.new (had ++ names.items)) }
{
    let mut names = Vec::new(alloc);
    for wish in wishes {
        let is_there = has_wished(space, *wish);
        let name = next_name(alloc, taken, space, is_there, *wish)?;
        names.push(name)?;
    }
    Ok(names)
}

/// The names for wishes, one after the other, in a space that has none before, inside one that has some names.
fn names_inside(
    alloc: Global,
    taken: &mut Taken,
    outer: &Names,
    space: &mut Names,
    wishes: &[Wish<'_>],
) -> Result<Vec<Name>, NoMemory>
    requires { space.old ≡ [] }
    ensures names { IfOk result (λ names. (reserved given had : List (List ℕ)) → Holds taken.old reserved given → HaveSame outer.now had → names.items ≡ names_for_wishes reserved given had (wishes_of wishes.now)) }
    ensures taken { IfOk result (λ names. (reserved given : List (List ℕ)) → Holds taken.old reserved given → Holds taken.new reserved (given ++ names.items)) }
{
    let mut names = Vec::new(alloc);
    for wish in wishes {
        let is_there = either_has_wished(outer, space, *wish);
        let name = next_name(alloc, taken, space, is_there, *wish)?;
        names.push(name)?;
    }
    Ok(names)
}

/// The names for wishes, one after the other, in a space of their own inside one that has some names (C99 6.2.1, 4).
/// The outer space stays as it is.
pub fn inner_names_for(
    alloc: Global,
    taken: &mut Taken,
    outer: &Names,
    wishes: &[Wish<'_>],
) -> Result<Vec<Name>, NoMemory>
    ensures names { IfOk result (λ names. (reserved given had : List (List ℕ)) → Holds taken.old reserved given → HaveSame outer.now had → names.items ≡ names_for_wishes reserved given had (wishes_of wishes.now)) }
    ensures taken { IfOk result (λ names. (reserved given : List (List ℕ)) → Holds taken.old reserved given → Holds taken.new reserved (given ++ names.items)) }
{
    let mut inner = Names::new(alloc);
    names_inside(alloc, taken, outer, &mut inner, wishes)
}
