//! The keys that a place names.

ghost use Rattle.std.specs.Prelude.{◌≡◌, ◌++◌, option_map, filter, IfOk, OnOk};
ghost use Rattle.std.specs.List.{flat_map};
ghost use Rattle.cc_program.specs.declared.expr.Expr.TheOpen as layer;
ghost use Rattle.cc_state_keys.specs.Keys.{keys_of};
ghost use Rattle.cc_state_keys.specs.Lists.{only};
ghost use Rattle.cc_state_values.specs.CcStateOperators.Domains.{domain};
ghost use Rattle.cc_state_reads.specs.Named.{is_among as is_among_of, target_class, member_class};
ghost use Rattle.cc_state_reads.specs.Contexts.{AreClassesIn, AreNamedIn, AreClassesAs};
ghost use Rattle.cc_state_values.specs.Contexts.{HaveSetsIn, IsPurePlaceIn, IsPurePlaceAs};
ghost use Rattle.cc_state_keys.specs.CcSyntax.Programs.{place_type as place_type_of};
ghost use Rattle.cc_state_keys.specs.CcSyntax.Sizes.{AreSized};
ghost use Rattle.cc_state_keys.specs.CcTyped.View.{place_view};

use cc_program::num::{List, NoMemory};
use cc_program::{Address, Expr, Place, Program};
use cc_state_keys::state_facts::Key;
use cc_state_keys::typed_crate::{PlaceType, Scope};
use cc_state_keys::{cell_key, is_key, member_key};
use cc_state_values::lattice::IntDomain;
use cc_state_values::places::Abs;
use cc_state_values::{Context, value_of};
use std::alloc::Global;

fn is_among(classes: &[Key], key: Key) -> bool
    ensures { result ≡ is_among_of classes.now key }
{
    classes.iter().any(|class| is_key(*class, key))
}

/// The keys of a list that are among some classes.
fn those_among(alloc: Global, keys: &[Key], classes: &[Key]) -> Result<Vec<Key>, NoMemory>
    ensures { IfOk result (λ found. found.items ≡ filter (is_among_of classes.now) keys.now) }
{
    let mut found = Vec::new(alloc);
    for key in keys {
        if is_among(classes, *key) {
            found.push(*key)?;
        }
    }
    Ok(found)
}

/// A list of one key, or of none.
fn only_key(alloc: Global, key: Option<Key>) -> Result<Vec<Key>, NoMemory>
    ensures { IfOk result (λ keys. keys.items ≡ only key) }
{
    match key {
        None => Ok(Vec::new(alloc)),
        Some(key) => {
            let mut keys = Vec::new(alloc);
            keys.push(key)?;
            Ok(keys)
        }
    }
}

/// Puts the class of the cell to which an address leads behind others.
fn put_target(p: &Program, classes: &mut Vec<Key>, a: &Address) -> Result<(), NoMemory>
    ensures { OnOk result (classes.new.items ≡ classes.old.items ++ target_class p.now a.now) }
{
    match a {
        Address::At {
            object,
            path,
            index: _,
            count: _,
        } => Ok(classes.push(cell_key(p, *object, path.all()))?),
        Address::Null | Address::Func(_) => Ok(()),
    }
}

/// The classes of the cells to which addresses lead.
fn targets(alloc: Global, p: &Program, members: &[Address]) -> Result<Vec<Key>, NoMemory>
    ensures { IfOk result (λ classes. classes.items ≡ flat_map (target_class p.now) members.now) }
{
    let mut classes = Vec::new(alloc);
    for member in members {
        put_target(p, &mut classes, member)?;
    }
    Ok(classes)
}

fn place_type<'a, 'p: 'a, I>(c: &Context<'p, I>, a: &'a Place) -> Option<PlaceType<'a>>
    requires { AreSized c.now.program.now.structures c.now.program.now.target }
    ensures { option_map place_view result ≡ place_type_of c.now.program.now c.now.func.now.locals a.now }
{
    let scope = Scope {
        program: c.program,
        locals: c.func.locals.all(),
    };
    scope.place_type(a)
}

/// The class of a member of the structure that a place is.
fn member_classes<I>(
    alloc: Global,
    c: &Context<'_, I>,
    b: &Place,
    m: u32,
) -> Result<Vec<Key>, NoMemory>
    requires { AreSized c.now.program.now.structures c.now.program.now.target }
    ensures { IfOk result (λ classes. classes.items ≡ member_class (place_type_of c.now.program.now c.now.func.now.locals b.now) m) }
{
    only_key(alloc, member_key(place_type(c, b), m))
}

/// The classes of what a pointer points to.
fn target_classes<I: IntDomain>(
    alloc: Global,
    c: &Context<'_, I>,
    e: &Expr,
) -> Result<Vec<Key>, NoMemory>
    requires sized { AreSized c.now.program.now.structures c.now.program.now.target }
    requires sets { HaveSetsIn (domain I.Has I.IsBelow I.OpGives I.OpOneGives I.ToGives I.KeepGives I.members_of) c.now }
    requires pure { IsPurePlaceAs (domain I.Has I.IsBelow I.OpGives I.OpOneGives I.ToGives I.KeepGives I.members_of) c.now (layer.Deref e.now) }
    ensures { IfOk result (λ classes. AreClassesAs (domain I.Has I.IsBelow I.OpGives I.OpOneGives I.ToGives I.KeepGives I.members_of) c.now (layer.Deref e.now) classes.items) }
{
    match value_of(alloc, c, e)? {
        Abs::Ints(_) => unreachable!(),
        Abs::Addrs(s) => targets(alloc, c.program, s.members.all()),
    }
}

/// The classes of the cells to which a place leads.
#[cycle(classes_of)]
fn classes_of<I: IntDomain>(
    alloc: Global,
    c: &Context<'_, I>,
    a: &Place,
) -> Result<Vec<Key>, NoMemory>
    requires sized { AreSized c.now.program.now.structures c.now.program.now.target }
    requires sets { HaveSetsIn (domain I.Has I.IsBelow I.OpGives I.OpOneGives I.ToGives I.KeepGives I.members_of) c.now }
    requires pure { IsPurePlaceIn (domain I.Has I.IsBelow I.OpGives I.OpOneGives I.ToGives I.KeepGives I.members_of) c.now a.now }
    ensures { IfOk result (λ classes. AreClassesIn (domain I.Has I.IsBelow I.OpGives I.OpOneGives I.ToGives I.KeepGives I.members_of) c.now a.now classes.items) }
{
    match a {
        Place::Local(r) => only_key(alloc, Some(Key::Local(c.id, *r))),
        Place::Static(i) => only_key(alloc, Some(Key::Object(*i))),
        Place::Device(_) => only_key(alloc, None),
        Place::Element(b, _) => classes_of(alloc, c, b.get()),
        Place::Member(b, m) => member_classes(alloc, c, b.get(), *m),
        Place::Deref(e) => target_classes(alloc, c, e.get()),
    }
}

/// The keys of a program, in its order, that a place names: those of the cells to which it may lead, where the registers of
/// the function hold values of the point's sets.
pub fn keys_named<I: IntDomain>(
    alloc: Global,
    c: &Context<'_, I>,
    keys: &[Key],
    a: &Place,
) -> Result<List<Key>, NoMemory>
    requires sized { AreSized c.now.program.now.structures c.now.program.now.target }
    requires sets { HaveSetsIn (domain I.Has I.IsBelow I.OpGives I.OpOneGives I.ToGives I.KeepGives I.members_of) c.now }
    requires pure { IsPurePlaceIn (domain I.Has I.IsBelow I.OpGives I.OpOneGives I.ToGives I.KeepGives I.members_of) c.now a.now }
    requires keys { keys.now ≡ keys_of c.now.program.now }
    ensures { IfOk result (λ named. AreNamedIn (domain I.Has I.IsBelow I.OpGives I.OpOneGives I.ToGives I.KeepGives I.members_of) c.now a.now named) }
{
    let classes = classes_of(alloc, c, a)?;
    Ok(List::of(those_among(alloc, keys, &classes)?))
}
