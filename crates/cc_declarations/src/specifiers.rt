//! Turns on specifiers (C99 6.7.2).

ghost use Rattle.std.specs.Prelude.{◌≡◌, ◌++◌, ◌∷◌, [], None, Some, Ok as OkOf};
ghost use Rattle.cc_tree.specs.Reading.{Gives, flat_of, ◌>>=◌ as bind, after as after_of};
ghost use Rattle.cc_tree.specs.ReadTypes.{attr as attr_of, attrs as attrs_of, tag as tag_of};
ghost use Rattle.cc_tree.specs.Scopes.{is_typedef as is_typedef_of};
ghost use Rattle.cc_tree.specs.Terms.{is_spec_word as is_spec_word_of};
ghost use Rattle.cc_tree.specs.Turns.{went_of, tall as tall_of, on as on_of};
ghost use Rattle.cc_tree.specs.TurnTypes as types;
ghost use Rattle.cc_tree.specs.declared.tree.Spec as node;
ghost use Rattle.cc_lex.specs.declared.token.Mark.TheVariants.{LBrace};

use cc_lex::{Kind, Mark, Token, Word};
use cc_num::{Boxed, List, Name};
use cc_tree::state::{Control, Enumeration, Scoping, Structure, Tall, Turn};
use cc_tree::stop::{Reading, Stop};
use cc_tree::{At, Attr, Spec};
use cc_turns::attributes::{attr, attrs};
use cc_turns::cursor::after;
use cc_turns::forms::{attrs_apart, have_word};
use cc_turns::names::is_spec_word;
use cc_turns::pieces::tag;
use cc_turns::scope::Scope;
use cc_turns::turns::{copied, empty, on, refused, tall, with};
use std::alloc::Global;

/// Goes on with what is in the box.
pub fn onto<'t>(control: Boxed<Control>, rest: &'t [Token]) -> Turn<'t>
    ensures { OkOf (went_of result) ≡ on_of control rest.now }
{
    Turn {
        frame: None,
        control,
        rest,
        scoping: Scoping::Same,
    }
}

/// Specifiers with one more.
pub fn with_spec(
    specs: List<At<Spec>>,
    at: u32,
    node: Spec,
    height: usize,
) -> Result<Tall<List<At<Spec>>>, Stop>
    ensures { Gives (λ s. s) result (OkOf (tall_of (specs ++ record { at = at; node = node } ∷ []) height)) }
{
    let specs = with(specs, At { at, node })?;
    Ok(tall(specs, height))
}

/// Goes on behind one specifier more.
pub fn behind_spec<'t>(
    alloc: Global,
    specs: List<At<Spec>>,
    at: u32,
    node: Spec,
    height: usize,
    tokens: &'t [Token],
) -> Result<Turn<'t>, Stop>
    ensures { Gives went_of result (types.behind_spec specs at node height tokens.now) }
{
    let specs = with(specs, At { at, node })?;
    on(alloc, Control::Specs(tall(specs, height)), tokens)
}

/// What was read, and attributes.
pub fn with_attrs<'t, A: Drop>(
    alloc: Global,
    read: A,
    tokens: &'t [Token],
) -> Reading<'t, (A, List<At<Attr>>)>
    ensures { Gives flat_of result (bind (attrs_of tokens.now) (λ a. OkOf ((read, a.0), a.1))) }
{
    let (attrs, rest) = attrs(alloc, tokens)?;
    Ok(((read, attrs), rest))
}

/// What was read, and an attribute, whose word stands first.
fn with_attr<'t, A: Drop>(alloc: Global, read: A, tokens: &'t [Token]) -> Reading<'t, (A, At<Attr>)>
    ensures { Gives flat_of result (bind (attr_of tokens.now) (λ a. OkOf ((read, a.0), a.1))) }
{
    let (attr, rest) = attr(alloc, tokens)?;
    Ok(((read, attr), rest))
}

/// What was read, and a tag, where one stands first.
fn with_tag<'t, A: Drop>(
    alloc: Global,
    read: A,
    tokens: &'t [Token],
) -> Reading<'t, (A, Option<Name>)>
    ensures { Gives flat_of result (OkOf ((read, (tag_of tokens.now).0), (tag_of tokens.now).1)) }
{
    let (tag, rest) = tag(alloc, tokens)?;
    Ok(((read, tag), rest))
}

/// The specifier that names a structure, behind these.
fn with_structure(
    alloc: Global,
    specs: Tall<List<At<Spec>>>,
    at: u32,
    name: Name,
) -> Result<Tall<List<At<Spec>>>, Stop>
    ensures { Gives (λ s. s) result (OkOf (tall_of (specs.node ++ record { at = at; node = node.Struct (Some name) None [] [] } ∷ []) specs.height)) }
{
    let node = Spec::Struct(Some(name), None, empty(alloc), empty(alloc));
    with_spec(specs.node, at, node, specs.height)
}

/// A structure without members, which has no attributes in front of its name.
fn bare_structure<'t>(
    alloc: Global,
    specs: Tall<List<At<Spec>>>,
    at: u32,
    name: Name,
    attrs: &[At<Attr>],
    tokens: &'t [Token],
) -> Result<Turn<'t>, Stop>
    ensures { Gives went_of result (types.named_structure specs at (Some name) attrs.now tokens.now) }
{
    match attrs {
        [] => on(
            alloc,
            Control::Specs(with_structure(alloc, specs, at, name)?),
            tokens,
        ),
        _ => Err(refused((specs, name), tokens)),
    }
}

/// A structure without members, which has a name and no attributes in front of it.
fn named_structure<'t>(
    alloc: Global,
    specs: Tall<List<At<Spec>>>,
    at: u32,
    tag: Option<Name>,
    attrs: List<At<Attr>>,
    tokens: &'t [Token],
) -> Result<Turn<'t>, Stop>
    ensures { Gives went_of result (types.named_structure specs at tag attrs tokens.now) }
{
    match tag {
        Some(name) => bare_structure(alloc, specs, at, name, attrs.all(), tokens),
        None => Err(refused(specs, tokens)),
    }
}

/// Behind the tag of a structure.
fn structure_at<'t>(
    alloc: Global,
    specs: Tall<List<At<Spec>>>,
    at: u32,
    tag: Option<Name>,
    attrs: List<At<Attr>>,
    tokens: &'t [Token],
) -> Result<Turn<'t>, Stop>
    ensures { Gives went_of result (types.structure_at specs at tag attrs tokens.now (after_of LBrace tokens.now)) }
{
    match after(Mark::LBrace, tokens) {
        Some(rest) => {
            let structure = Structure {
                outer: specs.node,
                at,
                tag,
                attrs,
                members: empty(alloc),
                height: specs.height,
            };
            on(alloc, Control::Structure(structure), rest)
        }
        None => named_structure(alloc, specs, at, tag, attrs, tokens),
    }
}

/// Behind the tag of an enumeration.
fn enumeration_at<'t>(
    alloc: Global,
    specs: Tall<List<At<Spec>>>,
    at: u32,
    tag: Option<Name>,
    tokens: &'t [Token],
) -> Result<Turn<'t>, Stop>
    ensures { Gives went_of result (types.enumeration_at specs at tag tokens.now (after_of LBrace tokens.now)) }
{
    match after(Mark::LBrace, tokens) {
        Some(rest) => {
            let enumeration = Enumeration {
                outer: specs.node,
                at,
                tag,
                enumrs: empty(alloc),
                height: specs.height,
            };
            on(alloc, Control::Enumr(enumeration), rest)
        }
        None => match tag {
            Some(name) => {
                let node = Spec::Enum(Some(name), None);
                behind_spec(alloc, specs.node, at, node, specs.height, tokens)
            }
            None => Err(refused(specs, tokens)),
        },
    }
}

/// Specifiers end here; they have a word other than `__extension__`, and no attribute right behind a brace.
fn specs_done<'t>(
    alloc: Global,
    specs: Tall<List<At<Spec>>>,
    tokens: &'t [Token],
) -> Result<Turn<'t>, Stop>
    ensures { Gives went_of result (types.specs_done specs tokens.now) }
{
    if have_word(specs.node.all()) && attrs_apart(false, specs.node.all()) {
        return on(alloc, Control::HaveSpecs(specs), tokens);
    }
    Err(refused(specs, tokens))
}

/// A word that is a specifier, or the end.
fn specs_plain<'t>(
    alloc: Global,
    specs: Tall<List<At<Spec>>>,
    all: &'t [Token],
    tokens: &'t [Token],
    at: u32,
    word: Word,
) -> Result<Turn<'t>, Stop>
    ensures { Gives went_of result (types.specs_plain specs all.now tokens.now at word (is_spec_word_of word)) }
{
    if is_spec_word(word) {
        return behind_spec(
            alloc,
            specs.node,
            at,
            Spec::Word(word),
            specs.height,
            tokens,
        );
    }
    specs_done(alloc, specs, all)
}

/// The specifier of a structure, behind its word.
fn structure_spec<'t>(
    alloc: Global,
    specs: Tall<List<At<Spec>>>,
    tokens: &'t [Token],
    at: u32,
) -> Result<Turn<'t>, Stop>
    ensures { Gives went_of result (types.structure_spec specs at tokens.now) }
{
    let (read, rest) = with_attrs(alloc, specs, tokens)?;
    let (((specs, attrs), tag), rest) = with_tag(alloc, read, rest)?;
    structure_at(alloc, specs, at, tag, attrs, rest)
}

/// The specifier of an enumeration, behind its word.
fn enumeration_spec<'t>(
    alloc: Global,
    specs: Tall<List<At<Spec>>>,
    tokens: &'t [Token],
    at: u32,
) -> Result<Turn<'t>, Stop>
    ensures { Gives went_of result (types.enumeration_spec specs at tokens.now) }
{
    let ((specs, tag), rest) = with_tag(alloc, specs, tokens)?;
    enumeration_at(alloc, specs, at, tag, rest)
}

/// An attribute.
fn attr_spec<'t>(
    alloc: Global,
    specs: Tall<List<At<Spec>>>,
    tokens: &'t [Token],
) -> Result<Turn<'t>, Stop>
    ensures { Gives went_of result (types.attr_spec specs tokens.now) }
{
    let ((specs, attr), rest) = with_attr(alloc, specs, tokens)?;
    let node = Spec::Attr(attr.node);
    let specs = with_spec(specs.node, attr.at, node, specs.height)?;
    let control = Boxed::new(alloc, Control::Specs(specs))?;
    Ok(onto(control, rest))
}

fn specs_word<'t>(
    alloc: Global,
    specs: Tall<List<At<Spec>>>,
    all: &'t [Token],
    tokens: &'t [Token],
    at: u32,
    word: Word,
) -> Result<Turn<'t>, Stop>
    ensures { Gives went_of result (types.specs_word specs all.now tokens.now at word) }
{
    match word {
        Word::Struct => structure_spec(alloc, specs, tokens, at),
        Word::Enum => enumeration_spec(alloc, specs, tokens, at),
        Word::Attribute => attr_spec(alloc, specs, all),
        _ => Ok(specs_plain(alloc, specs, all, tokens, at, word)?),
    }
}

/// A typedef name, behind these.
fn with_typedef(
    specs: Tall<List<At<Spec>>>,
    at: u32,
    name: Name,
) -> Result<Tall<List<At<Spec>>>, Stop>
    ensures { Gives (λ s. s) result (OkOf (tall_of (specs.node ++ record { at = at; node = node.Named name } ∷ []) specs.height)) }
{
    let node = Spec::Named(name);
    with_spec(specs.node, at, node, specs.height)
}

/// A typedef name.
fn typedef_name<'t>(
    alloc: Global,
    specs: Tall<List<At<Spec>>>,
    tokens: &'t [Token],
    at: u32,
    name: &[u8],
) -> Result<Turn<'t>, Stop>
    ensures { Gives went_of result (types.behind_spec specs.node at (node.Named name.now) specs.height tokens.now) }
{
    let (specs, name) = copied(alloc, specs, name)?;
    on(
        alloc,
        Control::Specs(with_typedef(specs, at, name)?),
        tokens,
    )
}

/// A typedef name, or the end.
fn specs_name<'t>(
    alloc: Global,
    scope: &Scope,
    specs: Tall<List<At<Spec>>>,
    all: &'t [Token],
    tokens: &'t [Token],
    at: u32,
    name: &[u8],
) -> Result<Turn<'t>, Stop>
    ensures { Gives went_of result (types.specs_name specs all.now tokens.now at name.now (is_typedef_of scope.now name.now)) }
{
    if scope.is_typedef(name) {
        return typedef_name(alloc, specs, tokens, at, name);
    }
    specs_done(alloc, specs, all)
}

/// A specifier behind these.
#[tactic(auto, unfolding(cc_tree::specs::TurnTypes::specifiers))]
pub fn specifiers<'t>(
    alloc: Global,
    scope: &Scope,
    specs: Tall<List<At<Spec>>>,
    tokens: &'t [Token],
) -> Result<Turn<'t>, Stop>
    ensures { Gives went_of result (types.specifiers scope.now specs tokens.now) }
{
    match tokens {
        [first, rest @ ..] => match &first.kind {
            Kind::Keyword(word) => specs_word(alloc, specs, tokens, rest, first.at, *word),
            Kind::Ident(x) => { specs_name(alloc, scope, specs, tokens, rest, first.at, x.all()) }
            _ => specs_done(alloc, specs, tokens),
        },
        [] => specs_done(alloc, specs, tokens),
    }
}
