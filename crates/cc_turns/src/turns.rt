//! Turns of the parser, and what they are made of.

ghost use Rattle.std.specs.Prelude.{◌≡◌, ◌++◌, ◌∷◌, [], suc, length, Ok as OkOf};
ghost use Rattle.cc_tree.specs.Reading.{Gives, flat_of, ◌>>=◌ as bind, eat as eat_of, name as name_of};
ghost use Rattle.cc_tree.specs.declared.stop.Stop.TheVariants.{Wrong as WrongOf};
ghost use Rattle.cc_tree.specs.TurnLines.{scoped as scoped_of};
ghost use Rattle.cc_tree.specs.Turns.{went_of, on as on_of, opens as opens_of, made as made_of, tall as tall_of};

use crate::cursor::{after, name, owned};
use cc_lex::{Mark, Token};
use cc_num::{Boxed, List, Name};
use cc_tree::At;
use cc_tree::state::{Control, Frame, Node, Scoping, Tall, Turn};
use cc_tree::stop::{Reading, Stop};
use std::alloc::Global;

/// Goes on with this.
pub fn on<'t>(alloc: Global, control: Control, rest: &'t [Token]) -> Result<Turn<'t>, Stop>
    ensures { Gives went_of result (on_of control rest.now) }
{
    let control = Boxed::new(alloc, control)?;
    Ok(Turn {
        frame: None,
        control,
        rest,
        scoping: Scoping::Same,
    })
}

/// Two values, each in a box.
fn boxes<A: Drop, B: Drop>(alloc: Global, a: A, b: B) -> Result<(Boxed<A>, Boxed<B>), Stop>
    ensures { Gives (λ r. r) result (OkOf (a, b)) }
{
    let a = Boxed::new(alloc, a)?;
    let b = Boxed::new(alloc, b)?;
    Ok((a, b))
}

/// Goes on with this, for what waits.
pub fn opens<'t>(
    alloc: Global,
    frame: Frame,
    control: Control,
    rest: &'t [Token],
) -> Result<Turn<'t>, Stop>
    ensures { Gives went_of result (opens_of frame control rest.now) }
{
    let (frame, control) = boxes(alloc, frame, control)?;
    Ok(Turn {
        frame: Some(frame),
        control,
        rest,
        scoping: Scoping::Same,
    })
}

/// Goes on with other typedef names.
pub fn scoped<'t>(scoping: Scoping, turn: Turn<'t>) -> Turn<'t>
    ensures { OkOf (went_of result) ≡ scoped_of scoping (OkOf (went_of turn.entry)) }
{
    Turn {
        frame: turn.frame,
        control: turn.control,
        rest: turn.rest,
        scoping,
    }
}

/// A node with its height.
pub fn tall<T>(node: T, height: usize) -> Tall<T>
    ensures { result ≡ tall_of node height }
{
    Tall { node, height }
}

/// A node with its offset and its height.
pub fn made<T: Drop>(alloc: Global, at: u32, node: T, height: usize) -> Result<Node<T>, Stop>
    ensures { Gives (λ t. t) result (OkOf (made_of at node height)) }
{
    let node = Boxed::new(alloc, At { at, node })?;
    Ok(Tall { node, height })
}

/// The height above another.
pub fn above(height: usize) -> Result<usize, Stop>
    ensures { Gives (λ h. h) result (OkOf (suc height)) }
{
    match height.checked_add(1) {
        Some(more) => Ok(more),
        None => Err(Stop::NoMemory),
    }
}

/// A node over others of this height.
pub fn raised<T: Drop>(alloc: Global, at: u32, node: T, height: usize) -> Result<Node<T>, Stop>
    ensures { Gives (λ t. t) result (OkOf (made_of at node (suc height))) }
{
    let height = above(height)?;
    made(alloc, at, node, height)
}

/// An empty list.
pub fn empty<T>(alloc: Global) -> List<T>
    ensures { result ≡ [] }
{
    List::of(Vec::new(alloc))
}

/// A list with one element more.
pub fn with<T: Drop>(list: List<T>, more: T) -> Result<List<T>, Stop>
    ensures { Gives (λ l. l) result (OkOf (list ++ more ∷ [])) }
{
    let mut items = list.into_vec();
    items.push(more)?;
    Ok(List::of(items))
}

/// A list with one element more, beside something else.
pub fn grown<A: Drop, T: Drop>(beside: A, list: List<T>, more: T) -> Result<(A, List<T>), Stop>
    ensures { Gives (λ r. r) result (OkOf (beside, list ++ more ∷ [])) }
{
    let list = with(list, more)?;
    Ok((beside, list))
}

/// Refuses what was read.
pub fn refused<A: Drop>(read: A, tokens: &[Token]) -> Stop
    ensures { result ≡ WrongOf (length tokens.now) }
{
    let _read = read;
    Stop::Wrong(tokens.len())
}

/// What was read, in front of a mark that must stand first.
pub fn closed<'t, A: Drop>(read: A, mark: Mark, tokens: &'t [Token]) -> Reading<'t, A>
    ensures { Gives flat_of result (bind (eat_of mark tokens.now) (λ us. OkOf (read, us))) }
{
    match after(mark, tokens) {
        Some(rest) => Ok((read, rest)),
        None => Err(Stop::Wrong(tokens.len())),
    }
}

/// What was read, and a name that must stand first.
pub fn named<'t, A: Drop>(alloc: Global, read: A, tokens: &'t [Token]) -> Reading<'t, (A, Name)>
    ensures { Gives flat_of result (bind (name_of tokens.now) (λ x. OkOf ((read, x.0), x.1))) }
{
    let (name, rest) = name(tokens)?;
    Ok(((read, owned(alloc, name)?), rest))
}

/// What was read, and a copy of a name.
pub fn copied<A: Drop>(alloc: Global, read: A, name: &[u8]) -> Result<(A, Name), Stop>
    ensures { Gives (λ r. r) result (OkOf (read, name.now)) }
{
    let name = owned(alloc, name)?;
    Ok((read, name))
}

/// Lets a value go.
pub fn discard<T: Drop>(_value: T) {}
