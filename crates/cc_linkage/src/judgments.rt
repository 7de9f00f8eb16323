//! Which names may be declared, and how.

ghost use Rattle.std.specs.Prelude.{◌≡◌};
ghost use Rattle.std.specs.Option.{option_copied};
ghost use Rattle.std.specs.Str.{bytes_eq};
ghost use Rattle.cc_linkage.specs.Linkage.{is_number as is_number_of, is_visible as is_visible_of, agrees as agrees_of, agrees_with as agrees_with_of, repeats as repeats_of, is_free_for as is_free_for_of, may_be_declared as may_be_declared_of, may_be_main as may_be_main_of};
ghost use Rattle.cc_scopes.specs.View.{state_of};
ghost use Rattle.cc_syntax.specs.Sound.{main_name};

use crate::linkage::DeclaredAs;
use crate::types::{is_main_shape, may_be};
use cc_program::num::at;
use cc_scopes::{Declared, Designated, Linkage, State};
use cc_syntax::CType;

fn is_number(id: u32, d: Option<&Designated>) -> bool
    ensures { result ≡ is_number_of id (option_copied d.entry) }
{
    match d {
        None => false,
        Some(Designated::Linked(other)) => id == *other,
        Some(_) => false,
    }
}

/// Whether the declaration with this number is visible here (C99 6.2.2, 4).
pub fn is_visible(state: &State, id: u32, name: &[u8]) -> bool
    ensures { result ≡ is_visible_of id name.now (state_of state.now) }
{
    is_number(id, state.designated(name))
}

/// Whether the linkage that is asked for is that of the name (C99 6.2.2, 4, 5 and 7).
fn agrees(asked: DeclaredAs, visible: bool, linkage: Linkage) -> bool
    ensures { result ≡ agrees_of asked visible linkage }
{
    match asked {
        DeclaredAs::AsStatic => matches!(linkage, Linkage::Internal),
        DeclaredAs::AsObject => matches!(linkage, Linkage::External),
        DeclaredAs::AsExtern => match linkage {
            Linkage::External => true,
            Linkage::Internal => visible,
            Linkage::Local => false,
        },
    }
}

fn agrees_with(asked: DeclaredAs, visible: bool, t: &CType, d: Option<&Declared>) -> bool
    ensures { result ≡ agrees_with_of asked visible t.now (option_copied d.entry) }
{
    match d {
        None => false,
        Some(d) => agrees(asked, visible, d.linkage) && may_be(t, &d.ctype),
    }
}

/// Whether a declaration agrees with what is known of its name.
fn repeats(state: &State, asked: DeclaredAs, name: &[u8], t: &CType, known: Option<u32>) -> bool
    ensures { result ≡ repeats_of asked name.now t.now (state_of state.now) known }
{
    match known {
        None => true,
        Some(id) => {
            let visible = is_visible(state, id, name);
            agrees_with(asked, visible, t, at(state.names(), id as usize))
        }
    }
}

/// Whether a name designates nothing else in its scope.
fn is_free_for(known: Option<u32>, here: Option<&Designated>) -> bool
    ensures { result ≡ is_free_for_of known (option_copied here.entry) }
{
    match here {
        None => true,
        Some(_) => match known {
            None => false,
            Some(id) => is_number(id, here),
        },
    }
}

/// Whether a name may be declared so, with linkage (C99 6.2.2, 6.2.7, 6.7, 3).
pub fn may_be_declared(state: &State, asked: DeclaredAs, name: &[u8], t: &CType) -> bool
    ensures { result ≡ may_be_declared_of asked name.now t.now (state_of state.now) }
{
    let known = state.linked_name(name);
    is_free_for(known, state.named_here(name)) && repeats(state, asked, name, t, known)
}

fn is_main_name(name: &[u8]) -> bool
    ensures { result ≡ bytes_eq name.now main_name }
{
    name == "main".as_bytes()
}

/// Whether a name may have this type: `main` has that of `int main(void)` or `void main(void)` (C99 5.1.2.2.1).
pub fn may_be_main(name: &[u8], t: &CType) -> bool
    ensures { result ≡ may_be_main_of name.now t.now }
{
    !is_main_name(name) || is_main_shape(t)
}
