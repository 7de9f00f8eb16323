//! A name with linkage is declared: it is known already, or new.

ghost use Rattle.std.specs.Prelude.{◌≡◌, IfOk};
ghost use Rattle.cc_linkage.specs.Linkage.{linkage_of as linkage_of_asked, new_declared as new_declared_of, declared, declared_as};
ghost use Rattle.cc_scopes.specs.View.{state_of};

use cc_program::copy_list;
use cc_program::num::{Name, NoMemory};
use cc_scopes::{Declared, Designated, Linkage, State, UnitKind};
use cc_syntax::CType;
use std::alloc::Global;

/// The linkage that a declaration asks for.
#[derive(Clone, Copy)]
pub enum DeclaredAs {
    /// By `static`.
    AsStatic,
    /// Of an object, by no storage class.
    AsObject,
    /// By `extern`, or of a function by no storage class.
    AsExtern,
}

fn linkage_of(asked: DeclaredAs) -> Linkage
    ensures { result ≡ linkage_of_asked asked }
{
    match asked {
        DeclaredAs::AsStatic => Linkage::Internal,
        DeclaredAs::AsObject => Linkage::External,
        DeclaredAs::AsExtern => Linkage::External,
    }
}

/// What is known of a name that has just been declared.
fn new_declared(
    alloc: Global,
    name: &Name,
    asked: DeclaredAs,
    ctype: CType,
    kind: UnitKind,
) -> Result<Declared, NoMemory>
    ensures { IfOk result (λ d. d ≡ new_declared_of name.now asked ctype kind) }
{
    Ok(Declared {
        name: Some(copy_list(alloc, name)?),
        linkage: linkage_of(asked),
        ctype,
        first: None,
        tentative: false,
        definitions: 0,
        kind,
    })
}

/// A name designates what has this number.
fn declare_as(state: &mut State, alloc: Global, name: &Name, id: u32) -> Result<u32, NoMemory>
    ensures { IfOk result (λ i. (i, state_of state.new) ≡ declared_as name.now id (state_of state.old)) }
{
    state.bind(alloc, name.all(), Designated::Linked(id))?;
    Ok(id)
}

/// A name with linkage is declared here, and in scope from now on; with its number.
pub fn declare_linked(
    state: &mut State,
    alloc: Global,
    name: &Name,
    asked: DeclaredAs,
    ctype: CType,
    kind: UnitKind,
) -> Result<u32, NoMemory>
    ensures { IfOk result (λ i. (i, state_of state.new) ≡ declared name.now asked ctype kind (state_of state.old)) }
{
    match state.linked_name(name.all()) {
        Some(id) => declare_as(state, alloc, name, id),
        None => {
            let d = new_declared(alloc, name, asked, ctype, kind)?;
            let id = state.declare(alloc, d)?;
            declare_as(state, alloc, name, id)
        }
    }
}
