//! Types, and names that have them.

use crate::builder::{Terms, boxed, last_few, put};
use crate::words::{int_type, name};
use cc_program::num::{Boxed, Name};
use cc_syntax::{CType, Shape, Sig};

/// A type without qualifiers.
pub fn plain(shape: Shape) -> CType {
    CType {
        constant: false,
        volatile: false,
        shape,
    }
}

/// A function's type, of the last types.
pub fn signature(types: &mut Vec<CType>, count: usize) -> Option<Sig> {
    let params = last_few(types, count)?;
    let result = types.pop()?;
    Some(Sig { result, params })
}

/// The last type, boxed.
pub fn boxed_type(terms: &mut Terms) -> Option<Boxed<CType>> {
    boxed(terms.alloc, &mut terms.types)
}

fn function(terms: &mut Terms, count: &str) -> Option<Shape> {
    let sig = signature(&mut terms.types, count.parse().ok()?)?;
    Some(Shape::Func(Boxed::new(terms.alloc, sig).ok()?))
}

fn array(terms: &mut Terms, count: &str) -> Option<Shape> {
    let count = count.parse().ok()?;
    Some(Shape::Array(boxed_type(terms)?, count))
}

fn shape_of(terms: &mut Terms, head: &str, rest: &str) -> Option<Shape> {
    match head {
        "void" => Some(Shape::Void),
        "ptr" => Some(Shape::Pointer(boxed_type(terms)?)),
        "array" => array(terms, rest),
        "struct" => Some(Shape::Struct(rest.parse().ok()?)),
        "fn" => function(terms, rest),
        _ => Some(Shape::Int(int_type(head)?)),
    }
}

fn type_of(terms: &mut Terms, head: &str, rest: &str) -> Option<CType> {
    Some(plain(shape_of(terms, head, rest)?))
}

fn named(terms: &mut Terms, text: &str) -> Option<(Name, CType)> {
    let name = name(terms.alloc, text)?;
    Some((name, terms.types.pop()?))
}

fn qualify(types: &mut Vec<CType>, is_const: bool) -> Option<()> {
    let last = types.last_mut()?;
    if is_const {
        last.constant = true;
    } else {
        last.volatile = true;
    }
    Some(())
}

/// Whether a word is one of types.
pub fn is_word(head: &str) -> bool {
    matches!(
        head,
        "void" | "ptr" | "array" | "struct" | "fn" | "const" | "volatile" | "name"
    ) || int_type(head).is_some()
}

/// Reads a word of types.
pub fn read(terms: &mut Terms, head: &str, rest: &str) -> Option<()> {
    match head {
        "const" => qualify(&mut terms.types, true),
        "volatile" => qualify(&mut terms.types, false),
        "name" => {
            let named = named(terms, rest);
            put(&mut terms.names, named)
        }
        _ => {
            let made = type_of(terms, head, rest);
            put(&mut terms.types, made)
        }
    }
}
