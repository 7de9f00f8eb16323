//! What declarators declare, by where they stand and by their storage class (C99 6.2.2, 6.2.4, 6.7.1).

ghost use Rattle.std.specs.Prelude.{◌≡◌};
ghost use Rattle.cc_objects.specs.Categories.{function_category as function_category_of, file_category as file_category_of, block_category as block_category_of, object_category as object_category_of, category_by as category_by_of, category_of as category_of_declr, entity_of};

use cc_linkage::DeclaredAs;
use cc_tree::Declr;
use cc_typed_terms::lex::Word;
use cc_typed_terms::specifiers_crate::{Entity, Where, declares_function};

/// What a declarator declares.
#[derive(Clone, Copy)]
pub enum Category {
    /// A name of a type (C99 6.7.7).
    Typedef,
    Function(DeclaredAs),
    /// An object with linkage.
    Linked(DeclaredAs),
    /// A static object of a block.
    StaticLocal,
    Automatic,
}

fn function_category(storage: Option<Word>) -> Category
    ensures { result ≡ function_category_of storage }
{
    let Some(word) = storage else {
        return Category::Function(DeclaredAs::AsExtern);
    };
    match word {
        Word::Typedef => Category::Typedef,
        Word::Static => Category::Function(DeclaredAs::AsStatic),
        _ => Category::Function(DeclaredAs::AsExtern),
    }
}

fn file_category(storage: Option<Word>) -> Category
    ensures { result ≡ file_category_of storage }
{
    let Some(word) = storage else {
        return Category::Linked(DeclaredAs::AsObject);
    };
    match word {
        Word::Typedef => Category::Typedef,
        Word::Static => Category::Linked(DeclaredAs::AsStatic),
        Word::Extern => Category::Linked(DeclaredAs::AsExtern),
        _ => Category::Linked(DeclaredAs::AsObject),
    }
}

fn block_category(storage: Option<Word>) -> Category
    ensures { result ≡ block_category_of storage }
{
    let Some(word) = storage else {
        return Category::Automatic;
    };
    match word {
        Word::Typedef => Category::Typedef,
        Word::Static => Category::StaticLocal,
        Word::Extern => Category::Linked(DeclaredAs::AsExtern),
        _ => Category::Automatic,
    }
}

fn object_category(place: Where, storage: Option<Word>) -> Category
    ensures { result ≡ object_category_of place storage }
{
    match place {
        Where::AtFile => file_category(storage),
        _ => block_category(storage),
    }
}

fn category_by(place: Where, storage: Option<Word>, function: bool) -> Category
    ensures { result ≡ category_by_of place storage function }
{
    if function {
        function_category(storage)
    } else {
        object_category(place, storage)
    }
}

/// What a declarator declares. The flag says that the specifiers name a function's type.
pub fn category_of(place: Where, storage: Option<Word>, function: bool, d: &Declr) -> Category
    ensures { result ≡ category_of_declr place storage function d.now }
{
    category_by(place, storage, declares_function(function, d))
}

impl Category {
    /// What attributes are said of.
    pub fn entity(self) -> Entity
        ensures { result ≡ entity_of self }
    {
        match self {
            Category::Typedef => Entity::Typedef,
            Category::Function(_) => Entity::Function,
            Category::Linked(_) => Entity::Static,
            Category::StaticLocal => Entity::Static,
            Category::Automatic => Entity::Local,
        }
    }
}
