//! Where a storage class has a meaning (C99 6.7.1, 6.8.5, 6.9).

ghost use Rattle.std.specs.Prelude.{◌≡◌, IfOk};
ghost use Rattle.std.specs.List.{list_any};
ghost use Rattle.cc_specifiers.specs.Attributes.{is_function};
ghost use Rattle.cc_specifiers.specs.Storage.{fits_file as fits_file_of, fits_block as fits_block_of, fits_for as fits_for_of, fits_definition as fits_definition_of, fits_parameter as fits_parameter_of, storage_fits as storage_fits_of, setting as setting_of, fits_storage as fits_storage_of};

use crate::attribute::Entity;
use cc_operands::lex::Word;
use cc_program::num::{List, NoMemory};
use std::alloc::Global;

/// Where specifiers stand.
#[derive(Clone, Copy)]
pub enum Where {
    AtFile,
    InBlock,
    InFor,
    OfDefinition,
    AsParameter,
    AsMember,
    InTypeName,
}

/// What specifiers are judged by.
#[derive(Drop)]
pub struct Setting {
    pub place: Where,
    /// What is declared with them.
    pub entities: List<Entity>,
    /// Whether something is initialised.
    pub given: bool,
}

fn fits_file(given: bool, word: Word) -> bool
    ensures { result ≡ fits_file_of given word }
{
    match word {
        Word::Typedef => !given,
        Word::Extern => true,
        Word::Static => true,
        _ => false,
    }
}

fn fits_block(function: bool, given: bool, word: Word) -> bool
    ensures { result ≡ fits_block_of function given word }
{
    match word {
        Word::Typedef => !given,
        Word::Extern => !given,
        Word::Static => !function,
        Word::Auto => !function,
        Word::Register => !function,
        _ => false,
    }
}

fn fits_for(function: bool, word: Word) -> bool
    ensures { result ≡ fits_for_of function word }
{
    match word {
        Word::Auto => !function,
        Word::Register => !function,
        _ => false,
    }
}

fn fits_definition(word: Word) -> bool
    ensures { result ≡ fits_definition_of word }
{
    matches!(word, Word::Extern | Word::Static)
}

fn fits_parameter(word: Word) -> bool
    ensures { result ≡ fits_parameter_of word }
{
    matches!(word, Word::Register)
}

fn storage_fits(place: Where, function: bool, given: bool, word: Word) -> bool
    ensures { result ≡ storage_fits_of place function given word }
{
    match place {
        Where::AtFile => fits_file(given, word),
        Where::InBlock => fits_block(function, given, word),
        Where::InFor => fits_for(function, word),
        Where::OfDefinition => fits_definition(word),
        Where::AsParameter => fits_parameter(word),
        Where::AsMember => false,
        Where::InTypeName => false,
    }
}

fn is_function_among(entities: &[Entity]) -> bool
    ensures { result ≡ list_any is_function entities.now }
{
    entities.iter().any(|e| e.is_function())
}

/// Whether a storage class has a meaning there.
pub fn fits_storage(setting: &Setting, word: Word) -> bool
    ensures { result ≡ fits_storage_of setting.now word }
{
    let function = is_function_among(setting.entities.all());
    storage_fits(setting.place, function, setting.given, word)
}

impl Setting {
    /// That of one thing which is declared, and not initialised.
    pub fn of(alloc: Global, place: Where, entity: Entity) -> Result<Setting, NoMemory>
        ensures { IfOk result (λ s. s ≡ setting_of place entity) }
    {
        let mut entities = Vec::new(alloc);
        entities.push(entity)?;
        Ok(Setting {
            place,
            entities: List::of(entities),
            given: false,
        })
    }
}
