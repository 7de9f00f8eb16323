//! Specifiers: storage classes, qualifiers, the type that words name, and attributes (C99 6.7.1 to 6.7.3).

ghost use Rattle.std.specs.Prelude.{◌≡◌, IfOk};
ghost use Rattle.cc_operands.specs.Verdicts.{Judges};
ghost use Rattle.cc_specifiers.specs.Specifiers.{no_specifier as no_specifier_of, with_base as with_base_of, with_storage as with_storage_of, with_mark as with_mark_of, word_beside as word_beside_of, type_beside as type_beside_of, said as said_of, with_specifier as with_specifier_of, named_type as named_type_of, specified as specified_by};

use crate::attribute::{Attribute, are_meant};
use crate::basic::Basic;
use crate::derived::plain;
use crate::storage::{Setting, fits_storage};
use cc_operands::lex::Word;
use cc_operands::{Breach, Rule, qualified_by};
use cc_program::num::{List, NoMemory};
use cc_syntax::CType;
use cc_tree::At;
use std::alloc::Global;

/// A specifier.
#[derive(Drop)]
pub enum Specifier {
    Word(Word),
    /// The type that a name, a structure or an enumeration stands for.
    Type(CType),
    /// What an attribute says.
    Attributes(List<Attribute>),
}

/// What names the type.
#[derive(Drop)]
pub enum Base {
    /// Words of a basic type.
    Words(Basic),
    /// A type that stands for itself.
    Itself(CType),
    /// Both, or one twice.
    Clash,
}

/// What specifiers say.
#[derive(Drop)]
pub struct Specs {
    pub storage: Option<Word>,
    pub constant: bool,
    pub volatile: bool,
    pub base: Base,
    pub marks: List<At<List<Attribute>>>,
}

/// Nothing that specifiers say.
pub fn no_specifier(alloc: Global) -> Specs
    ensures { result ≡ no_specifier_of }
{
    Specs {
        storage: None,
        constant: false,
        volatile: false,
        base: Base::Words(Basic::none()),
        marks: List::of(Vec::new(alloc)),
    }
}

/// A word of a type beside what stands there.
fn word_beside(word: Word, base: Base) -> Base
    ensures { result ≡ word_beside_of word base }
{
    let Base::Words(b) = base else {
        return Base::Clash;
    };
    match b.with_word(word) {
        None => Base::Clash,
        Some(b) => Base::Words(b),
    }
}

/// A type beside what stands there.
fn type_beside(t: CType, base: Base) -> Base
    ensures { result ≡ type_beside_of t base }
{
    let Base::Words(b) = base else {
        return Base::Clash;
    };
    if b.is_none() {
        Base::Itself(t)
    } else {
        Base::Clash
    }
}

impl Specs {
    /// A storage class stands alone (C99 6.7.1, 2), and where it has a meaning.
    fn with_storage(self, setting: &Setting, word: Word) -> Result<Specs, Breach>
        ensures { Judges (λ s. s) result (with_storage_of setting.now word self) }
    {
        if !self.storage.is_some() && fits_storage(setting, word) {
            Ok(Specs {
                storage: Some(word),
                constant: self.constant,
                volatile: self.volatile,
                base: self.base,
                marks: self.marks,
            })
        } else {
            Err(Breach::Breaks(Rule::StorageClass))
        }
    }

    fn with_base(self, base: Base) -> Specs
        ensures { result ≡ with_base_of base self }
    {
        Specs {
            storage: self.storage,
            constant: self.constant,
            volatile: self.volatile,
            base,
            marks: self.marks,
        }
    }

    /// With a word more.
    fn with_word(self, setting: &Setting, word: Word) -> Result<Specs, Breach>
        ensures { Judges (λ s. s) result (said_of setting.now word self) }
    {
        match word {
            Word::Typedef | Word::Extern | Word::Static | Word::Auto | Word::Register => {
                self.with_storage(setting, word)
            }
            Word::Const => Ok(Specs {
                storage: self.storage,
                constant: true,
                volatile: self.volatile,
                base: self.base,
                marks: self.marks,
            }),
            Word::Volatile => Ok(Specs {
                storage: self.storage,
                constant: self.constant,
                volatile: true,
                base: self.base,
                marks: self.marks,
            }),
            Word::Restrict | Word::Inline | Word::Extension => Ok(self),
            _ => {
                let Specs {
                    storage,
                    constant,
                    volatile,
                    base,
                    marks,
                } = self;
                Ok(Specs {
                    storage,
                    constant,
                    volatile,
                    base: word_beside(word, base),
                    marks,
                })
            }
        }
    }

    /// With a type more.
    fn with_type(self, t: CType) -> Specs
        ensures { result ≡ with_base_of (type_beside_of t self.base) self }
    {
        let Specs {
            storage,
            constant,
            volatile,
            base,
            marks,
        } = self;
        Specs {
            storage,
            constant,
            volatile,
            base: type_beside(t, base),
            marks,
        }
    }

    /// With an attribute more, which stands at a place of the text.
    fn with_mark(self, at: u32, node: List<Attribute>) -> Result<Specs, NoMemory>
        ensures { IfOk result (λ s. s ≡ with_mark_of at node self) }
    {
        let mut marks = self.marks.into_vec();
        marks.push(At { at, node })?;
        Ok(Specs {
            storage: self.storage,
            constant: self.constant,
            volatile: self.volatile,
            base: self.base,
            marks: List::of(marks),
        })
    }

    /// With one specifier more, which is judged where it stands.
    pub fn with_specifier(
        self,
        setting: &Setting,
        at: u32,
        specifier: Specifier,
    ) -> Result<Specs, Breach>
        ensures { Judges (λ s. s) result (with_specifier_of setting.now at specifier self) }
    {
        match specifier {
            Specifier::Word(word) => self.with_word(setting, word),
            Specifier::Type(t) => Ok(self.with_type(t)),
            Specifier::Attributes(ms) => {
                if are_meant(setting.entities.all(), ms.all()) {
                    Ok(self.with_mark(at, ms)?)
                } else {
                    Err(Breach::Breaks(Rule::Attribute))
                }
            }
        }
    }

    /// The type that they name, qualified (C99 6.7.3).
    pub fn named_type(&self, alloc: Global) -> Result<CType, Breach>
        ensures { Judges (λ t. t) result (named_type_of self.now) }
    {
        match &self.base {
            Base::Words(b) => match b.shape() {
                None => Err(Breach::Breaks(Rule::NoType)),
                Some(shape) => {
                    let t = plain(shape);
                    Ok(qualified_by(alloc, self.constant, self.volatile, &t)?)
                }
            },
            Base::Itself(t) => Ok(qualified_by(alloc, self.constant, self.volatile, t)?),
            Base::Clash => Err(Breach::Breaks(Rule::NoType)),
        }
    }

    /// Specifiers with the type that they name.
    pub fn typed(self, alloc: Global) -> Result<Specified, Breach>
        ensures { Judges (λ s. s) result (specified_by self) }
    {
        let ctype = self.named_type(alloc)?;
        Ok(Specified { specs: self, ctype })
    }
}

/// Specifiers with their type.
#[derive(Drop)]
pub struct Specified {
    pub specs: Specs,
    pub ctype: CType,
}
