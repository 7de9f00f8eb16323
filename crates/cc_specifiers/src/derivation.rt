//! Declarators: a name, and what is derived for it (C99 6.7.5).

ghost use Rattle.std.specs.Prelude.{◌≡◌, IfOk};
ghost use Rattle.std.specs.List.{list_any};
ghost use Rattle.std.specs.Option.{option_copied};
ghost use Rattle.cc_specifiers.specs.Derivations.{with_derivation as with_derivation_of, is_next_to_name as is_next_to_name_of, nothing_more as nothing_more_of, in_parameter as in_parameter_of, in_type_name as in_type_name_of, in_definition as in_definition_of, suffix_breach as suffix_breach_of, suffix_judged as suffix_judged_of, suffix_found as suffix_found_of, says_const as says_const_of, says_volatile as says_volatile_of, pointer_derivation as pointer_derivation_of};
ghost use Rattle.cc_specifiers.specs.Places.{JudgesAt, checked};

use crate::fault::BreachAt;
use cc_operands::Rule;
use cc_operands::lex::Word;
use cc_program::num::{List, Name, NoMemory};
use cc_syntax::CType;
use cc_tree::At;
use std::alloc::Global;

/// A parameter, whose type is adjusted (C99 6.7.5.3, 7 and 8).
#[derive(Drop)]
pub struct Parameter {
    pub name: Option<Name>,
    pub ctype: CType,
    /// Where its declarator begins: a byte of the text.
    pub at: u32,
}

/// What a part of a declarator derives. `S` is kept of the scope of a function's parameters.
#[derive(Drop)]
pub enum Derivation<S> {
    /// To a pointer, which is const, and volatile.
    Pointer(bool, bool),
    /// To an array with its bound, where it has one.
    Array(Option<u32>),
    /// To a function.
    Function(List<Parameter>, S),
}

/// The name that a declarator declares, and its derivations, that next to the name first.
#[derive(Drop)]
pub struct Declarator<S> {
    pub name: Option<Name>,
    pub derivations: List<At<Derivation<S>>>,
}

/// What a declarator may be, by where it stands.
#[derive(Clone, Copy)]
pub struct Allowed {
    /// An array next to the name without a bound.
    pub unbounded: bool,
    /// A pointer to void next to the name.
    pub void: bool,
    /// A function next to the name whose parameters have no names.
    pub unnamed: bool,
}

impl Allowed {
    /// Where no exception is made.
    pub fn nothing_more() -> Allowed
        ensures { result ≡ nothing_more_of }
    {
        Allowed {
            unbounded: false,
            void: false,
            unnamed: true,
        }
    }

    /// In a parameter.
    pub fn in_parameter() -> Allowed
        ensures { result ≡ in_parameter_of }
    {
        Allowed {
            unbounded: true,
            void: false,
            unnamed: true,
        }
    }

    /// In a type name, which may be that of a cast.
    pub fn in_type_name(cast: bool) -> Allowed
        ensures { result ≡ in_type_name_of cast }
    {
        Allowed {
            unbounded: false,
            void: cast,
            unnamed: true,
        }
    }

    /// In a function definition (C99 6.9.1, 5).
    pub fn in_definition() -> Allowed
        ensures { result ≡ in_definition_of }
    {
        Allowed {
            unbounded: false,
            void: false,
            unnamed: false,
        }
    }
}

impl<S: Drop> Declarator<S> {
    /// With one derivation more, behind the others.
    pub fn with_derivation(self, at: u32, node: Derivation<S>) -> Result<Declarator<S>, NoMemory>
        ensures { IfOk result (λ d. d ≡ with_derivation_of at node self) }
    {
        let mut derivations = self.derivations.into_vec();
        derivations.push(At { at, node })?;
        Ok(Declarator {
            name: self.name,
            derivations: List::of(derivations),
        })
    }
}

/// What it breaks that a function, or an array where the flag is not set, stands behind a derivation.
fn suffix_breach<S>(function: bool, d: &Derivation<S>) -> Option<Rule>
    ensures { result ≡ suffix_breach_of function d.now }
{
    match d {
        Derivation::Pointer(_, _) => None,
        Derivation::Array(_) => {
            if function {
                Some(Rule::NoObjectType)
            } else {
                None
            }
        }
        Derivation::Function(_, _) => Some(Rule::FunctionResult),
    }
}

fn suffix_judged<S>(function: bool, d: Option<&At<Derivation<S>>>) -> Result<(), BreachAt>
    ensures { JudgesAt (λ done. checked) result (suffix_judged_of function (option_copied d.entry)) }
{
    let Some(d) = d else {
        return Ok(());
    };
    match suffix_breach(function, &d.node) {
        None => Ok(()),
        Some(broken) => Err(BreachAt::Breaks(d.at, broken)),
    }
}

/// Whether a function, or an array where the flag is not set, may stand behind the derivations (C99 6.7.5.2, 1;
/// 6.7.5.3, 1).
pub fn suffix_found<S>(function: bool, ds: &[At<Derivation<S>>]) -> Result<(), BreachAt>
    ensures { JudgesAt (λ done. checked) result (suffix_found_of function ds.now) }
{
    suffix_judged(function, ds.last())
}

fn says_const(word: Word) -> bool
    ensures { result ≡ says_const_of word }
{
    matches!(word, Word::Const)
}

fn says_volatile(word: Word) -> bool
    ensures { result ≡ says_volatile_of word }
{
    matches!(word, Word::Volatile)
}

fn say_const(words: &[Word]) -> bool
    ensures { result ≡ list_any says_const_of words.now }
{
    words.iter().any(|word| says_const(*word))
}

fn say_volatile(words: &[Word]) -> bool
    ensures { result ≡ list_any says_volatile_of words.now }
{
    words.iter().any(|word| says_volatile(*word))
}

/// A pointer with its qualifiers (C99 6.7.5.1).
pub fn pointer_derivation<S>(words: &[Word]) -> Derivation<S>
    ensures { result ≡ pointer_derivation_of words.now }
{
    Derivation::Pointer(say_const(words), say_volatile(words))
}
