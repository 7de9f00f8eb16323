//! What linking takes of a text.

ghost use Rattle.std.specs.Prelude.{◌≡◌, ◌≢◌, ◌<◌, ◌^◌, ◌++◌, ℕ, List as ListOf, length, IfOk, IfErr, OnOk};
ghost use Rattle.std.specs.Prelude.{option_to_list};
ghost use Rattle.cc_type.specs.CcLex.Tokens.{Tokens};
ghost use Rattle.cc_read.specs.Refusals.{HasCause};
ghost use Rattle.cc_read.specs.Texts.{identifier_in, identifiers_of, IsTypedText, IsTypedNext, IsLow, IsTypedSentence};
ghost use Rattle.cc_read.specs.declared.refusal.ReadRefusal.TheVariants.{NoMemory as NoRoom};

use crate::refusal::ReadRefusal;
use cc_discard::put_text;
use cc_gram::{discard_unit, parse};
use cc_program::num::{List, Name, NoMemory, Target};
use cc_program::{Roles, copy_list};
use cc_things::Text;
use cc_type::elaborate;
use cc_type::lex::{Kind, Token, lex};
use cc_type::unit::TypedUnit;
use std::alloc::Global;

/// Puts the identifier that a token is behind others.
fn put_identifier(alloc: Global, kind: &Kind, names: &mut Vec<Name>) -> Result<(), NoMemory>
    ensures { OnOk result (names.new.items ≡ names.old.items ++ option_to_list (identifier_in kind.now)) }
{
    match kind {
        Kind::Ident(name) => {
            names.push(copy_list(alloc, name)?)?;
            Ok(())
        }
        _ => Ok(()),
    }
}

/// The identifiers among tokens, in order.
fn identifiers(alloc: Global, tokens: &[Token]) -> Result<List<Name>, NoMemory>
    ensures { IfOk result (λ names. names ≡ identifiers_of tokens.now) }
{
    let mut names = Vec::new(alloc);
    for token in tokens {
        put_identifier(alloc, &token.kind, &mut names)?;
    }
    Ok(List::of(names))
}

/// The typed unit of tokens.
#[tactic(auto, using(crate::proofs::Causes::of_texts))]
fn typed_unit(
    alloc: Global,
    tokens: &[Token],
    target: &Target,
    roles: &Roles,
) -> Result<TypedUnit, ReadRefusal>
    ensures typed { IfOk result (λ t. IsTypedSentence target.now roles.now tokens.now t) }
    ensures refused { IfErr result (λ e. e ≢ NoRoom → (text : ListOf ℕ) → Tokens text tokens.now → HasCause target.now roles.now text e) }
{
    let tree = parse(alloc, tokens)?;
    let typed = elaborate(alloc, &tree, target, roles);
    discard_unit(tree);
    Ok(typed?)
}

/// What linking takes of a text, or why it has no typed unit.
#[tactic(auto, using(crate::proofs::Causes::of_texts))]
fn typed_text(
    alloc: Global,
    text: &[u8],
    target: &Target,
    roles: &Roles,
) -> Result<Text, ReadRefusal>
    requires { length text.now < 2 ^ 32 }
    ensures typed { IfOk result (λ t. IsTypedText target.now roles.now text.now t) }
    ensures low { IfOk result (λ _. IsLow text.now) }
    ensures refused { IfErr result (λ e. e ≢ NoRoom → HasCause target.now roles.now text.now e) }
{
    let tokens = lex(alloc, text)?;
    let identifiers = identifiers(alloc, &tokens)?;
    let unit = typed_unit(alloc, &tokens, target, roles)?;
    Ok(Text { unit, identifiers })
}

/// Puts what linking takes of a text behind what it takes of others, or tells why the text has no typed unit.
pub fn put_typed(
    alloc: Global,
    text: &[u8],
    target: &Target,
    roles: &Roles,
    texts: &mut Vec<Text>,
) -> Result<(), ReadRefusal>
    requires { length text.now < 2 ^ 32 }
    ensures typed { OnOk result (IsTypedNext target.now roles.now text.now texts.old.items texts.new.items) }
    ensures low { OnOk result (IsLow text.now) }
    ensures refused { IfErr result (λ e. e ≢ NoRoom → HasCause target.now roles.now text.now e) }
{
    let typed = typed_text(alloc, text, target, roles)?;
    put_text(texts, typed)?;
    Ok(())
}
