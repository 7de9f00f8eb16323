//! Reading texts.

ghost use Rattle.std.specs.Prelude.{◌≡◌, ◌≢◌, ◌<◌, ◌^◌, length, sum, map, IfOk, IfErr, MatchResult};
ghost use Rattle.std.specs.List.{All, AllZip};
ghost use Rattle.cc_causes.specs.declared.fault.LinkFault.{LinkFault as LinkFaultOf};
ghost use Rattle.cc_link.specs.Linked.{Links, Breaks};
ghost use Rattle.cc_program.specs.declared.program.Program.{Program as ProgramOf};
ghost use Rattle.cc_read.specs.Refusals.{IsFirstRefused, IsRefused};
ghost use Rattle.cc_read.specs.Texts.{bytes_of, IsTypedText, IsLow, Reads};
ghost use Rattle.cc_read.specs.declared.refusal.ReadRefusal.TheVariants.{Link, NoMemory as NoRoom};
ghost use Rattle.cc_read.specs.declared.refusal.Refusal.{Refusal as RefusalOf};

use crate::refusal::{ReadRefusal, Refusal};
use crate::text::put_typed;
use cc_discard::discard_texts;
use cc_link::link;
use cc_program::num::Target;
use cc_program::{Program, Roles};
use cc_things::Text;
use std::alloc::Global;

/// What linking takes of each text, or the first that is refused by itself.
fn typed_texts(
    alloc: Global,
    texts: &[Vec<u8>],
    target: &Target,
    roles: &Roles,
) -> Result<Vec<Text>, Refusal>
    requires few { length texts.now < 2 ^ 32 }
    requires small { sum (map length (bytes_of texts.now)) < 2 ^ 32 }
    ensures typed { IfOk result (λ units. AllZip (IsTypedText target.now roles.now) (bytes_of texts.now) units.items) }
    ensures low { IfOk result (λ _. All IsLow (bytes_of texts.now)) }
    ensures refused { IfErr result (λ e. e.why ≢ NoRoom → IsFirstRefused target.now roles.now 0 (bytes_of texts.now) e) }
{
    let mut units = Vec::new(alloc);
    for (file, text) in texts.iter().enumerate() {
        match put_typed(alloc, text, target, roles, &mut units) {
            Ok(()) => {}
            Err(why) => {
                discard_texts(units);
                let file = file as u32;
                return Err(Refusal { file, why });
            }
        }
    }
    Ok(units)
}

/// The program that texts link to, or why they link to none.
#[tactic(auto, using(crate::proofs::Refused::by_link))]
fn linked(
    alloc: Global,
    units: &[Text],
    target: &Target,
    roles: &Roles,
) -> Result<Program, ReadRefusal>
    ensures linked { IfOk result (λ p. Links units.now target.now roles.now p) }
    ensures refused { IfErr result (λ e. e ≢ NoRoom → (f : LinkFaultOf) × Breaks units.now roles.now f × (e ≡ Link f)) }
{
    let roles = roles.copy(alloc)?;
    Ok(link(alloc, units, *target, roles)?)
}

/// The program that texts are, or the first cause why they are none.
fn answer(
    alloc: Global,
    texts: &[Vec<u8>],
    target: &Target,
    roles: &Roles,
) -> Result<Program, Refusal>
    requires few { length texts.now < 2 ^ 32 }
    requires small { sum (map length (bytes_of texts.now)) < 2 ^ 32 }
    ensures read { IfOk result (λ p. Reads (bytes_of texts.now) target.now roles.now p) }
    ensures low { IfOk result (λ _. All IsLow (bytes_of texts.now)) }
    ensures refused { IfErr result (λ e. e.why ≢ NoRoom → IsRefused target.now roles.now (bytes_of texts.now) e) }
{
    let units = typed_texts(alloc, texts, target, roles)?;
    let linked = linked(alloc, units.as_slice(), target, roles);
    discard_texts(units);
    match linked {
        Ok(p) => Ok(p),
        Err(why) => Err(Refusal { file: 0, why }),
    }
}

/// The program that texts of C are, with the target and the roles. There is at most one.
///
/// The texts are read one after the other, each by its tokens, its sentence and the type rules; then they are linked. A
/// refusal tells the first cause, and the number of its text, which is 0 where the texts do not link.
pub fn read(
    alloc: Global,
    texts: &[Vec<u8>],
    target: &Target,
    roles: &Roles,
) -> Result<Program, Refusal>
    requires few { length texts.now < 2 ^ 32 }
    requires small { sum (map length (bytes_of texts.now)) < 2 ^ 32 }

    // What is answered is the program, and where there is one and no sentence is too high, it is answered.
    ensures read { IfOk result (λ p. Reads (bytes_of texts.now) target.now roles.now p) }
    ensures low { IfOk result (λ _. All IsLow (bytes_of texts.now)) }
    ensures only { (p : ProgramOf) → Reads (bytes_of texts.now) target.now roles.now p → All IsLow (bytes_of texts.now) → MatchResult result (λ q. q ≡ p) (λ e. e.why ≡ NoRoom) }

    // A refusal has its cause, and where there is one, it is told.
    ensures refused { IfErr result (λ e. e.why ≢ NoRoom → IsRefused target.now roles.now (bytes_of texts.now) e) }
    ensures only_refused { (e : RefusalOf) → IsRefused target.now roles.now (bytes_of texts.now) e → MatchResult result (λ _. ⊥) (λ f. f.why ≢ NoRoom → f ≡ e) }
{
    answer(alloc, texts, target, roles)
}
