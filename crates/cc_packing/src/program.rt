//! The texts of one program.

ghost use Rattle.std.specs.Prelude.{◌≡◌, ◌≢◌, ◌<◌, true, length, IfOk, IfErr};
ghost use Rattle.cc_accessed_operands.specs.Accessed.{AreDevicesAccessed};
ghost use Rattle.cc_lower_sound.specs.Folded.{has_folded_expressions};
ghost use Rattle.cc_material.specs.Material.{TellsFile};
ghost use Rattle.cc_material.specs.Programs.{IsWithin};
ghost use Rattle.cc_packing.specs.Ends.{ProgramEnds, is_pack_refusal};
ghost use Rattle.cc_packing.specs.Headline.{IsPackable, IsPackedText};
ghost use Rattle.cc_packing.specs.Written.{AreTextsOf};
ghost use Rattle.cc_print.specs.Printed.{text};
ghost use Rattle.cc_status.specs.declared.status.Status.TheVariants as status;
ghost use Rattle.cc_status.specs.declared.status.What.TheVariants as what;
ghost use Rattle.cc_states.specs.CcSyntax.Normal.{IsNormal};
ghost use Rattle.cc_states.specs.CcSyntax.Sound.{IsSound};

use crate::outputs::Texts;
use cc_discard::discard_program;
use cc_layout::ram;
use cc_lower::{laws as lowering_laws, lower};
use cc_material::above;
use cc_print::print;
use cc_printed_programs::programs_read;
use cc_program::Program;
use cc_status::{Status, What};
use cc_table::table;
use std::alloc::Global;

/// The most bytes of a printed text.
const OUT_LIMIT: u64 = 16 << 20;

/// The texts that are written of a program in normal form; so many bytes of RAM were taken before.
#[tactic(auto, using(crate::proofs::ProgramTexts::of_programs))]
fn texts_within(alloc: Global, before: u64, q: &Program) -> Result<Texts, Status>
    requires { IsNormal q.now }
    ensures written { IfOk result (λ t. AreTextsOf before q.now t.out.items t.table.items) }
    ensures ends { IfErr result (λ s. s ≢ status.NoMemory → (s ≡ status.Limit what.Out (length (text q.now))) × (16777216 < length (text q.now))) }
    ensures refusal { IfErr result (λ s. is_pack_refusal s ≡ true) }
    ensures no_file { IfErr result (λ s. TellsFile (λ _. ⊥) (λ _. ⊥) s) }
{
    programs_read();
    let out = print(alloc, q)?;
    let length = out.len() as u64;
    if length > OUT_LIMIT {
        return Err(Status::Limit(What::Out, length));
    }
    let table = table(alloc, before, ram(q))?;
    Ok(Texts { out, table })
}

/// The texts that are written of a program within the limits, or why none are.
#[tactic(auto, using(crate::proofs::ProgramTexts::of_programs))]
fn texts_of_lowered(alloc: Global, p: Program) -> Result<Texts, Status>
    requires sound { IsSound p }
    requires folded { has_folded_expressions p ≡ true }
    requires accessed { AreDevicesAccessed p }
    requires within { IsWithin p }
    ensures packable { IfOk result (λ _. IsPackable p) }
    ensures packed { IfOk result (λ t. IsPackedText p.target p.roles p t.out.items t.table.items) }
    ensures ends { IfErr result (λ s. s ≢ status.NoMemory → ProgramEnds p s) }
    ensures refusal { IfErr result (λ s. is_pack_refusal s ≡ true) }
    ensures no_file { IfErr result (λ s. TellsFile (λ _. ⊥) (λ _. ⊥) s) }
{
    lowering_laws();
    let before = ram(&p);
    let q = lower(alloc, p)?;
    let texts = texts_within(alloc, before, &q);
    discard_program(q);
    texts
}

/// The texts that are written of a program, or why none are. It is as reading leaves programs: sound, with folded expressions,
/// which access each device without a name.
#[tactic(auto, using(crate::proofs::ProgramTexts::of_programs))]
pub fn texts_of(alloc: Global, p: Program) -> Result<Texts, Status>
    requires sound { IsSound p }
    requires folded { has_folded_expressions p ≡ true }
    requires accessed { AreDevicesAccessed p }
    ensures packable { IfOk result (λ _. IsPackable p) }
    ensures packed { IfOk result (λ t. IsPackedText p.target p.roles p t.out.items t.table.items) }
    ensures ends { IfErr result (λ s. s ≢ status.NoMemory → ProgramEnds p s) }
    ensures refusal { IfErr result (λ s. is_pack_refusal s ≡ true) }
    ensures no_file { IfErr result (λ s. TellsFile (λ _. ⊥) (λ _. ⊥) s) }
{
    match above(&p) {
        Some((what, number)) => {
            discard_program(p);
            Err(Status::Limit(what, number))
        }
        None => texts_of_lowered(alloc, p),
    }
}
