//! What lowering keeps, and what it gives.

ghost use Rattle.std.specs.Prelude.{◌≡◌, true};
ghost use Rattle.cc_accessed_operands.specs.Accessed.{AreDevicesAccessed};
ghost use Rattle.cc_layout.specs.Seats.{ram};
ghost use Rattle.cc_lower.specs.Lowered.{HasIds, lowered};
ghost use Rattle.cc_lower_sound.specs.Folded.{has_folded_expressions};
ghost use Rattle.cc_program.specs.declared.program.Program.{Program};
ghost use Rattle.cc_states.specs.CcSteps.Runs.{Follows, Answers};
ghost use Rattle.cc_states.specs.CcSyntax.Normal.{IsNormal};
ghost use Rattle.cc_states.specs.CcSyntax.Sound.{IsSound};

use cc_lower_bodies_follows::expression_laws;
use cc_lower_continues_follows::lowering_laws;
use cc_lower_normal::lowered_laws;
use cc_lower_numbered_follows::{lowered_temporary_laws, numbered_program_laws};
use cc_lower_sound::lowered_statement_laws;

/// That the lowered program of a sound one does what its source does: each of its runs, under any list of interrupt arrivals,
/// has the trace and the end of a run of the source, and each run of the source whose handlers enter at boundaries is matched by
/// one of its runs. Its target, roles, objects and RAM are the source's. The call does nothing.
pub fn laws()
    ensures follows { (p : Program) → IsSound p → HasIds p → Follows (lowered p) p }
    ensures answers { (p : Program) → IsSound p → HasIds p → Answers (lowered p) p }
    ensures sound { (p : Program) → IsSound p → HasIds p → IsSound (lowered p) }

    // It is in normal form where the expressions of its source are folded and access each device without a name, as reading a
    // program leaves them.
    ensures normal { (p : Program) → IsSound p → has_folded_expressions p ≡ true → AreDevicesAccessed p → HasIds p → IsNormal (lowered p) }
    ensures target { (p : Program) → (lowered p).target ≡ p.target }
    ensures roles { (p : Program) → (lowered p).roles ≡ p.roles }
    ensures objects { (p : Program) → (lowered p).objects ≡ p.objects }
    ensures ram { (p : Program) → ram (lowered p) ≡ ram p }
{
    lowering_laws();
    lowered_statement_laws();
    expression_laws();
    lowered_temporary_laws();
    lowered_laws();
    numbered_program_laws();
}
