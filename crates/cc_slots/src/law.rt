ghost use Rattle.cc_plan_legal.specs.Candidates.{candidate_of};
ghost use Rattle.cc_plan_legal.specs.Short.{IsShort};
ghost use Rattle.cc_program.specs.declared.program.Program.{Program};
ghost use Rattle.cc_slots_accesses.specs.Arrays.{is_array};
ghost use Rattle.cc_slots.specs.Reasons.{IsWide};
ghost use Rattle.cc_slots_types.specs.declared.slot.Slot.{Slot};

/// What a slot without a reason may be taken for. The call does nothing.
pub fn laws()
    // Where its values do not keep it from being coded, its code is shorter than its scalar; as a field it has some bits, and as an
    // array it takes fewer bytes.
    ensures short { (p : Program) (slot : Slot) → (IsWide p slot.key slot.values slot.count slot.bytes slot.bits → ⊥) → IsShort (candidate_of slot (is_array p slot.key)) }
{}
