ghost use Rattle.std.specs.Prelude.{◌≡◌, ℕ, Bool, true, List, Some, slice_get};
ghost use Rattle.cc_plan_legal.specs.declared.kinds.Plan.{Plan};
ghost use Rattle.cc_plan_legal.specs.Legal.{IsLegal};
ghost use Rattle.cc_program.specs.declared.object.Object.{Object};
ghost use Rattle.cc_program.specs.declared.program.Program.{Program};
ghost use Rattle.cc_rewrite_codes.specs.Homes.{Code, InArray, InWord};
ghost use Rattle.cc_rewrite_codes.specs.Placed.{home_of};
ghost use Rattle.cc_rewrite_codes.specs.Programs.{coded_program, relaid_object};
ghost use Rattle.cc_rewrite_homes.specs.Homes.{Field};
ghost use Rattle.cc_rewrite_layouts.specs.Layouts.{AreLayouts, InField};
ghost use Rattle.cc_rewrite_placed_sound.specs.CodedObjects.{IsArrayOf, IsWord};
ghost use Rattle.cc_rewrite_placed_sound.specs.PlacedLayouts.{candidates_of, layout_of};
ghost use Rattle.cc_sets.specs.declared.vals.Vals.{Vals};
ghost use Rattle.cc_slots_types.specs.declared.slot.Slot.{Slot};
ghost use Rattle.cc_state_points.specs.CcStateFacts.declared.facts.Facts.{Facts};
ghost use Rattle.cc_state_points.specs.CcStateFacts.declared.facts.Key.TheVariants as key;

/// Where a plan that is legal for slots puts the static objects of a program. The call does nothing.
pub fn placed()
    // They do not meet, and each field fits its word.
    ensures layouts { (p : Program) (slots : List Slot) (plan : Plan) → IsLegal (candidates_of p slots) plan → AreLayouts (layout_of slots plan p) }

    // And one that is told to have its word alone has it alone.
    ensures alone { (p : Program) (slots : List Slot) (plan : Plan) → IsLegal (candidates_of p slots) plan →
        (i word bytes shift bits : ℕ) (code : Code) → home_of slots plan p (key.Object i) ≡ Some (InWord word bytes shift bits true code) →
        (j : ℕ) (f : Field) → layout_of slots plan p j ≡ InField f → (i ≡ j → ⊥) → word ≡ f.object → ⊥ }

    // In the coded program each keeps its number; its word is there; and so is the array of one whose elements are packed. That holds
    // of the old ones and of arrays whether the plan is legal or not.
    ensures kept { (p : Program) (slots : List Slot) (plan : Plan) (facts : Facts Vals) → (i : ℕ) (object : Object) → slice_get p.objects i ≡ Some object →
        slice_get (coded_program slots plan p facts).objects i ≡ Some (relaid_object slots plan p object) }
    ensures words { (p : Program) (slots : List Slot) (plan : Plan) (facts : Facts Vals) → IsLegal (candidates_of p slots) plan →
        (i word bytes shift bits : ℕ) (alone : Bool) (code : Code) → home_of slots plan p (key.Object i) ≡ Some (InWord word bytes shift bits alone code) →
        IsWord slots plan p (coded_program slots plan p facts) word bytes }
    ensures arrays { (p : Program) (slots : List Slot) (plan : Plan) (facts : Facts Vals) →
        (i object bits : ℕ) (code : Code) → home_of slots plan p (key.Object i) ≡ Some (InArray object bits code) →
        IsArrayOf slots plan p (coded_program slots plan p facts) i object bits }
{}
