//! What holds of the printed text of the items of a unit.

ghost use Rattle.std.specs.Prelude.{◌≡◌, ℕ, List, Some, true, slice_get};
ghost use Rattle.cc_bodies.specs.Stmts.{intrinsic_name};
ghost use Rattle.cc_unit_trees.specs.ReadFunctions.{ReadsItem};
ghost use Rattle.cc_unit_trees.specs.Items.{ShowsIntrinsic, ShowsTag, ShowsStructure, ShowsDevice, ShowsPrototype, ShowsObject, ShowsDefinition};
ghost use Rattle.cc_pieces.specs.Pieces.{Pieces};
ghost use Rattle.cc_expression_trees.specs.Parts.{Fits};
ghost use Rattle.cc_print.specs.Units.{intrinsic_line, tag_line, structure, device_named, prototype, object_line};
ghost use Rattle.cc_print.specs.Values.{definition_line};
ghost use Rattle.cc_program.specs.declared.expr.Intr.{Intr};
ghost use Rattle.cc_program.specs.declared.func.Func.{Func};
ghost use Rattle.cc_program.specs.declared.object.Device.{Device};
ghost use Rattle.cc_program.specs.declared.object.Object.{Object};
ghost use Rattle.cc_program.specs.declared.program.Program.{Program};
ghost use Rattle.cc_program.specs.declared.types.Structure.{Structure};
ghost use Rattle.cc_typed.specs.CcSyntax.Sound.{is_object, IsFunc, IsSound};
ghost use Rattle.cc_unit_trees.specs.ValueNames.{HasUnitNames};
ghost use Rattle.cc_program.specs.CcWords.Names.{is_name};

/// What holds of the text of the items of a unit, wherever they stand. The call does nothing.
pub fn items_read_back()
    // The tokens of each have an item that shows what it is the text of.
    ensures intrinsics { (p : Program) (i : Intr) (at : ℕ) (ps : Pieces) → ReadsItem (ShowsIntrinsic p i) at (intrinsic_line p i ps) ps }
    ensures tags { (s : Structure) (at : ℕ) (ps : Pieces) → ReadsItem (ShowsTag s) at (tag_line s ps) ps }
    ensures structures { (p : Program) → IsSound p → (i : ℕ) (s : Structure) → slice_get p.structures i ≡ Some s → (at : ℕ) (ps : Pieces) → ReadsItem (ShowsStructure p s) at (structure p.structures s ps) ps }
    ensures devices { (p : Program) (d : Device) (x : List ℕ) → d.name ≡ Some x → (at : ℕ) (ps : Pieces) → ReadsItem (ShowsDevice p d) at (device_named d (Some x) ps) ps }
    ensures prototypes { (p : Program) (f : Func) → IsFunc p f → (at : ℕ) (ps : Pieces) → ReadsItem (ShowsPrototype p f) at (prototype p.structures f ps) ps }
    ensures objects { (p : Program) (o : Object) → is_object p o ≡ true → (at : ℕ) (ps : Pieces) → ReadsItem (ShowsObject p o) at (object_line p.structures o ps) ps }
    ensures definitions { (p : Program) → IsSound p → (i : ℕ) (o : Object) → slice_get p.objects i ≡ Some o → (at : ℕ) (ps : Pieces) → ReadsItem (ShowsDefinition p o) at (definition_line p o ps) ps }

    // Their pieces part from one another, where names are names.
    ensures intrinsics_part { (p : Program) (i : Intr) → is_name (intrinsic_name p.roles i) ≡ true → (ps : Pieces) → Fits ps → Fits (intrinsic_line p i ps) }
    ensures tags_part { (s : Structure) → is_name s.tag ≡ true → (ps : Pieces) → Fits ps → Fits (tag_line s ps) }
    ensures structures_part { (p : Program) → IsSound p → HasUnitNames p → (i : ℕ) (s : Structure) → slice_get p.structures i ≡ Some s → (ps : Pieces) → Fits ps → Fits (structure p.structures s ps) }
    ensures devices_part { (d : Device) (x : List ℕ) → is_name x ≡ true → (ps : Pieces) → Fits ps → Fits (device_named d (Some x) ps) }
    ensures prototypes_part { (p : Program) → HasUnitNames p → (f : Func) → is_name f.name ≡ true → IsFunc p f → (ps : Pieces) → Fits ps → Fits (prototype p.structures f ps) }
    ensures objects_part { (p : Program) → HasUnitNames p → (i : ℕ) (o : Object) → slice_get p.objects i ≡ Some o → is_object p o ≡ true → (ps : Pieces) → Fits ps → Fits (object_line p.structures o ps) }
    ensures definitions_part { (p : Program) → IsSound p → HasUnitNames p → (i : ℕ) (o : Object) → slice_get p.objects i ≡ Some o → (ps : Pieces) → Fits ps → Fits (definition_line p o ps) }
{}
