ghost use Rattle.std.specs.Prelude.{◌≡◌, ℕ, false, true, List, None, Option, Some, filter_map, length, slice_get};
ghost use Rattle.cc_causes.specs.Causes.{cause_of_things};
ghost use Rattle.cc_definitions.specs.Definitions.{devices, objects};
ghost use Rattle.cc_link.specs.Linked.{all_ids, device_at, id_at, object_at};
ghost use Rattle.cc_relocated_units.specs.Linked.{linked, structures_of, AllStand};
ghost use Rattle.cc_program.specs.CcNum.declared.target.Target.{Target};
ghost use Rattle.cc_operands.specs.CcSyntax.Kinds.{extent_in};
ghost use Rattle.cc_program.specs.declared.object.Device.{Device};
ghost use Rattle.cc_program.specs.declared.object.Object.{Object};
ghost use Rattle.cc_program.specs.declared.types.Structure.{Structure};
ghost use Rattle.cc_program.specs.declared.value.Leaf.{Leaf};
ghost use Rattle.cc_relocated_units.specs.Renumbering.{MemberTypes};
ghost use Rattle.cc_relocated_units.specs.Units.{IsSoundUnit};
ghost use Rattle.cc_structures.proofs.Elements.{In};
ghost use Rattle.cc_structures.proofs.WordLaws.{number_by};
ghost use Rattle.cc_structures.specs.Structures.{Known, Numbering, numbers_of, AreNumbered, type_in};
ghost use Rattle.cc_things.specs.Mentions.{Mention, mentions};
ghost use Rattle.cc_things.specs.Things.{identities, identity_of, is_defined, is_device, number_in, thing_of, things};
ghost use Rattle.cc_things.specs.declared.text.Text.{Text};
ghost use Rattle.cc_unit.specs.declared.ids.Id.TheVariants as id;
ghost use Rattle.cc_unit.specs.declared.unit.TypedUnit.{TypedUnit};
ghost use Rattle.cc_unit.specs.declared.unit.UnitKind.TheVariants as kind;
ghost use Rattle.cc_linked_programs.specs.FunctionTypes.{is_function_type};

/// What holds of the structures of the program, whatever tags they have (C99 6.7.2.1). The call does nothing.
pub fn structure_laws()
    // A structure of a source has its members by the program's numbers.
    ensures structures { (units : List TypedUnit) (numbering : Numbering) (firsts : List Known) (tags : List (List ℕ)) (target : Target) → AreNumbered units numbering firsts → length tags ≡ length firsts → AllStand target units →
        (t : ℕ) (u : TypedUnit) → slice_get units t ≡ Some u → (i : ℕ) (s : Structure) → slice_get (structures_of u) i ≡ Some s →
        (q : Structure) × (slice_get (linked numbering tags firsts) (number_by (numbers_of numbering t) i) ≡ Some q) × MemberTypes (numbers_of numbering t) s.members q.members }
    // It is as large.
    ensures extents { (units : List TypedUnit) (numbering : Numbering) (firsts : List Known) (tags : List (List ℕ)) (target : Target) → AreNumbered units numbering firsts → length tags ≡ length firsts → AllStand target units →
        (t : ℕ) (u : TypedUnit) → slice_get units t ≡ Some u → (i : ℕ) (x : Option ℕ) → extent_in (structures_of u) target i ≡ Some x → extent_in (linked numbering tags firsts) target (number_by (numbers_of numbering t) i) ≡ Some x }
{}

/// What holds of objects and devices of sound sources against which no cause stands, whatever names they are given (C99 6.2.2, 6.2.7). The call does nothing.
pub fn object_view_laws()
    // What a source uses as an object is defined.
    ensures used { (texts : List Text) (target : Target) → ((t : ℕ) (x : Text) → slice_get texts t ≡ Some x → IsSoundUnit target x.unit) → (numbering : Numbering) → cause_of_things numbering (things texts) ≡ None →
        (m : Mention) → In m (mentions texts) → m.used ≡ true → (init : List Leaf) → m.name.kind ≡ kind.Object init → is_defined (thing_of (mentions texts) (identity_of m)) ≡ true }
    // What is defined, and is no function, is the object of its id, with the type that each mention has by the program's numbers.
    ensures objects { (texts : List Text) (target : Target) → ((t : ℕ) (x : Text) → slice_get texts t ≡ Some x → IsSoundUnit target x.unit) → (numbering : Numbering) → cause_of_things numbering (things texts) ≡ None →
        (name_of : ℕ → Option (List ℕ)) (m : Mention) → In m (mentions texts) → is_defined (thing_of (mentions texts) (identity_of m)) ≡ true → is_function_type m.name.ctype ≡ false →
        (at : ℕ) × (id_at (things texts) (number_in (identities (mentions texts)) m) ≡ id.Object at)
        × ((o : Object) × (slice_get (filter_map (object_at (things texts) name_of (all_ids texts numbering)) (objects (things texts))) at ≡ Some o) × (o.ctype ≡ type_in numbering m.text m.name.ctype)) }
    // What a source has as a device, and none defines, is the device of its id.
    ensures devices { (texts : List Text) (target : Target) → ((t : ℕ) (x : Text) → slice_get texts t ≡ Some x → IsSoundUnit target x.unit) → (numbering : Numbering) → cause_of_things numbering (things texts) ≡ None →
        (name_of : ℕ → Option (List ℕ)) (m : Mention) (d : Device) → In m (mentions texts) → m.name.kind ≡ kind.Device d → is_device (thing_of (mentions texts) (identity_of m)) ≡ true →
        (at : ℕ) × (id_at (things texts) (number_in (identities (mentions texts)) m) ≡ id.Device at)
        × ((x : Device) × (slice_get (filter_map (device_at (things texts) name_of) (devices (things texts))) at ≡ Some x) × (x.int ≡ d.int) × (x.constant ≡ d.constant)) }
{}
