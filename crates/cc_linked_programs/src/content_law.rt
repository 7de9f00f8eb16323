ghost use Rattle.std.specs.Prelude.{◌≡◌, ℕ, Bool, true, List, None, Option, Some, length, map, slice_get};
ghost use Rattle.std.specs.List.{list_all};
ghost use Rattle.cc_causes.specs.Causes.{bad_handler, cause_of_things};
ghost use Rattle.cc_link.specs.Linked.{program};
ghost use Rattle.cc_linked_names.specs.Given.{name_at, reserved_names};
ghost use Rattle.cc_program.specs.CcNum.declared.target.Target.{Target};
ghost use Rattle.cc_program.proofs.Each.{Each};
ghost use Rattle.cc_program.specs.declared.func.Entry.{Entry};
ghost use Rattle.cc_program.specs.declared.func.Func.{Func};
ghost use Rattle.cc_program.specs.declared.object.Object.{Object};
ghost use Rattle.cc_program.specs.declared.program.Roles.{Roles};
ghost use Rattle.cc_program.specs.declared.types.Sig.{Sig};
ghost use Rattle.cc_relocated_units.specs.Renumbering.{Renumbers};
ghost use Rattle.cc_relocation.specs.Relocated.{func_with};
ghost use Rattle.cc_relocated_units.specs.Units.{IsSoundFunction, IsSoundUnit};
ghost use Rattle.cc_structures.proofs.Elements.{In};
ghost use Rattle.cc_structures.specs.Structures.{AreNumbered, Known, Numbering};
ghost use Rattle.cc_operands.specs.CcSyntax.Initial.{IsInitial};
ghost use Rattle.cc_operands.specs.CcSyntax.Kinds.{is_object_type};
ghost use Rattle.cc_operands.specs.CcSyntax.Sound.{devices_differ, is_device};
ghost use Rattle.cc_operands.specs.CcSyntax.Views.{View, kind_in, of_program};
ghost use Rattle.cc_things.specs.Things.{things};
ghost use Rattle.cc_things.specs.declared.text.Text.{Text};
ghost use Rattle.cc_unit.specs.Mentioned.{all_of, in_stmt};
ghost use Rattle.cc_unit.specs.Renumbered.{sig_renumbered};
ghost use Rattle.cc_unit.specs.declared.ids.Ids.{Ids};

/// Functions stay sound by other numbers and names of their locals; and those of the program that sound sources link to are sound (C99 6.9.1). The call does nothing.
pub fn function_laws()
    ensures relocated { (v w : View) (ids : Ids) (among : ℕ → Bool) → Renumbers v w ids among → (s : Sig) (g : Func) → IsSoundFunction v s g → Each (λ i. among i ≡ true) (all_of (map in_stmt g.body)) →
        (name : List ℕ) (names : List (List ℕ)) (entry : Option Entry) → length names ≡ length g.locals → IsSoundFunction w (sig_renumbered ids.structures s) (func_with name names entry ids g) }
    ensures functions { (texts : List Text) (target : Target) → ((t : ℕ) (x : Text) → slice_get texts t ≡ Some x → IsSoundUnit target x.unit) → (roles : Roles) (numbering : Numbering) (firsts : List Known) → AreNumbered (map (λ (x : Text). x.unit) texts) numbering firsts →
        cause_of_things numbering (things texts) ≡ None → bad_handler (things texts) roles (name_at (things texts) (reserved_names texts roles) roles firsts) ≡ None →
        (f : Func) → In f (program texts roles numbering firsts target).funcs → IsSoundFunction (of_program (program texts roles numbering firsts target)) f.sig f }
{}

/// Objects of the program that sound sources link to have complete object types and first values of these (C99 6.7.8, 6.9.2). The call does nothing.
pub fn object_laws()
    ensures objects { (texts : List Text) (target : Target) → ((t : ℕ) (x : Text) → slice_get texts t ≡ Some x → IsSoundUnit target x.unit) → (roles : Roles) (numbering : Numbering) (firsts : List Known) → AreNumbered (map (λ (x : Text). x.unit) texts) numbering firsts →
        cause_of_things numbering (things texts) ≡ None → bad_handler (things texts) roles (name_at (things texts) (reserved_names texts roles) roles firsts) ≡ None →
        (o : Object) → In o (program texts roles numbering firsts target).objects → (is_object_type (kind_in (of_program (program texts roles numbering firsts target)) o.ctype) ≡ true) × IsInitial (of_program (program texts roles numbering firsts target)) o.ctype o.init }
{}

/// Devices of the program that sound sources link to have a name or an address, and no two without names are equal. The call does nothing.
pub fn device_laws()
    ensures fit { (texts : List Text) (target : Target) → ((t : ℕ) (x : Text) → slice_get texts t ≡ Some x → IsSoundUnit target x.unit) → (roles : Roles) (numbering : Numbering) (firsts : List Known) → list_all (is_device target) (program texts roles numbering firsts target).devices ≡ true }
    ensures apart { (texts : List Text) (target : Target) → ((t : ℕ) (x : Text) → slice_get texts t ≡ Some x → IsSoundUnit target x.unit) → (roles : Roles) (numbering : Numbering) (firsts : List Known) → devices_differ (program texts roles numbering firsts target).devices ≡ true }
{}
