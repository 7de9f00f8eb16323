//! What holds of the printed text of declarations.

ghost use Rattle.std.specs.Prelude.{◌≡◌, ◌∷◌, ◌≤◌, ◌-◌, ◌^◌, ℕ, [], Some, true, slice_get};
ghost use Rattle.cc_bodies.specs.Stmts.{intrinsic_name};
ghost use Rattle.cc_expression_trees.specs.Names.{HasNames};
ghost use Rattle.cc_unit_trees.specs.ReadFunctions.{ReadsDecl, ReadsItem};
ghost use Rattle.cc_unit_trees.specs.Units.{ShowsDecl, ShowsFunction};
ghost use Rattle.cc_pieces.specs.Pieces.{Pieces};
ghost use Rattle.cc_expression_trees.specs.Parts.{Fits};
ghost use Rattle.cc_print.specs.Units.{object_line, function};
ghost use Rattle.cc_program.specs.declared.expr.Intr.{Intr};
ghost use Rattle.cc_program.specs.declared.func.Func.{Func};
ghost use Rattle.cc_program.specs.declared.object.Device.{Device};
ghost use Rattle.cc_program.specs.declared.object.Object.{Object};
ghost use Rattle.cc_program.specs.declared.program.Program.{Program};
ghost use Rattle.cc_program.specs.declared.types.Structure.{Structure};
ghost use Rattle.cc_typed.specs.CcSyntax.Normal.{is_normal_body};
ghost use Rattle.cc_typed.specs.CcSyntax.Sound.{is_object, IsFunc};
ghost use Rattle.cc_expression_trees.specs.Types.{Plain};
ghost use Rattle.cc_program.specs.CcWords.Names.{is_name};
ghost use Rattle.cc_program.specs.CcWords.declared.word.Word.TheVariants as w;

/// What holds of the text of static objects and functions, wherever it stands. The call does nothing.
pub fn declarations_read_back()
    // The tokens of an object's line have a declaration that shows the object, and those of a sound function in normal
    // form a definition that shows the function.
    ensures objects { (p : Program) (o : Object) → is_object p o ≡ true → (at : ℕ) (ps : Pieces) →
        ReadsDecl (ShowsDecl p.structures (w.Static ∷ []) (Plain (Some o.name)) o.ctype) at (object_line p.structures o ps) ps }
    ensures functions { (p : Program) (f : Func) → IsFunc p f → is_normal_body p.target f ≡ true → (at : ℕ) (ps : Pieces) → ReadsItem (ShowsFunction p f) at (function p f ps) ps }

    // Their pieces part from one another, where names are names.
    ensures objects_part { (p : Program) → ((i : ℕ) (s : Structure) → slice_get p.structures i ≡ Some s → is_name s.tag ≡ true) → (o : Object) → is_object p o ≡ true → is_name o.name ≡ true →
        (ps : Pieces) → Fits ps → Fits (object_line p.structures o ps) }
    ensures functions_part { (p : Program) → ((i : ℕ) (d : Device) → slice_get p.devices i ≡ Some d → d.number ≤ 2 ^ 63 - 1) → ((i : Intr) → is_name (intrinsic_name p.roles i) ≡ true) →
        (f : Func) → HasNames p f → is_name f.name ≡ true → IsFunc p f → is_normal_body p.target f ≡ true → (ps : Pieces) → Fits ps → Fits (function p f ps) }
{}
