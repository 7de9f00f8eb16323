ghost use Rattle.std.specs.Prelude.{◌≡◌, ◌++◌, true, List, length};
ghost use Rattle.cc_link.specs.Linked.{Links};
ghost use Rattle.cc_program.specs.CcNum.declared.target.Target.{Target};
ghost use Rattle.cc_program.specs.declared.func.Func.{Func};
ghost use Rattle.cc_program.specs.declared.program.Program.{Program};
ghost use Rattle.cc_program.specs.declared.program.Roles.{Roles};
ghost use Rattle.cc_linked_programs.specs.Few.{FewTexts, EachOfText};
ghost use Rattle.cc_structures.proofs.Elements.{In};
ghost use Rattle.cc_operands.specs.CcSyntax.Names.{are_names, file_names, local_names, tags};
ghost use Rattle.cc_operands.specs.CcSyntax.Sound.{have_ids};
ghost use Rattle.cc_things.specs.declared.text.Text.{Text};

/// What holds of the names and of the counts of the program that few sources link to (C99 6.2.3). The call does nothing.
pub fn program_name_laws()
    // Tags are names, and no two are the same; so are the names of devices, objects, functions and intrinsics together.
    ensures tags { (texts : List Text) (target : Target) (roles : Roles) (p : Program) → Links texts target roles p → EachOfText texts → FewTexts texts → are_names (tags p) ≡ true }
    ensures file { (texts : List Text) (target : Target) (roles : Roles) (p : Program) → Links texts target roles p → EachOfText texts → FewTexts texts → are_names (file_names p) ≡ true }
    // So are those of the locals of each function together with these.
    ensures locals { (texts : List Text) (target : Target) (roles : Roles) (p : Program) → Links texts target roles p → EachOfText texts → FewTexts texts →
        (f : Func) → In f p.funcs → are_names (local_names f.locals ++ file_names p) ≡ true }
    // Ids of 32 bits tell all of them apart.
    ensures few_structures { (texts : List Text) (target : Target) (roles : Roles) (p : Program) → Links texts target roles p → FewTexts texts → have_ids (length p.structures) ≡ true }
    ensures few_devices { (texts : List Text) (target : Target) (roles : Roles) (p : Program) → Links texts target roles p → FewTexts texts → have_ids (length p.devices) ≡ true }
    ensures few_objects { (texts : List Text) (target : Target) (roles : Roles) (p : Program) → Links texts target roles p → FewTexts texts → have_ids (length p.objects) ≡ true }
    ensures few_functions { (texts : List Text) (target : Target) (roles : Roles) (p : Program) → Links texts target roles p → FewTexts texts → have_ids (length p.funcs) ≡ true }
    ensures few_locals { (texts : List Text) (target : Target) (roles : Roles) (p : Program) → Links texts target roles p → EachOfText texts → (f : Func) → In f p.funcs → have_ids (length f.locals) ≡ true }
{}
