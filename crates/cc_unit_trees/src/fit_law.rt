//! What holds of the names, numbers, types and bodies of programs in normal form.

ghost use Rattle.std.specs.Prelude.{◌≡◌, ◌≤◌, ◌-◌, ◌^◌, ℕ, ◌||◌, nat_lt, Some, true, length, take, slice_get};
ghost use Rattle.std.specs.List.{list_all};
ghost use Rattle.cc_bodies.specs.Stmts.{intrinsic_name};
ghost use Rattle.cc_expression_trees.specs.Names.{HasNames};
ghost use Rattle.cc_program.specs.declared.expr.Intr.{Intr};
ghost use Rattle.cc_program.specs.declared.func.Func.{Func};
ghost use Rattle.cc_program.specs.declared.object.Device.{Device};
ghost use Rattle.cc_program.specs.declared.object.Object.{Object};
ghost use Rattle.cc_program.specs.declared.program.Program.{Program};
ghost use Rattle.cc_program.specs.declared.types.Structure.{Structure};
ghost use Rattle.cc_typed.specs.CcSyntax.Programs.{IsInitial};
ghost use Rattle.cc_typed.specs.CcSyntax.Normal.{IsNormal, is_normal_body};
ghost use Rattle.cc_typed.specs.CcSyntax.Sound.{is_member, is_object, IsFunc};
ghost use Rattle.cc_typed.specs.CcSyntax.Types.{has_members};
ghost use Rattle.cc_program.specs.CcWords.Names.{is_name};

/// What the laws of trees ask of a program, which each program in normal form has. The call does nothing.
pub fn normal_programs_fit()
    // Each name of a function's text may name something, and so may the names of intrinsics.
    ensures names { (p : Program) → IsNormal p → (i : ℕ) (f : Func) → slice_get p.funcs i ≡ Some f → HasNames p f }
    ensures intrinsics { (p : Program) → IsNormal p → (i : Intr) → is_name (intrinsic_name p.roles i) ≡ true }

    // The number of a device is a constant in decimal.
    ensures numbers { (p : Program) → IsNormal p → (i : ℕ) (d : Device) → slice_get p.devices i ≡ Some d → d.number ≤ 2 ^ 63 - 1 }

    // Members have types of objects over the structures before their own, and each structure that such a type may name
    // is there.
    ensures members { (p : Program) → IsNormal p → (i : ℕ) (s : Structure) → slice_get p.structures i ≡ Some s → list_all (is_member (take i p.structures) (length p.structures) p.target) s.members ≡ true }
    ensures known { (p : Program) (n i : ℕ) → (has_members (slice_get (take n p.structures) i) || nat_lt i (length p.structures)) ≡ true → (s : Structure) × (slice_get p.structures i ≡ Some s) }

    // Objects have types of objects and fitting first values, functions are sound, and their bodies are normal.
    ensures objects { (p : Program) → IsNormal p → (i : ℕ) (o : Object) → slice_get p.objects i ≡ Some o → is_object p o ≡ true }
    ensures initial { (p : Program) → IsNormal p → (i : ℕ) (o : Object) → slice_get p.objects i ≡ Some o → IsInitial p o.ctype o.init }
    ensures functions { (p : Program) → IsNormal p → (i : ℕ) (f : Func) → slice_get p.funcs i ≡ Some f → IsFunc p f }
    ensures bodies { (p : Program) → IsNormal p → (i : ℕ) (f : Func) → slice_get p.funcs i ≡ Some f → is_normal_body p.target f ≡ true }
{}
