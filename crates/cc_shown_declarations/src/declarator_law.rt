//! What holds of the declarators that show functions of a program.

ghost use Rattle.std.specs.Prelude.{◌≡◌, ◌||◌, ℕ, true, false, List, map, Option};
ghost use Rattle.std.specs.List.{list_all};
ghost use Rattle.std.specs.Option.{is_some};
ghost use Rattle.cc_type.specs.CcOperands.Qualified.{unqualified};
ghost use Rattle.cc_program.specs.declared.program.Program.{Program};
ghost use Rattle.cc_program.specs.declared.program.Roles.{Roles};
ghost use Rattle.cc_program.specs.declared.types.CType.{CType};
ghost use Rattle.cc_program.specs.declared.types.Shape.{out-Shape};
ghost use Rattle.cc_program.specs.declared.types.Sig.{Sig, out-Sig};
ghost use Rattle.cc_type.specs.CcScopes.State.{Name, State};
ghost use Rattle.cc_shown_declarations.specs.Declared.{IsFunctionDeclared};
ghost use Rattle.cc_shown_declarations.specs.Parameters.{Entry, HaveNewNames, is_function_shape};
ghost use Rattle.cc_shown_expressions.specs.Known.{KnowsStructures};
ghost use Rattle.cc_type.specs.CcSpecifiers.Declarators.{declares_function};
ghost use Rattle.cc_type.specs.CcSpecifiers.declared.derivation.Allowed.{Allowed};
ghost use Rattle.cc_type.specs.CcSyntax.Kinds.{is_plain_scalar, is_result};
ghost use Rattle.cc_type.specs.CcSyntax.Programs.{kind_in};
ghost use Rattle.cc_type.specs.CcSyntax.Sound.{IsSound};
ghost use Rattle.cc_tree.specs.declared.tree.Declr.{Declr};
ghost use Rattle.cc_expression_trees.specs.Types.{Declares, Function, Plain};

/// What holds of declarators that show functions of a program, where its structures are known (C99 6.7.5.3): each declares
/// its name with the function's type, with the numbers that the translation unit gives to structures, and its parameters,
/// and nothing that is known changes. The call does nothing.
pub fn functions_are_declared()
    // With parameters that have names, which are declared in a scope of their own, and with others, where those may stand.
    ensures functions { (p : Program) (number : ℕ → ℕ) (roles : Roles) (s : State) → IsSound p → KnowsStructures p number s →
        (sig : Sig) (x : Name) (entries : List Entry) → map (λ (e : Entry). unqualified e.1) entries ≡ (out-Sig sig).params → is_result (kind_in p (out-Sig sig).result) ≡ true → list_all (λ t. is_plain_scalar (kind_in p t)) (out-Sig sig).params ≡ true →
        HaveNewNames roles entries → (allowed : Allowed) → (allowed.unnamed || list_all (λ (e : Entry). is_some e.0) entries) ≡ true →
        (b : CType) (d : Declr) → Declares p.structures b d (Function x entries) (out-Sig sig).result → (at : ℕ) → IsFunctionDeclared p number roles s d allowed at x entries b sig }

    // By its form it declares a function, and one of another type does not (C99 6.7.5).
    ensures forms { (p : Program) (b t : CType) (d : Declr) (x : Name) (entries : List Entry) → Declares p.structures b d (Function x entries) t → declares_function false d ≡ true }
    ensures objects { (p : Program) (b t : CType) (d : Declr) (x : Option Name) → Declares p.structures b d (Plain x) t → is_function_shape (out-Shape t.shape) ≡ false → declares_function false d ≡ false }
{}
