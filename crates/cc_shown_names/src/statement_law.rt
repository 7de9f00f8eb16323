//! What holds of the lines that show statements of a program.

ghost use Rattle.std.specs.Prelude.{◌≡◌, ◌≤◌, ℕ, List, Ok, Some, length, map, slice_get, true};
ghost use Rattle.std.specs.List.{list_all};
ghost use Rattle.cc_program.specs.declared.func.Func.{Func};
ghost use Rattle.cc_program.specs.declared.program.Program.{Program};
ghost use Rattle.cc_program.specs.declared.stmt.Stmt.{Stmt};
ghost use Rattle.cc_program.specs.declared.types.Sig.{out-Sig};
ghost use Rattle.cc_type.specs.CcScopes.State.{Name, State};
ghost use Rattle.cc_shown_effects.specs.Numbers.{stmt_numbered};
ghost use Rattle.cc_shown_expressions.specs.KnownNames.{KnowsNames};
ghost use Rattle.cc_shown_expressions.specs.OperationNumbers.{Numbers};
ghost use Rattle.cc_shown_names.specs.Devices.{DevicesFrom, KnowsDevices, with_devices};
ghost use Rattle.cc_shown_expressions.specs.Numbers.{type_numbered};
ghost use Rattle.cc_unit_trees.specs.Lines.{ShowsStmts};
ghost use Rattle.cc_type.specs.CcSyntax.Normal.{devices_in, is_normal_stmt, next_of};
ghost use Rattle.cc_type.specs.CcSyntax.Programs.{is_sound_stmt};
ghost use Rattle.cc_type.specs.CcSyntax.Sound.{IsSound, devices_differ};
ghost use Rattle.cc_tree.specs.declared.at.At.{At};
ghost use Rattle.cc_tree.specs.declared.unit.Line.{Line};
ghost use Rattle.cc_type.specs.CcTypedBodies.Lines.{line_here};
ghost use Rattle.cc_type.specs.CcTypedBodies.Meanings.{lines_found};
ghost use Rattle.cc_type.specs.CcTypedStatements.declared.jumps.Jumps.{Jumps};

/// What holds of lines that show sound statements in normal form of a function of a sound program, where its structures and
/// names are known (C99 6.8). The call does nothing.
pub fn statements_are_typed()
    // They are typed to the statements, with the numbers that the translation unit gives, from what is known in front of them
    // to what is known behind the devices that they use.
    ensures statements { (p : Program) (i : ℕ) (f : Func) (n : Numbers) (s u : State) → IsSound p → slice_get p.funcs i ≡ Some f → KnowsNames p f n s → (defined : List Name) (j : Jumps) (ss : List Stmt) (ls : List (At Line)) → ShowsStmts p f ss ls →
        list_all (λ b. b) (map (is_normal_stmt p.target f) ss) ≡ true → list_all (λ g. g j.breaks j.continues) (map (is_sound_stmt p f) ss) ≡ true → DevicesFrom p n (devices_in ss) s u →
        lines_found j (map (line_here p.target p.roles defined (type_numbered n.structure (out-Sig f.sig).result)) ls) s ≡ Ok (map (stmt_numbered n) ss, u) }
    // What names designate is known behind them as in front of them.
    ensures behind { (p : Program) (f : Func) (n : Numbers) (s u : State) → KnowsNames p f n s → (ids : List ℕ) → DevicesFrom p n ids s u → KnowsNames p f n u }
    // Where the devices without names are used in their order, each is declared by its first use alone.
    ensures devices { (p : Program) (n : Numbers) (first behind : ℕ) (s : State) → devices_differ p.devices ≡ true → KnowsDevices p n first s.names → (ids : List ℕ) → next_of first ids ≡ Some behind → behind ≤ length p.devices →
        DevicesFrom p n ids s (with_devices p first behind s) × KnowsDevices p n behind (with_devices p first behind s).names }
{}
