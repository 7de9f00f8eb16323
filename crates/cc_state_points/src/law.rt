ghost use Rattle.std.specs.Prelude.{◌≡◌, ℕ, List, Some, slice_get};
ghost use Rattle.cc_rules_flows.specs.CcFlowSound.Statements.{statement_at};
ghost use Rattle.cc_program.specs.declared.func.Func.{Func};
ghost use Rattle.cc_program.specs.declared.program.Program.{Program};
ghost use Rattle.cc_program.specs.declared.stmt.Stmt.{Stmt};
ghost use Rattle.cc_rules_flows.specs.Acts.{act_of};
ghost use Rattle.cc_state_points.specs.Operands.{AreOperands};
ghost use Rattle.cc_rules_flows.specs.CcSyntax.Normal.{IsNormal};

/// What normal form says of the statements of a program. The call does nothing.
pub fn points()
    // The operands of each are pure, and what gets a value as a register is one.
    ensures operands { (p : Program) → IsNormal p → (id : ℕ) (f : Func) → slice_get p.funcs id ≡ Some f → (path : List ℕ) (s : Stmt) →
        statement_at f.body path ≡ Some s → AreOperands p f (act_of f s) }
{}
